//! Cuts a text into tokens.
#![tactic(auto)]

mod gaps;
mod laws;
mod lexemes;
mod lexer;
mod times;
mod token;

pub use laws::{longest_token, one_outcome};
pub use lexemes::literal;
pub use lexer::{LexError, lex};
pub use token::{RESERVED, SYMBOLS, Sym, Token, TokenKind, UNITS, Word};

#[cfg(test)]
mod tests {
    use super::*;
    use ceu_base::{Pos, Rule, Seq};
    use std::alloc::{AllocError, Global};
    use std::test::Fail;

    const LIMIT: usize = 1_048_576;

    // The outcome of a text, of which no more is looked at than `lex` takes.
    fn outcome(alloc: Global, text: &[u8]) -> Result<Seq<Token>, LexError> {
        lex(alloc, &text[..text.len().min(LIMIT)])
    }

    // Words of `len` letters, with a blank after each, up to the limit.
    fn words_of(alloc: Global, len: usize) -> Result<Vec<u8>, AllocError> {
        let mut text = vec![in alloc; b'a'; LIMIT]?;
        for word in text.chunks_mut(len.saturating_add(1)) {
            if let Some(last) = word.last_mut() {
                *last = b' ';
            }
        }
        Ok(text)
    }

    #[test]
    fn spans_and_kinds_of_three_tokens(rt: HostRuntime) -> Result<(), Fail> {
        let tokens = lex(rt.alloc(), b"escape 1;")?;
        let found = tokens.items();
        assert_eq!(rt; found.len(), 3);
        assert_eq!(rt; found[0].kind, TokenKind::Reserved(Word::Escape));
        assert_eq!(rt; found[1].kind, TokenKind::Number(1));
        assert_eq!(rt; found[2].kind, TokenKind::Symbol(Sym::Semicolon));
        for (token, (start, end)) in found.iter().zip([(0, 6), (7, 8), (8, 9)]) {
            assert_eq!(rt; (token.start, token.end), (start, end));
            assert_eq!(rt;
                token.pos,
                Pos {
                    line: 1,
                    col: start.saturating_add(1)
                }
            );
        }
        Ok(())
    }

    #[test]
    fn the_first_broken_rule(rt: HostRuntime) {
        let rows: [(&[u8], Rule, u32, u32); 6] = [
            (b"escape y; @", Rule::L1, 1, 11),
            (b"_a = 1;", Rule::L1, 1, 1),
            (b"/*/", Rule::L2, 1, 1),
            (b"/* a */ // b\n /*/", Rule::L2, 2, 2),
            (b"escape 18446744073709551616;", Rule::L3, 1, 8),
            (b"escape 1x;", Rule::L4, 1, 8),
        ];
        for (text, rule, line, col) in rows {
            let refused = outcome(rt.alloc(), text).err();
            assert_eq!(rt;
                refused,
                Some(LexError::Refused(rule, Pos { line, col })),
                "at {line}:{col}"
            );
        }
    }

    #[test]
    fn texts_of_a_mebibyte(rt: HostRuntime) -> Result<(), Fail> {
        let blanks = vec![in rt.alloc(); b' '; LIMIT]?;
        assert_eq!(rt; outcome(rt.alloc(), &blanks)?.items().len(), 0);

        let mut comment = blanks;
        comment[0] = b'/';
        comment[1] = b'*';
        assert_eq!(rt;
            outcome(rt.alloc(), &comment).err(),
            Some(LexError::Refused(Rule::L2, Pos { line: 1, col: 1 }))
        );

        let too_long = words_of(rt.alloc(), 65)?;
        assert_eq!(rt;
            outcome(rt.alloc(), &too_long).err(),
            Some(LexError::Refused(Rule::L5, Pos { line: 1, col: 1 }))
        );

        let longest = words_of(rt.alloc(), 64)?;
        assert_eq!(rt; outcome(rt.alloc(), &longest)?.items().len(), 16_132);
        Ok(())
    }

    #[test]
    fn laws_are_called(rt: HostRuntime) {
        one_outcome();
        longest_token();
    }
}
