// The tokens of a text.
ghost use Rattle.std.specs.Prelude.{◌≡◌, ◌⊎◌, ◌≤◌, ◌<◌, ◌+◌, ℕ, List, length, IfOk, IfErr, MatchResult};
ghost use Rattle.ceu_base.specs.declared.kinds.Pos.{Pos};
ghost use Rattle.ceu_base.specs.declared.kinds.Rule.{Rule};
ghost use Rattle.ceu_lex.specs.Positions as spec;
ghost use Rattle.ceu_lex.specs.Texts.{Reads, Breaks, IsRefusal};
ghost use Rattle.ceu_lex.specs.declared.lexer.LexError.TheVariants.{Memory, Refused};
ghost use Rattle.ceu_lex.specs.declared.token.Token.{Token};

use crate::gaps::past_gap;
use crate::lexemes::lexeme;
use crate::token::Token;
use ceu_base::{Pos, Rule, Seq};
use std::alloc::{AllocError, Global};
use thiserror::Error;

/// Why a text has no tokens: the first broken rule and its place, or want of memory.
#[derive(Clone, Copy, Debug, PartialEq, Eq, Error)]
pub enum LexError {
    #[error("{0:?} at {line}:{col}", line = .1.line, col = .1.col)]
    Refused(Rule, Pos),
    #[error("out of memory")]
    Memory,
}

impl From<AllocError> for LexError {
    ghost from_gives = { λ _ e. e ≡ Memory };

    fn from(_: AllocError) -> Self {
        LexError::Memory
    }
}

// The position after some bytes.
#[tactic(auto, unfolding(crate::specs::Positions::pos_after))]
fn pos_after(from: Pos, mut bytes: &[u8]) -> Pos
    requires line { from.line + length bytes.now < 4294967296 }
    requires col { (1 ≤ from.col) × (from.col + length bytes.now < 4294967296) }
    ensures place { result ≡ spec.pos_after from bytes.entry.now }
    ensures line { result.line ≤ from.line + length bytes.entry.now }
    ensures col { (1 ≤ result.col) × (result.col ≤ from.col + length bytes.entry.now) }
{
    let mut pos = from;
    while let [b, rest @ ..] = bytes {
        pos = if *b == b'\n' {
            Pos {
                line: pos.line + 1,
                col: 1,
            }
        } else {
            Pos {
                line: pos.line,
                col: pos.col + 1,
            }
        };
        bytes = rest;
    }
    pos
}

/// The tokens of a text of at most 1,048,576 bytes, with the positions where they begin. Linear in the text's length.
pub fn lex(alloc: Global, text: &[u8]) -> Result<Seq<Token>, LexError>
    requires { length text.now ≤ 1048576 }
    // The text is gaps and these tokens in turn.
    ensures tokens { IfOk result (λ tokens. Reads text.now tokens) }
    // The text breaks this rule first, at this place.
    ensures refused { IfErr result (λ e. IsRefusal text.now e) }
    // A text that has tokens is given them, but for want of memory.
    ensures only_tokens { (tokens : List Token) → Reads text.now tokens → MatchResult result (λ found. found ≡ tokens) (λ e. e ≡ Memory) }
    // A text that breaks a rule is refused by it, but for want of memory.
    ensures only_rule { (rule : Rule) (pos : Pos) → Breaks text.now rule pos → MatchResult result (λ _. ⊥) (λ e. (e ≡ Refused rule pos) ⊎ (e ≡ Memory)) }
{
    let mut tokens = Seq::new(alloc);
    let mut at = 0;
    let mut pos = Pos { line: 1, col: 1 };
    loop {
        let begin = match past_gap(at, &text[at..]) {
            Ok(begin) => begin,
            Err(opened) => {
                return Err(LexError::Refused(Rule::L2, pos_after(pos, &text[at..opened])));
            }
        };
        pos = pos_after(pos, &text[at..begin]);
        if begin == text.len() {
            return Ok(tokens);
        }
        let (kind, len) = match lexeme(&text[begin..]) {
            Ok(found) => found,
            Err(rule) => return Err(LexError::Refused(rule, pos)),
        };
        let end = begin + len;
        tokens.push(Token {
            pos,
            start: begin as u32,
            end: end as u32,
            kind,
        })?;
        pos = pos_after(pos, &text[begin..end]);
        at = end;
    }
}
