// Tokens as the grammar sees them.
ghost use Rattle.std.specs.Prelude.{◌≡◌, ◌≤◌, ◌<◌, ◌+◌, length, IfOk};
ghost use Rattle.ceu_syntax.specs.Terminals as spec;
ghost use Rattle.ceu_grammar.specs.Spelling as spelling;
ghost use Rattle.ceu_lex.specs.Positions as positions;

use ceu_base::{Name, Pos, Ty};
use ceu_lex::{Sym, Token, TokenKind, Word};
use ceu_syntax::{Kind, Terminal};
use std::alloc::{AllocError, Global};

/// The letters of a name.
fn letters(alloc: Global, text: &[u8], token: Token) -> Result<Name, AllocError>
    requires { spelling.HasLetters text.now token }
    ensures { IfOk result (λ name. name ≡ spec.letters text.now token) }
{
    match std::str::from_utf8(&text[token.start as usize..token.end as usize]) {
        Ok(letters) => Name::new(alloc, letters),
        Err(_) => unreachable!(),
    }
}

/// A reserved word.
fn of_word(word: Word) -> Kind
    ensures { result ≡ spec.of_word word }
{
    match word {
        Word::And => Kind::And,
        Word::As => Kind::As,
        Word::Async => Kind::Async,
        Word::Await => Kind::Await,
        Word::Break => Kind::Break,
        Word::Code => Kind::Code,
        Word::Continue => Kind::Continue,
        Word::Do => Kind::Do,
        Word::Else => Kind::Else,
        Word::Emit => Kind::Emit,
        Word::End => Kind::End,
        Word::Escape => Kind::Escape,
        Word::Event => Kind::Event,
        Word::Every => Kind::Every,
        Word::Finalize => Kind::Finalize,
        Word::If => Kind::If,
        Word::In => Kind::In,
        Word::Input => Kind::Input,
        Word::Kill => Kind::Kill,
        Word::Loop => Kind::Loop,
        Word::Not => Kind::Not,
        Word::Nothing => Kind::Nothing,
        Word::Or => Kind::Or,
        Word::Outer => Kind::Outer,
        Word::Output => Kind::Output,
        Word::Par => Kind::Par,
        Word::Pool => Kind::Pool,
        Word::Spawn => Kind::Spawn,
        Word::Then => Kind::Then,
        Word::Until => Kind::Until,
        Word::Var => Kind::Var,
        Word::Watching => Kind::Watching,
        Word::With => Kind::With,
        Word::Forever => Kind::Forever,
        Word::None => Kind::Type(Ty::None),
        Word::Void => Kind::Type(Ty::None),
        Word::Bool => Kind::Type(Ty::Bool),
        Word::Byte => Kind::Type(Ty::U8),
        Word::U8 => Kind::Type(Ty::U8),
        Word::S8 => Kind::Type(Ty::S8),
        Word::U16 => Kind::Type(Ty::U16),
        Word::S16 => Kind::Type(Ty::S16),
        Word::Uint => Kind::Type(Ty::U32),
        Word::U32 => Kind::Type(Ty::U32),
        Word::Int => Kind::Type(Ty::S32),
        Word::S32 => Kind::Type(Ty::S32),
        Word::U64 => Kind::Type(Ty::U64),
        Word::S64 => Kind::Type(Ty::S64),
        Word::True => Kind::Truth(true),
        Word::On => Kind::Truth(true),
        Word::Yes => Kind::Truth(true),
        Word::False => Kind::Truth(false),
        Word::Off => Kind::Truth(false),
        Word::No => Kind::Truth(false),
    }
}

/// A symbol.
fn of_symbol(symbol: Sym) -> Kind
    ensures { result ≡ spec.of_symbol symbol }
{
    match symbol {
        Sym::Arrow => Kind::Arrow,
        Sym::Equal => Kind::Equal,
        Sym::NotEqual => Kind::NotEqual,
        Sym::LessEqual => Kind::LessEqual,
        Sym::GreaterEqual => Kind::GreaterEqual,
        Sym::ShiftLeft => Kind::ShiftLeft,
        Sym::ShiftRight => Kind::ShiftRight,
        Sym::OpenParen => Kind::OpenParen,
        Sym::CloseParen => Kind::CloseParen,
        Sym::OpenBracket => Kind::OpenBracket,
        Sym::CloseBracket => Kind::CloseBracket,
        Sym::Comma => Kind::Comma,
        Sym::Semicolon => Kind::Semicolon,
        Sym::Assign => Kind::Assign,
        Sym::Dot => Kind::Dot,
        Sym::Question => Kind::Question,
        Sym::Slash => Kind::Slash,
        Sym::Less => Kind::Less,
        Sym::Greater => Kind::Greater,
        Sym::Plus => Kind::Plus,
        Sym::Minus => Kind::Minus,
        Sym::Star => Kind::Star,
        Sym::Percent => Kind::Percent,
        Sym::Bar => Kind::Bar,
        Sym::Caret => Kind::Caret,
        Sym::Ampersand => Kind::Ampersand,
        Sym::Tilde => Kind::Tilde,
    }
}

/// What the grammar sees of a token.
pub fn terminal_of(alloc: Global, text: &[u8], token: Token) -> Result<Terminal, AllocError>
    requires { spelling.IsSpelled text.now token }
    ensures { IfOk result (λ t. t ≡ spec.terminal text.now token) }
{
    let kind = match token.kind {
        TokenKind::Reserved(word) => of_word(word),
        TokenKind::Lower => Kind::Lower(letters(alloc, text, token)?),
        TokenKind::Ext => Kind::Ext(letters(alloc, text, token)?),
        TokenKind::Abs => Kind::Abs(letters(alloc, text, token)?),
        TokenKind::Under => Kind::Under,
        TokenKind::Number(n) => Kind::Number(n),
        TokenKind::Time(n) => Kind::Time(n),
        TokenKind::Symbol(symbol) => of_symbol(symbol),
    };
    Ok(Terminal {
        kind,
        pos: token.pos,
    })
}

// The position after some bytes.
#[tactic(auto, unfolding(ceu_lex::specs::Positions::pos_after))]
fn pos_after(from: Pos, mut bytes: &[u8]) -> Pos
    requires line { from.line + length bytes.now < 4294967296 }
    requires col { (1 ≤ from.col) × (from.col + length bytes.now < 4294967296) }
    ensures place { result ≡ positions.pos_after from bytes.entry.now }
    ensures line { result.line ≤ from.line + length bytes.entry.now }
    ensures col { (1 ≤ result.col) × (result.col ≤ from.col + length bytes.entry.now) }
{
    let mut pos = from;
    while let [b, rest @ ..] = bytes {
        pos = if *b == b'\n' {
            Pos {
                line: pos.line + 1,
                col: 1,
            }
        } else {
            Pos {
                line: pos.line,
                col: pos.col + 1,
            }
        };
        bytes = rest;
    }
    pos
}

/// The position after the last byte of a text.
pub fn end_of(text: &[u8]) -> Pos
    requires { length text.now ≤ 1048576 }
    ensures { result ≡ positions.pos_after positions.first_pos text.now }
{
    pos_after(Pos { line: 1, col: 1 }, text)
}
