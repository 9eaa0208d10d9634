// The tables of words and symbols.
ghost use Rattle.std.specs.Prelude.{◌≡◌};
ghost use Rattle.ceu_syntax.specs.Terminals as table;
ghost use Rattle.ceu_syntax.specs.Steps as spec;

use ceu_base::{Name, Op1, Op2};
use ceu_syntax::{Acting, Coding, Declaring, Kind, Looping, Mode, Opening};
use ceu_tree::{Stmt, Unit};

pub fn binary_of(kind: &Kind) -> Option<Op2>
    ensures { result ≡ table.binary_of kind.now }
{
    match kind {
        Kind::Or => Some(Op2::Or),
        Kind::And => Some(Op2::And),
        Kind::Equal => Some(Op2::Eq),
        Kind::NotEqual => Some(Op2::Ne),
        Kind::Less => Some(Op2::Lt),
        Kind::Greater => Some(Op2::Gt),
        Kind::LessEqual => Some(Op2::Le),
        Kind::GreaterEqual => Some(Op2::Ge),
        Kind::Bar => Some(Op2::BitOr),
        Kind::Caret => Some(Op2::BitXor),
        Kind::Ampersand => Some(Op2::BitAnd),
        Kind::ShiftLeft => Some(Op2::Shl),
        Kind::ShiftRight => Some(Op2::Shr),
        Kind::Plus => Some(Op2::Add),
        Kind::Minus => Some(Op2::Sub),
        Kind::Star => Some(Op2::Mul),
        Kind::Slash => Some(Op2::Div),
        Kind::Percent => Some(Op2::Rem),
        _ => None,
    }
}

pub fn prefix_of(kind: &Kind) -> Option<Op1>
    ensures { result ≡ table.prefix_of kind.now }
{
    match kind {
        Kind::Not => Some(Op1::Not),
        Kind::Minus => Some(Op1::Neg),
        Kind::Tilde => Some(Op1::Compl),
        _ => None,
    }
}

pub fn level(op: Op2) -> u32
    ensures { result ≡ table.level op }
{
    match op {
        Op2::Or => 1,
        Op2::And => 2,
        Op2::Eq => 3,
        Op2::Ne => 3,
        Op2::Lt => 3,
        Op2::Gt => 3,
        Op2::Le => 3,
        Op2::Ge => 3,
        Op2::BitOr => 4,
        Op2::BitXor => 5,
        Op2::BitAnd => 6,
        Op2::Shl => 7,
        Op2::Shr => 7,
        Op2::Add => 8,
        Op2::Sub => 8,
        Op2::Mul => 9,
        Op2::Div => 9,
        Op2::Rem => 9,
    }
}

pub fn unit_of(name: &Name) -> Option<Unit>
    ensures { result ≡ spec.unit_of name.now }
{
    let text = name.text();
    if text == "h" {
        Some(Unit::H)
    } else if text == "min" {
        Some(Unit::Min)
    } else if text == "s" {
        Some(Unit::S)
    } else if text == "ms" {
        Some(Unit::Ms)
    } else if text == "us" {
        Some(Unit::Us)
    } else {
        None
    }
}

/// A literal count.
pub fn saturated(n: u64) -> u32
    ensures { result ≡ table.saturated n }
{
    if n <= 4294967295 {
        n as u32
    } else {
        4294967295
    }
}

/// What may follow the word that begins a statement.
pub fn head(kind: &Kind) -> Option<Mode>
    ensures { result ≡ spec.head kind.now }
{
    match kind {
        Kind::Nothing => Some(Mode::Semicolon(Stmt::Nothing)),
        Kind::Break => Some(Mode::Semicolon(Stmt::Break)),
        Kind::Continue => Some(Mode::Semicolon(Stmt::Continue)),
        Kind::Var => Some(Mode::Declaring(Declaring::Var)),
        Kind::Event => Some(Mode::Declaring(Declaring::EventType)),
        Kind::Input => Some(Mode::Declaring(Declaring::InputType)),
        Kind::Output => Some(Mode::Declaring(Declaring::OutputType)),
        Kind::Pool => Some(Mode::Declaring(Declaring::Pool)),
        Kind::Code => Some(Mode::Coding(Coding::Slash)),
        Kind::Emit => Some(Mode::Acting(Acting::Emit)),
        Kind::Await => Some(Mode::Acting(Acting::Await)),
        Kind::Kill => Some(Mode::Acting(Acting::Kill)),
        Kind::Escape => Some(Mode::Acting(Acting::Escape)),
        Kind::Async => Some(Mode::Opening(Opening::Async)),
        Kind::Do => Some(Mode::Opening(Opening::Do)),
        Kind::Loop => Some(Mode::Looping(Looping::Loop)),
        Kind::Every => Some(Mode::Looping(Looping::Every)),
        Kind::Par => Some(Mode::Opening(Opening::Par)),
        _ => None,
    }
}
