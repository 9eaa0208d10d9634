// The limits on nesting and on operators.
ghost use Rattle.std.specs.Prelude.{◌≡◌, ◌≤◌, ◌<◌, ◌↔◌, ℕ, List, IsTrue, true, if◌then◌else◌};
ghost use Rattle.ceu_base.specs.declared.kinds.Pos.{Pos};
ghost use Rattle.ceu_syntax.specs.Counts as count;
ghost use Rattle.ceu_syntax.specs.declared.machine.Mode.TheVariants as m;
ghost use Rattle.ceu_syntax.specs.Limits as limit;
ghost use Rattle.ceu_syntax.specs.Steps as spec;
ghost use Rattle.ceu_syntax.specs.Terminals.{kind_of, of_word, terminals};

use crate::stack::Stack;
use crate::tables::binary_of;
use ceu_lex::{Token, TokenKind, Word};
use ceu_syntax::{Acting, Kind, Mode, Opening, Owner};

/// The greatest number of levels that may be open.
const LEVELS: usize = 64;

/// The greatest number of operators that an outermost expression may have.
const OPERATORS: u32 = 256;

fn is_finalize_word(word: Word) -> bool
    ensures { result ≡ limit.is_finalize (of_word word) }
{
    match word {
        Word::Finalize => true,
        _ => false,
    }
}

fn is_finalize(kind: TokenKind) -> bool
    ensures { (name : List ℕ) → result ≡ limit.is_finalize (kind_of kind name) }
{
    match kind {
        TokenKind::Reserved(word) => is_finalize_word(word),
        _ => false,
    }
}

/// Whether the word `finalize` stands at the head of these tokens.
pub fn goes_on_finalize(rest: &[Token]) -> bool
    ensures { (text : List ℕ) → result ≡ limit.goes_on_finalize (terminals text rest.now) }
{
    match rest {
        [token, ..] => is_finalize(token.kind),
        [] => false,
    }
}

/// Whether the word `do` has opened a level that its block hasn't yet.
fn opened_by_do(mode: &Mode, at_statement: bool, finalize: bool) -> bool
    ensures { limit.opened_by_do mode.now at_statement finalize ≡ (if result then 1 else 0) }
{
    match mode {
        Mode::Opening(Opening::Do) => !(at_statement && finalize),
        Mode::Opening(Opening::DoLabel) => true,
        _ => false,
    }
}

/// Whether more than 64 levels are open.
pub fn is_deep(stack: &Stack, mode: &Mode, finalize: bool) -> bool
    ensures { IsTrue result ↔ limit.IsDeep (spec.state stack.now mode.now) finalize }
{
    let levels = stack.levels();
    let late = opened_by_do(mode, stack.is_at_statement(), finalize);
    levels > LEVELS || (levels == LEVELS && late)
}

/// Whether a token is an operator, where it stands in an expression.
fn is_operator(kind: &Kind) -> bool
    ensures { result ≡ count.is_operator kind.now }
{
    match kind {
        Kind::As => true,
        Kind::Question => true,
        Kind::Not => true,
        Kind::Tilde => true,
        kind => binary_of(kind).is_some(),
    }
}

/// Whether an expression that follows another one begins behind a token.
fn begins_next(kind: &Kind) -> bool
    ensures { result ≡ count.begins_next kind.now }
{
    match kind {
        Kind::Comma => true,
        Kind::Arrow => true,
        _ => false,
    }
}

/// The operators of the expression that is open behind a token, from those before it.
pub fn counted(operators: u32, kind: &Kind) -> u32
    requires { operators ≤ 256 }
    ensures { result ≡ count.counted true kind.now operators }
{
    let so_far = if begins_next(kind) { 0 } else { operators };
    if is_operator(kind) {
        so_far + 1
    } else {
        so_far
    }
}

fn is_operand(owner: Owner) -> bool
    ensures { (at : Pos) → result ≡ count.in_expression (m.Outer owner at) }
{
    match owner {
        Owner::Operand => true,
        Owner::Store => false,
        Owner::Emit => false,
        Owner::Target => false,
        Owner::Every => false,
    }
}

fn is_source(acting: &Acting) -> bool
    ensures { result ≡ count.in_expression (m.Acting acting.now) }
{
    match acting {
        Acting::Source => true,
        _ => false,
    }
}

/// Whether an expression is open, or may begin.
fn in_expression(mode: &Mode) -> bool
    ensures { result ≡ count.in_expression mode.now }
{
    match mode {
        Mode::Start => true,
        Mode::Named(_, _) => true,
        Mode::After(_) => true,
        Mode::Cast(_, _) => true,
        Mode::Typed(_) => true,
        Mode::Outer(owner, _) => is_operand(*owner),
        Mode::OuterName(owner, _) => is_operand(*owner),
        Mode::In(_) => false,
        Mode::Semicolon(_) => false,
        Mode::Declaring(_) => false,
        Mode::Coding(_) => false,
        Mode::Acting(acting) => is_source(acting),
        Mode::Opening(_) => false,
        Mode::Looping(_) => false,
    }
}

/// The operators of the expression that is open, and none where no expression is.
pub fn where_open(mode: &Mode, operators: u32) -> u32
    ensures { result ≡ (if count.in_expression mode.now then operators else 0) }
{
    if in_expression(mode) { operators } else { 0 }
}

/// Whether an expression has more than 256 operators.
pub fn is_long(operators: u32) -> bool
    ensures { IsTrue result ↔ (256 < operators) }
{
    operators > OPERATORS
}
