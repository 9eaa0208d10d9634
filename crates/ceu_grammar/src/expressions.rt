// Tokens of an expression.
#![tactic(none)]

ghost use Rattle.std.specs.Prelude.{◌≡◌, [], ◌∷◌, ◌++◌, List, Some};
ghost use Rattle.ceu_syntax.specs.Terminals as table;
ghost use Rattle.ceu_syntax.specs.Trees as tree;
ghost use Rattle.ceu_syntax.specs.declared.machine.Mode.TheVariants as m;
ghost use Rattle.ceu_syntax.specs.declared.machine.Frame.TheVariants as framed;
ghost use Rattle.ceu_syntax.specs.declared.machine.Frame.{Frame};
ghost use Rattle.ceu_grammar.specs.Moves.{Folds, Moves, Reduces};
ghost use Rattle.ceu_syntax.specs.Steps.{reduce};
ghost use Rattle.ceu_syntax.specs.Steps as spec;

use crate::blocks::opened;
use crate::ends::{act_comma, act_semicolon, called, closed, source_comma, source_semicolon};
use crate::stack::Stack;
use crate::steps::{appended, exhaust, give_up, memory, pushed, refuse};
use crate::stop::Stop;
use crate::tables::{binary_of, level, prefix_of};
use crate::trees::{alive, ident, number, truth, variable};
use ceu_base::{Name, Op1, Op2, Pos, Seq, Ty};
use ceu_syntax::{Act, Acting, Body, Frame, Kind, Looping, Mode, Owner};
use ceu_tree::{Await, Exp, ExpNode, Ident, Source, Stmt};
use sqlite_items::Boxed;
use std::alloc::Global;

/// What ends with an expression: an open operator, or nothing.
#[derive(Drop)]
enum Reduction {
    Done(Exp),
    Kept(Frame, Exp),
}

fn binary_folded(
    alloc: Global,
    least: u32,
    op: Op2,
    pos: Pos,
    a: Exp,
    e: Exp,
) -> Result<Reduction, Stop>
    ensures { Folds result least e (framed.Binary op pos a) }
{
    if level(op) < least {
        return Ok(Reduction::Kept(Frame::Binary(op, pos, a), e));
    }
    match Boxed::new(alloc, a) {
        Ok(a) => match Boxed::new(alloc, e) {
            Ok(b) => Ok(Reduction::Done(Exp {
                pos,
                node: ExpNode::Two(op, a, b),
            })),
            Err(_) => Err(memory(a)),
        },
        Err(_) => Err(memory(e)),
    }
}

fn prefix_folded(alloc: Global, least: u32, op: Op1, pos: Pos, e: Exp) -> Result<Reduction, Stop>
    ensures { Folds result least e (framed.Prefix op pos) }
{
    match Boxed::new(alloc, e) {
        Ok(a) => Ok(Reduction::Done(Exp {
            pos,
            node: ExpNode::One(op, a),
        })),
        Err(_) => Err(Stop::Memory),
    }
}

fn folded(alloc: Global, least: u32, frame: Frame, e: Exp) -> Result<Reduction, Stop>
    ensures { Folds result least e frame }
{
    match frame {
        Frame::Binary(op, pos, a) => binary_folded(alloc, least, op, pos, a, e),
        Frame::Prefix(op, pos) => prefix_folded(alloc, least, op, pos, e),
        frame => Ok(Reduction::Kept(frame, e)),
    }
}

fn kept(stack: &mut Stack, frame: Frame, e: Exp) -> Result<Exp, Stop>
    ensures { Reduces result stack.new (spec.held e (frame ∷ stack.old)) }
{
    match stack.push(frame) {
        Ok(()) => Ok(e),
        Err(_) => Err(memory(e)),
    }
}

/// Ends the open operators of this level and above.
fn reduced(alloc: Global, stack: &mut Stack, least: u32, e: Exp) -> Result<Exp, Stop>
    ensures { Reduces result stack.new (reduce least e stack.old) }
{
    match stack.pop() {
        Some(frame) => match folded(alloc, least, frame, e) {
            Ok(Reduction::Done(e)) => reduced(alloc, stack, least, e),
            Ok(Reduction::Kept(frame, e)) => kept(stack, frame, e),
            Err(stop) => Err(stop),
        },
        None => Ok(e),
    }
}

fn operand(stack: &mut Stack, kind: Kind, pos: Pos) -> Result<Mode, Stop>
    ensures { Moves result stack.new (spec.operand kind pos stack.old) }
{
    match kind {
        Kind::Number(n) => Ok(Mode::After(number(n, pos))),
        Kind::Lower(name) => Ok(Mode::Named(name, pos)),
        Kind::Truth(b) => Ok(Mode::After(truth(b, pos))),
        Kind::Outer => Ok(Mode::Outer(Owner::Operand, pos)),
        Kind::OpenParen => pushed(stack, Frame::Paren(pos), Mode::Start),
        kind => refuse(kind),
    }
}

/// Takes a token where an operand is to come.
pub fn starts(stack: &mut Stack, kind: Kind, pos: Pos) -> Result<Mode, Stop>
    ensures { Moves result stack.new (spec.starts kind pos stack.old) }
{
    match prefix_of(&kind) {
        Some(op) => {
            give_up(kind);
            pushed(stack, Frame::Prefix(op, pos), Mode::Start)
        }
        None => operand(stack, kind, pos),
    }
}

fn argued(stack: &mut Stack, code: Ident, args: Seq<Exp>, e: Exp) -> Result<Mode, Stop>
    ensures { Moves result stack.new (spec.called code (args ++ e ∷ []) stack.old) }
{
    match appended(args, e) {
        Ok(args) => called(stack, code, args),
        Err(_) => exhaust(code),
    }
}

fn paren_under(stack: &mut Stack, frame: Frame, e: Exp) -> Result<Mode, Stop>
    ensures { Moves result stack.new (spec.ends_paren e (frame ∷ stack.old)) }
{
    match frame {
        Frame::Paren(_) => Ok(Mode::After(e)),
        Frame::Arguments(code, args) => argued(stack, code, args, e),
        Frame::Emit(x) => Ok(Mode::Semicolon(Stmt::Emit(x, Some(e)))),
        Frame::Time => Ok(Mode::Acting(Acting::Unit(e))),
        frame => refuse((frame, e)),
    }
}

/// Takes a `)`.
fn ends_paren(stack: &mut Stack, e: Exp) -> Result<Mode, Stop>
    ensures { Moves result stack.new (spec.ends_paren e stack.old) }
{
    match stack.pop() {
        Some(frame) => paren_under(stack, frame, e),
        None => refuse(e),
    }
}

fn semicolon_under(stack: &mut Stack, frame: Frame, e: Exp) -> Result<Mode, Stop>
    ensures { Moves result stack.new (spec.ends_semicolon e (frame ∷ stack.old)) }
{
    match frame {
        Frame::Until(target) => act_semicolon(stack, Act::Wait(Await::On(target, Some(e)))),
        Frame::Escape(label) => closed(stack, Stmt::Escape(label, Some(e))),
        frame => source_semicolon(stack, frame, Source::Value(e)),
    }
}

/// Takes a `;`.
fn ends_semicolon(stack: &mut Stack, e: Exp) -> Result<Mode, Stop>
    ensures { Moves result stack.new (spec.ends_semicolon e stack.old) }
{
    match stack.pop() {
        Some(frame) => semicolon_under(stack, frame, e),
        None => refuse(e),
    }
}

fn argument_on(stack: &mut Stack, code: Ident, args: Seq<Exp>, e: Exp) -> Result<Mode, Stop>
    ensures { Moves result stack.new (spec.ends_comma e (framed.Arguments code args ∷ stack.old)) }
{
    match appended(args, e) {
        Ok(args) => pushed(stack, Frame::Arguments(code, args), Mode::Start),
        Err(_) => exhaust(code),
    }
}

fn comma_under(stack: &mut Stack, frame: Frame, e: Exp) -> Result<Mode, Stop>
    ensures { Moves result stack.new (spec.ends_comma e (frame ∷ stack.old)) }
{
    match frame {
        Frame::Arguments(code, args) => argument_on(stack, code, args, e),
        Frame::Until(target) => act_comma(stack, Source::Wait(Await::On(target, Some(e)))),
        frame => source_comma(frame, Source::Value(e)),
    }
}

/// Takes a `,`.
fn ends_comma(stack: &mut Stack, e: Exp) -> Result<Mode, Stop>
    ensures { Moves result stack.new (spec.ends_comma e stack.old) }
{
    match stack.pop() {
        Some(frame) => comma_under(stack, frame, e),
        None => refuse(e),
    }
}

fn condition_under(alloc: Global, stack: &mut Stack, frame: Frame, e: Exp) -> Result<Mode, Stop>
    ensures { Moves result stack.new (spec.ends_condition e (frame ∷ stack.old)) }
{
    match frame {
        Frame::Condition(arms) => opened(alloc, stack, Body::Arm(arms, e)),
        frame => refuse((frame, e)),
    }
}

/// Takes a `then`.
fn ends_condition(alloc: Global, stack: &mut Stack, e: Exp) -> Result<Mode, Stop>
    ensures { Moves result stack.new (spec.ends_condition e stack.old) }
{
    match stack.pop() {
        Some(frame) => condition_under(alloc, stack, frame, e),
        None => refuse(e),
    }
}

fn arrow_under(stack: &mut Stack, frame: Frame, e: Exp) -> Result<Mode, Stop>
    ensures { Moves result stack.new (spec.ends_arrow e (frame ∷ stack.old)) }
{
    match frame {
        Frame::RangeFrom(x, open_a) => pushed(stack, Frame::RangeTo(x, open_a, e), Mode::Start),
        frame => refuse((frame, e)),
    }
}

/// Takes a `->`.
fn ends_arrow(stack: &mut Stack, e: Exp) -> Result<Mode, Stop>
    ensures { Moves result stack.new (spec.ends_arrow e stack.old) }
{
    match stack.pop() {
        Some(frame) => arrow_under(stack, frame, e),
        None => refuse(e),
    }
}

fn bracket_under(frame: Frame, open_b: bool, e: Exp) -> Result<Mode, Stop>
    ensures { (K : List Frame) → Moves result K (spec.ends_bracket open_b e (frame ∷ K)) }
{
    match frame {
        Frame::RangeTo(x, open_a, a) => Ok(Mode::Looping(Looping::RangeDo(
            x, open_a, a, e, open_b,
        ))),
        frame => refuse((frame, e)),
    }
}

/// Takes a bracket.
fn ends_bracket(stack: &mut Stack, open_b: bool, e: Exp) -> Result<Mode, Stop>
    ensures { Moves result stack.new (spec.ends_bracket open_b e stack.old) }
{
    match stack.pop() {
        Some(frame) => bracket_under(frame, open_b, e),
        None => refuse(e),
    }
}

/// Takes a token that ends an expression.
pub fn ends(alloc: Global, stack: &mut Stack, kind: Kind, pos: Pos, e: Exp) -> Result<Mode, Stop>
    ensures { Moves result stack.new (spec.ends kind pos (spec.held e stack.old)) }
{
    match kind {
        Kind::As => Ok(Mode::Cast(pos, e)),
        Kind::Then => ends_condition(alloc, stack, e),
        Kind::CloseParen => ends_paren(stack, e),
        Kind::Semicolon => ends_semicolon(stack, e),
        Kind::Comma => ends_comma(stack, e),
        Kind::Arrow => ends_arrow(stack, e),
        Kind::CloseBracket => ends_bracket(stack, false, e),
        Kind::OpenBracket => ends_bracket(stack, true, e),
        kind => refuse((kind, e)),
    }
}

fn operated(alloc: Global, stack: &mut Stack, op: Op2, pos: Pos, e: Exp) -> Result<Mode, Stop>
    ensures { Moves result stack.new (Some (spec.pushed op pos (reduce (table.level op) e stack.old))) }
{
    match reduced(alloc, stack, level(op), e) {
        Ok(a) => pushed(stack, Frame::Binary(op, pos, a), Mode::Start),
        Err(stop) => Err(stop),
    }
}

fn done(alloc: Global, stack: &mut Stack, kind: Kind, pos: Pos, e: Exp) -> Result<Mode, Stop>
    ensures { Moves result stack.new (spec.ends kind pos (reduce 0 e stack.old)) }
{
    match reduced(alloc, stack, 0, e) {
        Ok(e) => ends(alloc, stack, kind, pos, e),
        Err(stop) => {
            give_up(kind);
            Err(stop)
        }
    }
}

/// Takes the token behind an operand.
pub fn follows(alloc: Global, stack: &mut Stack, kind: Kind, pos: Pos, e: Exp) -> Result<Mode, Stop>
    ensures { Moves result stack.new (spec.follows kind pos e stack.old) }
{
    match binary_of(&kind) {
        Some(op) => {
            give_up(kind);
            operated(alloc, stack, op, pos, e)
        }
        None => done(alloc, stack, kind, pos, e),
    }
}

/// Takes the token behind a name.
pub fn named(
    alloc: Global,
    stack: &mut Stack,
    kind: Kind,
    pos: Pos,
    name: Name,
    before: Pos,
) -> Result<Mode, Stop>
    ensures { Moves result stack.new (spec.of_named kind pos name before stack.old) }
{
    match kind {
        Kind::Question => Ok(Mode::After(alive(ident(name, before), pos))),
        kind => follows(alloc, stack, kind, pos, variable(ident(name, before))),
    }
}

fn typed(alloc: Global, pos: Pos, e: Exp, ty: Ty) -> Result<Mode, Stop>
    ensures { (K : List Frame) → Moves result K (Some (spec.state K (m.Typed (tree.cast pos e ty)))) }
{
    match Boxed::new(alloc, e) {
        Ok(e) => Ok(Mode::Typed(Exp {
            pos,
            node: ExpNode::As(e, ty),
        })),
        Err(_) => Err(Stop::Memory),
    }
}

/// Takes the type behind an `as`.
pub fn casts(alloc: Global, kind: Kind, pos: Pos, e: Exp) -> Result<Mode, Stop>
    ensures { (K : List Frame) → Moves result K (spec.of_cast kind pos e K) }
{
    match kind {
        Kind::Type(ty) => typed(alloc, pos, e, ty),
        kind => refuse((kind, e)),
    }
}
