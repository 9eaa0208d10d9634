// Tokens of the heads of statements with blocks.
#![tactic(none)]

ghost use Rattle.std.specs.Prelude.{◌≡◌, List};
ghost use Rattle.ceu_syntax.specs.declared.machine.Frame.{Frame};
ghost use Rattle.ceu_grammar.specs.Moves.{Moves};
ghost use Rattle.ceu_syntax.specs.Steps as spec;

use crate::actions::{in_statement, of_target};
use crate::blocks::{in_block, opened};
use crate::stack::Stack;
use crate::steps::{appended, exhaust, pushed, refuse};
use crate::stop::Stop;
use crate::tables::saturated;
use crate::trees::ident;
use ceu_base::{Name, Pos, Seq};
use ceu_syntax::{Acting, Body, Declaring, Frame, Kind, Listed, Looping, Mode, Opening, Owner};
use ceu_tree::{Label, ParKind, Target};
use std::alloc::Global;

/// Takes the token behind a `do`.
fn of_do(alloc: Global, stack: &mut Stack, kind: Kind, pos: Pos) -> Result<Mode, Stop>
    ensures { Moves result stack.new (spec.of_do kind pos stack.old) }
{
    match kind {
        Kind::Slash => Ok(Mode::Opening(Opening::DoLabel)),
        Kind::Finalize => in_statement(stack, Mode::Opening(Opening::Finalize)),
        kind => match stack.push(Frame::Body(Body::Do(Label::Plain))) {
            Ok(()) => in_block(alloc, stack, kind, pos, Seq::new(alloc)),
            Err(_) => exhaust(kind),
        },
    }
}

/// Takes the token behind an `every`.
fn of_every(stack: &mut Stack, kind: Kind, pos: Pos) -> Result<Mode, Stop>
    ensures { Moves result stack.new (spec.of_every kind pos stack.old) }
{
    match kind {
        Kind::Lower(name) => Ok(Mode::Looping(Looping::EveryIn(ident(name, pos)))),
        Kind::Outer => Ok(Mode::Outer(Owner::Every, pos)),
        kind => match stack.push(Frame::Every(None)) {
            Ok(()) => of_target(stack, kind, pos),
            Err(_) => exhaust(kind),
        },
    }
}

fn shared(alloc: Global, name: Name, pos: Pos) -> Result<Mode, Stop>
    ensures { (K : List Frame) → Moves result K (spec.shared name pos K) }
{
    match appended(Seq::new(alloc), ident(name, pos)) {
        Ok(names) => Ok(Mode::Declaring(Declaring::NameEnd(Listed::Shared, names))),
        Err(_) => Err(Stop::Memory),
    }
}

/// Takes a token of the head of a loop.
pub fn looping(
    alloc: Global,
    stack: &mut Stack,
    mode: Looping,
    kind: Kind,
    pos: Pos,
) -> Result<Mode, Stop>
    ensures { Moves result stack.new (spec.looping mode kind pos stack.old) }
{
    match mode {
        Looping::Loop => match kind {
            Kind::Slash => Ok(Mode::Looping(Looping::Count)),
            Kind::Do => opened(alloc, stack, Body::Loop(None)),
            Kind::Lower(name) => Ok(Mode::Looping(Looping::RangeIn(ident(name, pos)))),
            kind => refuse(kind),
        },
        Looping::Count => match kind {
            Kind::Number(n) => Ok(Mode::Looping(Looping::CountDo(saturated(n)))),
            kind => refuse(kind),
        },
        Looping::CountDo(n) => match kind {
            Kind::Do => opened(alloc, stack, Body::Loop(Some(n))),
            kind => refuse(kind),
        },
        Looping::RangeIn(x) => match kind {
            Kind::In => Ok(Mode::Looping(Looping::RangeOpen(x))),
            kind => refuse((kind, x)),
        },
        Looping::RangeOpen(x) => match kind {
            Kind::OpenBracket => pushed(stack, Frame::RangeFrom(x, false), Mode::Start),
            Kind::CloseBracket => pushed(stack, Frame::RangeFrom(x, true), Mode::Start),
            kind => refuse((kind, x)),
        },
        Looping::RangeDo(x, open_a, a, b, open_b) => match kind {
            Kind::Do => { opened(alloc, stack, Body::Range(x, open_a, a, b, open_b)) }
            kind => refuse((kind, x, a, b)),
        },
        Looping::Every => of_every(stack, kind, pos),
        Looping::EveryIn(x) => match kind {
            Kind::In => pushed(stack, Frame::Every(Some(x)), Mode::Acting(Acting::Target)),
            Kind::Do => opened(alloc, stack, Body::Every(None, Target::Event(x))),
            kind => refuse((kind, x)),
        },
        Looping::EveryDo(x, target) => match kind {
            Kind::Do => opened(alloc, stack, Body::Every(x, target)),
            kind => refuse((kind, x, target)),
        },
    }
}

/// Takes a token of the head of a statement with blocks.
pub fn opening(
    alloc: Global,
    stack: &mut Stack,
    mode: Opening,
    kind: Kind,
    pos: Pos,
) -> Result<Mode, Stop>
    ensures { Moves result stack.new (spec.opening mode kind pos stack.old) }
{
    match mode {
        Opening::Do => of_do(alloc, stack, kind, pos),
        Opening::DoLabel => match kind {
            Kind::Under => opened(alloc, stack, Body::Do(Label::Under)),
            Kind::Lower(name) => opened(alloc, stack, Body::Do(Label::Named(ident(name, pos)))),
            kind => refuse(kind),
        },
        Opening::Finalize => match kind {
            Kind::With => opened(alloc, stack, Body::Finalize),
            kind => refuse(kind),
        },
        Opening::Else(arms) => match kind {
            Kind::Slash => Ok(Mode::Opening(Opening::ElseIf(arms))),
            kind => match stack.push(Frame::Body(Body::Else(arms))) {
                Ok(()) => in_block(alloc, stack, kind, pos, Seq::new(alloc)),
                Err(_) => exhaust(kind),
            },
        },
        Opening::ElseIf(arms) => match kind {
            Kind::If => pushed(stack, Frame::Condition(arms), Mode::Start),
            kind => refuse((kind, arms)),
        },
        Opening::WatchingDo(target) => match kind {
            Kind::Do => opened(alloc, stack, Body::Watching(target)),
            kind => refuse((kind, target)),
        },
        Opening::Par => match kind {
            Kind::Slash => Ok(Mode::Opening(Opening::ParWord)),
            Kind::Do => opened(alloc, stack, Body::FirstBranch(ParKind::Never)),
            kind => refuse(kind),
        },
        Opening::ParWord => match kind {
            Kind::Or => Ok(Mode::Opening(Opening::ParDo(ParKind::Or))),
            Kind::And => Ok(Mode::Opening(Opening::ParDo(ParKind::And))),
            kind => refuse(kind),
        },
        Opening::ParDo(par) => match kind {
            Kind::Do => opened(alloc, stack, Body::FirstBranch(par)),
            kind => refuse(kind),
        },
        Opening::Async => match kind {
            Kind::OpenParen => Ok(Mode::Opening(Opening::AsyncOpen)),
            Kind::Do => opened(alloc, stack, Body::Async(Seq::new(alloc))),
            kind => refuse(kind),
        },
        Opening::AsyncOpen => match kind {
            Kind::CloseParen => Ok(Mode::Opening(Opening::AsyncDo(Seq::new(alloc)))),
            Kind::Lower(name) => shared(alloc, name, pos),
            kind => refuse(kind),
        },
        Opening::AsyncDo(names) => match kind {
            Kind::Do => opened(alloc, stack, Body::Async(names)),
            kind => refuse((kind, names)),
        },
    }
}
