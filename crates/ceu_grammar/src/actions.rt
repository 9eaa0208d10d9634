// Tokens of simple statements and sources.
#![tactic(none)]

ghost use Rattle.std.specs.Prelude.{◌≡◌, ◌∷◌};
ghost use Rattle.ceu_grammar.specs.Moves.{Moves};
ghost use Rattle.ceu_syntax.specs.Steps as spec;

use crate::ends::{act_comma, act_semicolon, aimed, called, closed, source_of};
use crate::expressions::starts;
use crate::stack::Stack;
use crate::steps::{exhaust, give_up, pushed, refuse};
use crate::stop::Stop;
use crate::tables::unit_of;
use crate::trees::ident;
use ceu_base::{Name, Pos, Seq};
use ceu_syntax::{Act, Acting, Frame, Kind, Mode, Opening, Owner};
use ceu_tree::{Await, Exp, Ident, Source, Spawn, Stmt, Target};
use std::alloc::Global;

/// Takes the first token of a target.
pub fn of_target(stack: &mut Stack, kind: Kind, pos: Pos) -> Result<Mode, Stop>
    ensures { Moves result stack.new (spec.of_target kind pos stack.old) }
{
    match kind {
        Kind::Ext(name) => aimed(stack, Target::Ext(ident(name, pos))),
        Kind::Lower(name) => aimed(stack, Target::Event(ident(name, pos))),
        Kind::Time(n) => aimed(stack, Target::Time(n)),
        Kind::OpenParen => pushed(stack, Frame::Time, Mode::Start),
        Kind::Outer => Ok(Mode::Outer(Owner::Target, pos)),
        kind => refuse(kind),
    }
}

fn in_statement_under(stack: &mut Stack, frame: Frame, mode: Mode) -> Result<Mode, Stop>
    ensures { Moves result stack.new (spec.in_statement mode (frame ∷ stack.old)) }
{
    match frame {
        Frame::Begun(nodes, pos) => pushed(stack, Frame::Begun(nodes, pos), mode),
        frame => refuse((frame, mode)),
    }
}

/// Goes on only in a statement, and not in a source.
pub fn in_statement(stack: &mut Stack, mode: Mode) -> Result<Mode, Stop>
    ensures { Moves result stack.new (spec.in_statement mode stack.old) }
{
    match stack.pop() {
        Some(frame) => in_statement_under(stack, frame, mode),
        None => refuse(mode),
    }
}

/// Takes the token behind an `await`.
fn of_await(stack: &mut Stack, kind: Kind, pos: Pos) -> Result<Mode, Stop>
    ensures { Moves result stack.new (spec.of_await kind pos stack.old) }
{
    match kind {
        Kind::Forever => Ok(Mode::Acting(Acting::ActEnd(Act::Wait(Await::Forever)))),
        Kind::Async => in_statement(stack, Mode::Opening(Opening::Async)),
        Kind::Abs(name) => Ok(Mode::Acting(Acting::Call(ident(name, pos)))),
        kind => of_target(stack, kind, pos),
    }
}

/// Takes the first token of a source.
fn of_source(stack: &mut Stack, kind: Kind, pos: Pos) -> Result<Mode, Stop>
    ensures { Moves result stack.new (spec.of_source kind pos stack.old) }
{
    match kind {
        Kind::Await => Ok(Mode::Acting(Acting::Await)),
        Kind::Spawn => pushed(stack, Frame::Spawn(pos), Mode::Acting(Acting::Spawn)),
        Kind::Do => Ok(Mode::Opening(Opening::Do)),
        kind => starts(stack, kind, pos),
    }
}

/// Takes the token behind the parenthesis of a call.
fn of_arguments(
    alloc: Global,
    stack: &mut Stack,
    kind: Kind,
    pos: Pos,
    code: Ident,
) -> Result<Mode, Stop>
    ensures { Moves result stack.new (spec.of_arguments kind pos code stack.old) }
{
    match kind {
        Kind::CloseParen => called(stack, code, Seq::new(alloc)),
        kind => match stack.push(Frame::Arguments(code, Seq::new(alloc))) {
            Ok(()) => starts(stack, kind, pos),
            Err(_) => exhaust(kind),
        },
    }
}

/// Takes the token behind the parenthesis of an emission.
fn of_emit_value(stack: &mut Stack, kind: Kind, pos: Pos, x: Ident) -> Result<Mode, Stop>
    ensures { Moves result stack.new (spec.of_emit_value kind pos x stack.old) }
{
    match kind {
        Kind::CloseParen => Ok(Mode::Semicolon(Stmt::Emit(x, None))),
        kind => match stack.push(Frame::Emit(x)) {
            Ok(()) => starts(stack, kind, pos),
            Err(_) => exhaust(kind),
        },
    }
}

/// Takes the token behind an `escape`.
fn of_escape(stack: &mut Stack, kind: Kind, pos: Pos) -> Result<Mode, Stop>
    ensures { Moves result stack.new (spec.of_escape kind pos stack.old) }
{
    match kind {
        Kind::Slash => Ok(Mode::Acting(Acting::EscapeLabel)),
        Kind::Semicolon => closed(stack, Stmt::Escape(None, None)),
        kind => match stack.push(Frame::Escape(None)) {
            Ok(()) => starts(stack, kind, pos),
            Err(_) => exhaust(kind),
        },
    }
}

/// Takes the token behind the label of an `escape`.
fn of_escape_value(stack: &mut Stack, kind: Kind, pos: Pos, label: Ident) -> Result<Mode, Stop>
    ensures { Moves result stack.new (spec.of_escape_value kind pos label stack.old) }
{
    match kind {
        Kind::Semicolon => closed(stack, Stmt::Escape(Some(label), None)),
        kind => match stack.push(Frame::Escape(Some(label))) {
            Ok(()) => starts(stack, kind, pos),
            Err(_) => exhaust(kind),
        },
    }
}

/// Takes the unit of a time.
fn of_unit(stack: &mut Stack, name: Name, e: Exp) -> Result<Mode, Stop>
    ensures { Moves result stack.new (spec.timed (spec.unit_of name) e stack.old) }
{
    match unit_of(&name) {
        Some(unit) => {
            give_up(name);
            aimed(stack, Target::TimeExp(e, unit))
        }
        None => refuse((name, e)),
    }
}

/// Takes a token of a simple statement or a source.
pub fn acted(
    alloc: Global,
    stack: &mut Stack,
    mode: Acting,
    kind: Kind,
    pos: Pos,
) -> Result<Mode, Stop>
    ensures { Moves result stack.new (spec.acted mode kind pos stack.old) }
{
    match mode {
        Acting::Assign(x) => match kind {
            Kind::Assign => pushed(stack, Frame::Store(x), Mode::Acting(Acting::Source)),
            kind => refuse((kind, x)),
        },
        Acting::Source => of_source(stack, kind, pos),
        Acting::AwaitEnd(target) => match kind {
            Kind::Until => pushed(stack, Frame::Until(target), Mode::Start),
            Kind::Semicolon => { act_semicolon(stack, Act::Wait(Await::On(target, None))) }
            Kind::Comma => { act_comma(stack, Source::Wait(Await::On(target, None))) }
            kind => refuse((kind, target)),
        },
        Acting::ActEnd(act) => match kind {
            Kind::Semicolon => act_semicolon(stack, act),
            Kind::Comma => act_comma(stack, source_of(act)),
            kind => refuse((kind, act)),
        },
        Acting::Emit => match kind {
            Kind::Ext(name) => Ok(Mode::Acting(Acting::EmitOpen(ident(name, pos)))),
            Kind::Lower(name) => Ok(Mode::Acting(Acting::EmitOpen(ident(name, pos)))),
            Kind::Outer => Ok(Mode::Outer(Owner::Emit, pos)),
            kind => refuse(kind),
        },
        Acting::EmitOpen(x) => match kind {
            Kind::OpenParen => Ok(Mode::Acting(Acting::EmitValue(x))),
            Kind::Semicolon => closed(stack, Stmt::Emit(x, None)),
            kind => refuse((kind, x)),
        },
        Acting::EmitValue(x) => of_emit_value(stack, kind, pos, x),
        Acting::Await => of_await(stack, kind, pos),
        Acting::Call(code) => match kind {
            Kind::OpenParen => Ok(Mode::Acting(Acting::Arguments(code))),
            kind => refuse((kind, code)),
        },
        Acting::Arguments(code) => of_arguments(alloc, stack, kind, pos, code),
        Acting::Target => of_target(stack, kind, pos),
        Acting::Unit(e) => match kind {
            Kind::Lower(name) => of_unit(stack, name, e),
            kind => refuse((kind, e)),
        },
        Acting::Spawn => match kind {
            Kind::Abs(name) => Ok(Mode::Acting(Acting::Call(ident(name, pos)))),
            kind => refuse(kind),
        },
        Acting::SpawnIn(begin, call) => match kind {
            Kind::In => Ok(Mode::Acting(Acting::SpawnPool(begin, call))),
            kind => refuse((kind, call)),
        },
        Acting::SpawnPool(begin, call) => match kind {
            Kind::Lower(name) => {
                Ok(Mode::Acting(Acting::ActEnd(Act::Start(Spawn {
                    pos: begin,
                    call,
                    pool: ident(name, pos),
                }))))
            }
            kind => refuse((kind, call)),
        },
        Acting::Kill => match kind {
            Kind::Lower(name) => Ok(Mode::Semicolon(Stmt::Kill(ident(name, pos)))),
            kind => refuse(kind),
        },
        Acting::Escape => of_escape(stack, kind, pos),
        Acting::EscapeLabel => match kind {
            Kind::Lower(name) => Ok(Mode::Acting(Acting::EscapeValue(ident(name, pos)))),
            kind => refuse(kind),
        },
        Acting::EscapeValue(x) => of_escape_value(stack, kind, pos, x),
    }
}
