// A turn, from its gate until it pauses, ends or faults.
ghost use Rattle.std.specs.Prelude.{◌≡◌, ◌<◌, IfOk, OnOk, OnErr};
ghost use Rattle.ceu_io.specs.Counts.{HasCause};
ghost use Rattle.ceu_isa.specs.Turns as turns;
ghost use Rattle.ceu_machine.specs.Holding.{IsMachine};
ghost use Rattle.ceu_machine.specs.Noting.{Noted, Stopped};
ghost use Rattle.ceu_machine.specs.States.{IsAllowed, plain, state_of};
ghost use Rattle.ceu_machine.specs.Turning as spec;
ghost use Rattle.ceu_machine.specs.Turning.{IsReady, Outcome, marks_in};

use crate::gates::{gate, set_gate};
use crate::noting::note_done;
use crate::state::State;
use crate::stepping::step;
use crate::words::write_number;
use ceu_base::{Fault, Pos};
use ceu_code::Image;
use ceu_io::Failed;
use ceu_isa::Registers;
use ceu_mem::{Gate, Memory};
use ceu_tree::MarkSink;

/// How a turn came out: the trail waits or is over, the program has ended, or it has faulted.
#[derive(Clone, Copy, Debug, PartialEq, Eq)]
pub enum Turned {
    Paused,
    Ended,
    Faulted(Fault, Pos),
}

/// A gate is chosen: it becomes free, and its trail goes on with its value in the header.
fn begin(image: &Image, mem: &mut Memory, g: u16) -> State
    requires made { IsMachine image.now mem.old }
    requires allowed { IsAllowed (turns.begun image.now g (plain mem.old.bytes)) }
    ensures state { turns.begun image.now g (plain mem.old.bytes) ≡ state_of result mem.new.bytes }
    ensures made { IsMachine image.now mem.new }
{
    let _gates = image.gates;
    let found = gate(image, mem, g);
    set_gate(image, mem, g, Gate { kind: 0, ..found });
    write_number(image, mem, 8, 8, found.value);
    State::Trail(Registers {
        own: g,
        at: found.code,
        frame: found.frame,
        base: found.base,
        depth: 0,
    })
}

fn is_on(state: State) -> bool
    ensures { result ≡ spec.is_on state }
{
    match state {
        State::Trail(_) | State::Sweeping(_) | State::Finalizer(_, _) => true,
        State::Paused | State::Ended | State::Faulted(_, _) => false,
    }
}

/// The turn of a gate.
pub fn turn<W: MarkSink>(
    image: &Image,
    mem: &mut Memory,
    gate: u16,
    out: &mut W,
) -> Result<Turned, Failed>
    requires { IsReady image.now mem.old gate }
    ensures outcome { IfOk result (λ t. Outcome (turns.turned image.now gate (plain mem.old.bytes)) t mem.new.bytes) }
    ensures noted { OnOk result (Noted W.notes (marks_in (turns.turned image.now gate (plain mem.old.bytes))) out.old out.new) }
    ensures stopped { OnErr result (Stopped W.notes W.stops (marks_in (turns.turned image.now gate (plain mem.old.bytes))) out.old out.new) }
    ensures cause { HasCause (W.faults out.old) (W.faults out.new) result }
    ensures made { OnOk result (IsMachine image.now mem.new) }
{
    let mut state = begin(image, mem, gate);
    while is_on(state) {
        let stepped = step(image, mem, state);
        note_done(out, stepped.done)?;
        state = stepped.next;
    }
    Ok(outcome_of(state))
}

fn outcome_of(state: State) -> Turned
    ensures { result ≡ spec.outcome_of state }
{
    match state {
        State::Faulted(fault, pos) => Turned::Faulted(fault, pos),
        State::Ended => Turned::Ended,
        _ => Turned::Paused,
    }
}
