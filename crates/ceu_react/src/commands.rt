// Boot, an input, and an idle turn.
ghost use Rattle.std.specs.Prelude.{◌≡◌, ◌<◌, ◌≤◌, IfOk, IfSome, OnOk, OnErr};
ghost use Rattle.ceu_code.specs.Instructions.{cell};
ghost use Rattle.ceu_io.specs.Counts.{HasCause};
ghost use Rattle.ceu_isa.specs.Commands as commands;
ghost use Rattle.ceu_isa.specs.Commands.{booted, input_done, idle_turn, marks_of, program_start};
ghost use Rattle.ceu_isa.specs.Layout.{gate_changed, slots_at};
ghost use Rattle.ceu_isa.specs.Order.{Chosen};
ghost use Rattle.ceu_isa.specs.Reactions.{Waits};
ghost use Rattle.ceu_machine.specs.Holding.{IsMachine};
ghost use Rattle.ceu_machine.specs.Noting.{Noted, Stopped};
ghost use Rattle.ceu_machine.specs.Ordering.{IsDecided, choice_of};
ghost use Rattle.ceu_machine.specs.States.{plain};
ghost use Rattle.ceu_react.specs.Coming.{Came};
ghost use Rattle.ceu_react.specs.Marking.{IsKept};

use crate::after::After;
use crate::changes::{Change, change_gates};
use crate::reacting::react;
use crate::rounds::value_of_end;
use ceu_code::Image;
use ceu_io::Failed;
use ceu_machine::{Turned, Wanted, gate, pick, set_gate, turn};
use ceu_mem::{Gate, Memory};
use ceu_tree::MarkSink;

// Where the program's frame begins.
fn first_slot(image: &Image) -> u16
    requires { slots_at image.now ≤ 65535 }
    ensures { result ≡ slots_at image.now }
{
    let depth = image.depth;
    let gates = image.gates;
    (16 + 8 * u32::from(depth) + 19 * u32::from(gates)) as u16
}

/// The first gate can run at the program's start.
fn start(image: &Image, mem: &mut Memory)
    requires made { IsMachine image.now mem.old }
    requires there { 0 < image.now.gates }
    ensures bytes { mem.new.bytes ≡ gate_changed image.now (program_start image.now) 0 mem.old.bytes }
    ensures made { IsMachine image.now mem.new }
{
    let frame = first_slot(image);
    let found = gate(image, mem, 0);
    set_gate(
        image,
        mem,
        0,
        Gate {
            kind: 1,
            level: 0,
            code: 0,
            frame,
            base: 0,
            ..found
        },
    );
}

/// The program begins.
pub(crate) fn boot<W: MarkSink>(
    image: &Image,
    mem: &mut Memory,
    out: &mut W,
) -> Result<After, Failed>
    requires made { IsMachine image.now mem.old }
    requires allowed { IsKept (booted image.now (plain mem.old.bytes)) }
    ensures outcome { IfOk result (λ after. Came (booted image.now (plain mem.old.bytes)) after mem.new.bytes) }
    ensures noted { OnOk result (Noted W.notes (marks_of (booted image.now (plain mem.old.bytes))) out.old out.new) }
    ensures stopped { OnErr result (Stopped W.notes W.stops (marks_of (booted image.now (plain mem.old.bytes))) out.old out.new) }
    ensures cause { HasCause (W.faults out.old) (W.faults out.new) result }
    ensures made { OnOk result (IsMachine image.now mem.new) }
{
    start(image, mem);
    let after = react(image, mem, out)?;
    Ok(after)
}

// A value modulo 2^64, as a gate holds it.
fn cell_of(value: i128) -> u64
    ensures { result ≡ cell value }
{
    value.rem_euclid(0x1_0000_0000_0000_0000) as u64
}

/// An input with a value.
pub(crate) fn input<W: MarkSink>(
    image: &Image,
    mem: &mut Memory,
    event: u16,
    value: i128,
    out: &mut W,
) -> Result<After, Failed>
    requires made { IsMachine image.now mem.old }
    requires allowed { IsKept (input_done image.now event value (Waits (plain mem.old.bytes))) }
    ensures outcome { IfOk result (λ after. Came (input_done image.now event value (Waits (plain mem.old.bytes))) after mem.new.bytes) }
    ensures noted { OnOk result (Noted W.notes (marks_of (input_done image.now event value (Waits (plain mem.old.bytes)))) out.old out.new) }
    ensures stopped { OnErr result (Stopped W.notes W.stops (marks_of (input_done image.now event value (Waits (plain mem.old.bytes)))) out.old out.new) }
    ensures cause { HasCause (W.faults out.old) (W.faults out.new) result }
    ensures made { OnOk result (IsMachine image.now mem.new) }
{
    change_gates(image, mem, Change::Input(event, cell_of(value)));
    let after = react(image, mem, out)?;
    Ok(after)
}

/// The first async that wasn't served in this round.
#[tactic(auto, unfolding(ceu_machine::specs::Ordering::end_of_all))]
fn first_unserved(image: &Image, mem: &Memory) -> Option<u16>
    requires made { IsMachine image.now mem.now }
    requires decided { IsDecided (commands.first_unserved image.now mem.now.bytes) }
    ensures first { commands.first_unserved image.now mem.now.bytes ≡ choice_of result }
    ensures within { IfSome result (λ g. g < image.now.gates) }
{
    pick(image, mem, Wanted::Unserved, false, 0, image.gates)
}

/// The turn of an async, and the reaction that follows it.
fn serve<W: MarkSink>(
    image: &Image,
    mem: &mut Memory,
    gate: u16,
    out: &mut W,
) -> Result<After, Failed>
    requires made { IsMachine image.now mem.old }
    requires allowed { IsKept (commands.serve image.now (Chosen gate) (plain mem.old.bytes)) }
    ensures outcome { IfOk result (λ after. Came (commands.serve image.now (Chosen gate) (plain mem.old.bytes)) after mem.new.bytes) }
    ensures noted { OnOk result (Noted W.notes (marks_of (commands.serve image.now (Chosen gate) (plain mem.old.bytes))) out.old out.new) }
    ensures stopped { OnErr result (Stopped W.notes W.stops (marks_of (commands.serve image.now (Chosen gate) (plain mem.old.bytes))) out.old out.new) }
    ensures cause { HasCause (W.faults out.old) (W.faults out.new) result }
    ensures made { OnOk result (IsMachine image.now mem.new) }
{
    let turned = turn(image, mem, gate, out)?;
    match turned {
        Turned::Paused => {
            let after = react(image, mem, out)?;
            Ok(after)
        }
        Turned::Ended => Ok(After::Ended(value_of_end(image, mem))),
        Turned::Faulted(fault, pos) => Ok(After::Faulted(fault, pos)),
    }
}

/// An idle turn in a new round.
fn idle_in_new_round<W: MarkSink>(
    image: &Image,
    mem: &mut Memory,
    out: &mut W,
) -> Result<After, Failed>
    requires made { IsMachine image.now mem.old }
    requires allowed { IsKept (commands.serve_in_new_round image.now (commands.round_begun image.now (plain mem.old.bytes))) }
    ensures outcome { IfOk result (λ after. Came (commands.serve_in_new_round image.now (commands.round_begun image.now (plain mem.old.bytes))) after mem.new.bytes) }
    ensures noted { OnOk result (Noted W.notes (marks_of (commands.serve_in_new_round image.now (commands.round_begun image.now (plain mem.old.bytes)))) out.old out.new) }
    ensures stopped { OnErr result (Stopped W.notes W.stops (marks_of (commands.serve_in_new_round image.now (commands.round_begun image.now (plain mem.old.bytes)))) out.old out.new) }
    ensures cause { HasCause (W.faults out.old) (W.faults out.new) result }
    ensures made { OnOk result (IsMachine image.now mem.new) }
{
    change_gates(image, mem, Change::Round);
    match first_unserved(image, mem) {
        Some(gate) => {
            let after = serve(image, mem, gate, out)?;
            Ok(after)
        }
        None => Ok(After::Waiting),
    }
}

/// An idle turn: the first async that wasn't served in this round; where all were, a new round begins.
pub(crate) fn idle<W: MarkSink>(
    image: &Image,
    mem: &mut Memory,
    out: &mut W,
) -> Result<After, Failed>
    requires made { IsMachine image.now mem.old }
    requires allowed { IsKept (idle_turn image.now (Waits (plain mem.old.bytes))) }
    ensures outcome { IfOk result (λ after. Came (idle_turn image.now (Waits (plain mem.old.bytes))) after mem.new.bytes) }
    ensures noted { OnOk result (Noted W.notes (marks_of (idle_turn image.now (Waits (plain mem.old.bytes)))) out.old out.new) }
    ensures stopped { OnErr result (Stopped W.notes W.stops (marks_of (idle_turn image.now (Waits (plain mem.old.bytes)))) out.old out.new) }
    ensures cause { HasCause (W.faults out.old) (W.faults out.new) result }
    ensures made { OnOk result (IsMachine image.now mem.new) }
{
    match first_unserved(image, mem) {
        Some(gate) => {
            let after = serve(image, mem, gate, out)?;
            Ok(after)
        }
        None => {
            let after = idle_in_new_round(image, mem, out)?;
            Ok(after)
        }
    }
}
