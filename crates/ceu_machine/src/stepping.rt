// One step of a turn: an instruction, or a gate of an abort.
ghost use Rattle.std.specs.Prelude.{◌≡◌, ◌<◌, ◌+◌, ◌^◌};
ghost use Rattle.ceu_code.specs.Instructions.{size};
ghost use Rattle.ceu_isa.specs.Layout.{gate_of};
ghost use Rattle.ceu_isa.specs.Fetching.{fetched};
ghost use Rattle.ceu_isa.specs.Turns as turns;
ghost use Rattle.ceu_isa.specs.Turns.{tick};
ghost use Rattle.ceu_machine.specs.Holding.{IsMachine};
ghost use Rattle.ceu_machine.specs.States as spec;
ghost use Rattle.ceu_machine.specs.States.{IsAllowed, marked, marks_of, plain, state_of};

use crate::after::{after_finalizer, after_trail};
use crate::cells::place;
use crate::choosing::{Wanted, pick};
use crate::fetching::fetch;
use crate::gates::{gate, set_gate};
use crate::performing::{Done, perform};
use crate::state::{After, State, Sweep};
use crate::words::write_number;
use ceu_base::Mark;
use ceu_code::{Image, Instr, size_of_instruction};
use ceu_isa::Registers;
use ceu_mem::{Gate, Memory};

/// What a step did, and where the turn is then.
#[derive(Clone, Copy)]
pub struct Stepped {
    pub done: Done,
    pub next: State,
}

fn behind(instr: Instr, regs: Registers) -> Registers
    requires { regs.at + size instr < 2 ^ 16 }
    ensures { result ≡ turns.behind instr regs }
{
    Registers {
        at: regs.at + size_of_instruction(instr),
        ..regs
    }
}

fn step_trail(image: &Image, mem: &mut Memory, regs: Registers) -> Stepped
    requires made { IsMachine image.now mem.old }
    requires allowed { IsAllowed (turns.trail_does image.now (fetched image.now regs.at) regs (plain mem.old.bytes)) }
    ensures state { turns.trail_does image.now (fetched image.now regs.at) regs (plain mem.old.bytes) ≡ marked (marks_of result.done) (state_of result.next mem.new.bytes) }
    ensures made { IsMachine image.now mem.new }
{
    let instr = fetch(image, regs.at);
    let behind = behind(instr, regs);
    let mut now = behind;
    let done = perform(image, mem, &mut now, instr);
    let next = after_trail(image, mem, done, behind, now);
    Stepped { done, next }
}

fn step_finalizer(image: &Image, mem: &mut Memory, sweep: Sweep, regs: Registers) -> Stepped
    requires made { IsMachine image.now mem.old }
    requires allowed { IsAllowed (turns.finalizer_does image.now (fetched image.now regs.at) (spec.sweep_of sweep) regs (plain mem.old.bytes)) }
    ensures state { turns.finalizer_does image.now (fetched image.now regs.at) (spec.sweep_of sweep) regs (plain mem.old.bytes) ≡ marked (marks_of result.done) (state_of result.next mem.new.bytes) }
    ensures made { IsMachine image.now mem.new }
{
    let instr = fetch(image, regs.at);
    let behind = behind(instr, regs);
    let mut now = behind;
    let done = perform(image, mem, &mut now, instr);
    let next = after_finalizer(image, mem, done, sweep, behind, now);
    Stepped { done, next }
}

/// An abort has visited its gates.
fn finish_sweep(image: &Image, mem: &mut Memory, sweep: Sweep) -> State
    requires made { IsMachine image.now mem.old }
    requires allowed { IsAllowed (turns.swept image.now (spec.after_of sweep.after) sweep.trail (plain mem.old.bytes)) }
    ensures state { turns.swept image.now (spec.after_of sweep.after) sweep.trail (plain mem.old.bytes) ≡ state_of result mem.new.bytes }
    ensures made { IsMachine image.now mem.new }
{
    let _slots = image.slots;
    match sweep.after {
        After::GoesOn => State::Trail(sweep.trail),
        After::Frees(place) => {
            write_number(image, mem, 1, place, 0);
            State::Trail(sweep.trail)
        }
        After::Fails(fault, pos) => State::Faulted(fault, pos),
    }
}

/// An abort visits a gate, which becomes free; a finalizer runs.
fn visit(image: &Image, mem: &mut Memory, sweep: Sweep, g: u16) -> Stepped
    requires made { IsMachine image.now mem.old }
    requires there { g < image.now.gates }
    requires allowed { IsAllowed (turns.visited image.now g (gate_of image.now mem.old.bytes g) (spec.sweep_of sweep) (plain mem.old.bytes)) }
    ensures state { turns.visited image.now g (gate_of image.now mem.old.bytes g) (spec.sweep_of sweep) (plain mem.old.bytes) ≡ marked (marks_of result.done) (state_of result.next mem.new.bytes) }
    ensures made { IsMachine image.now mem.new }
{
    let found = gate(image, mem, g);
    set_gate(image, mem, g, Gate { kind: 0, ..found });
    if found.kind != 8 {
        return Stepped {
            done: Done::Goes,
            next: State::Sweeping(sweep),
        };
    }
    let pos = place(image, found.key);
    let regs = Registers {
        own: g,
        at: found.code,
        frame: found.frame,
        base: found.base,
        depth: sweep.trail.depth,
    };
    Stepped {
        done: Done::Marks(Mark::Ran(pos)),
        next: State::Finalizer(sweep, regs),
    }
}

fn step_sweep(image: &Image, mem: &mut Memory, sweep: Sweep) -> Stepped
    requires made { IsMachine image.now mem.old }
    requires allowed { IsAllowed (turns.swept_on image.now (turns.next_of image.now (spec.sweep_of sweep) (plain mem.old.bytes)) (spec.sweep_of sweep) (plain mem.old.bytes)) }
    ensures state { turns.swept_on image.now (turns.next_of image.now (spec.sweep_of sweep) (plain mem.old.bytes)) (spec.sweep_of sweep) (plain mem.old.bytes) ≡ marked (marks_of result.done) (state_of result.next mem.new.bytes) }
    ensures made { IsMachine image.now mem.new }
{
    match pick(image, mem, Wanted::Taken, true, sweep.from, sweep.count) {
        Some(g) => visit(image, mem, sweep, g),
        None => Stepped {
            done: Done::Goes,
            next: finish_sweep(image, mem, sweep),
        },
    }
}

/// One step of a turn.
#[tactic(auto, unfolding(ceu_isa::specs::Turns::tick))]
pub fn step(image: &Image, mem: &mut Memory, state: State) -> Stepped
    requires made { IsMachine image.now mem.old }
    requires allowed { IsAllowed (tick image.now (state_of state mem.old.bytes)) }
    ensures state { tick image.now (state_of state mem.old.bytes) ≡ marked (marks_of result.done) (state_of result.next mem.new.bytes) }
    ensures made { IsMachine image.now mem.new }
{
    match state {
        State::Trail(regs) => step_trail(image, mem, regs),
        State::Sweeping(sweep) => step_sweep(image, mem, sweep),
        State::Finalizer(sweep, regs) => step_finalizer(image, mem, sweep, regs),
        State::Paused | State::Ended | State::Faulted(_, _) => Stepped {
            done: Done::Goes,
            next: state,
        },
    }
}
