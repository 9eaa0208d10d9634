// What an instruction leads to.
ghost use Rattle.std.specs.Prelude.{◌≡◌, ◌<◌};
ghost use Rattle.ceu_isa.specs.Layout as layout;
ghost use Rattle.ceu_isa.specs.Turns as turns;
ghost use Rattle.ceu_machine.specs.Holding.{IsMachine};
ghost use Rattle.ceu_machine.specs.States as spec;
ghost use Rattle.ceu_machine.specs.States.{IsAllowed, plain, state_of};

use crate::performing::Done;
use crate::state::{After, State, Sweep};
use crate::trails::wait;
use crate::words::write_number;
use ceu_base::{Fault, Pos};
use ceu_code::Image;
use ceu_isa::Registers;
use ceu_mem::Memory;

/// The header says that the program has faulted.
fn write_faulted(image: &Image, mem: &mut Memory)
    requires { IsMachine image.now mem.old }
    ensures bytes { mem.new.bytes ≡ layout.with_state layout.faulted mem.old.bytes }
    ensures made { IsMachine image.now mem.new }
{
    let _slots = image.slots;
    write_number(image, mem, 2, 0, 4);
}

/// A fault outside finalizers: the trail waits, and all gates are to be aborted.
fn fail(image: &Image, mem: &mut Memory, behind: Registers, fault: Fault, pos: Pos) -> State
    requires made { IsMachine image.now mem.old }
    requires allowed { IsAllowed (turns.failing image.now fault pos behind (plain mem.old.bytes)) }
    ensures state { turns.failing image.now fault pos behind (plain mem.old.bytes) ≡ state_of result mem.new.bytes }
    ensures made { IsMachine image.now mem.new }
{
    write_faulted(image, mem);
    wait(image, mem, &behind, 5);
    let count = image.gates;
    let trail = Registers { depth: 0, ..behind };
    State::Sweeping(Sweep {
        from: 0,
        count,
        after: After::Fails(fault, pos),
        trail,
    })
}

/// Where a turn is after an instruction of its trail.
#[tactic(auto, unfolding(crate::specs::States::trail_after))]
pub fn after_trail(
    image: &Image,
    mem: &mut Memory,
    done: Done,
    behind: Registers,
    regs: Registers,
) -> State
    requires made { IsMachine image.now mem.old }
    requires allowed { IsAllowed (spec.trail_after image.now done behind regs mem.old.bytes) }
    ensures state { spec.trail_after image.now done behind regs mem.old.bytes ≡ state_of result mem.new.bytes }
    ensures made { IsMachine image.now mem.new }
{
    match done {
        Done::Goes | Done::Marks(_) => State::Trail(regs),
        Done::Pauses | Done::Opens(_) | Done::Spawns(_, _) => State::Paused,
        Done::Finishes => State::Ended,
        Done::Faults(fault, pos) => fail(image, mem, behind, fault, pos),
        Done::Aborts(from, count) => State::Sweeping(Sweep {
            from,
            count,
            after: After::GoesOn,
            trail: behind,
        }),
        Done::Kills(place, from, count) => {
            State::Sweeping(Sweep {
                from,
                count,
                after: After::Frees(place),
                trail: behind,
            })
        }
        Done::Leaves => State::Paused,
    }
}

/// A fault inside a finalizer ends the abort; where the program had faulted already, that fault stays.
fn fail_finalizer(image: &Image, mem: &mut Memory, after: After, fault: Fault, pos: Pos) -> State
    requires made { IsMachine image.now mem.old }
    ensures state { turns.finalizer_failed (spec.after_of after) fault pos (plain mem.old.bytes) ≡ state_of result mem.new.bytes }
    ensures made { IsMachine image.now mem.new }
{
    match after {
        After::Fails(first, place) => State::Faulted(first, place),
        After::GoesOn => {
            write_faulted(image, mem);
            State::Faulted(fault, pos)
        }
        After::Frees(_) => {
            write_faulted(image, mem);
            State::Faulted(fault, pos)
        }
    }
}

/// Where a turn is after an instruction of a finalizer.
#[tactic(auto, unfolding(crate::specs::States::finalizer_after))]
pub fn after_finalizer(
    image: &Image,
    mem: &mut Memory,
    done: Done,
    sweep: Sweep,
    behind: Registers,
    regs: Registers,
) -> State
    requires made { IsMachine image.now mem.old }
    requires allowed { IsAllowed (spec.finalizer_after done (spec.sweep_of sweep) behind regs mem.old.bytes) }
    ensures state { spec.finalizer_after done (spec.sweep_of sweep) behind regs mem.old.bytes ≡ state_of result mem.new.bytes }
    ensures made { IsMachine image.now mem.new }
{
    match done {
        Done::Goes | Done::Marks(_) => State::Finalizer(sweep, regs),
        Done::Faults(fault, pos) => fail_finalizer(image, mem, sweep.after, fault, pos),
        Done::Leaves => {
            let trail = Registers {
                depth: behind.depth,
                ..sweep.trail
            };
            State::Sweeping(Sweep { trail, ..sweep })
        }
        Done::Pauses => State::Paused,
        Done::Opens(_) => State::Paused,
        Done::Spawns(_, _) => State::Paused,
        Done::Finishes => State::Paused,
        Done::Aborts(_, _) => State::Paused,
        Done::Kills(_, _, _) => State::Paused,
    }
}
