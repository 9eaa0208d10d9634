// An advance of the clock: the timers that come first are served first, each group in a reaction of its own.
ghost use Rattle.std.specs.Prelude.{◌≡◌, ◌<◌, ◌+◌, ◌≤◌, ◌^◌, IfOk, IfSome, OnOk, OnErr};
ghost use Rattle.ceu_io.specs.Counts.{HasCause};
ghost use Rattle.ceu_isa.specs.Commands as commands;
ghost use Rattle.ceu_isa.specs.Commands.{advanced, is_timer, marks_of, sooner, timers_woken, time_passed};
ghost use Rattle.ceu_isa.specs.Layout.{each_gate};
ghost use Rattle.ceu_isa.specs.Reactions.{reacts, Waits};
ghost use Rattle.ceu_machine.specs.Holding.{IsMachine};
ghost use Rattle.ceu_machine.specs.Noting.{Noted, Stopped};
ghost use Rattle.ceu_machine.specs.States.{plain};
ghost use Rattle.ceu_timers.specs.Timers.{AtMostLeast, IsLeast};
ghost use Rattle.ceu_react.specs.Coming.{Came};
ghost use Rattle.ceu_react.specs.Marking.{IsKept};

use crate::after::After;
use crate::changes::{Change, change_gates};
use crate::reacting::react;
use ceu_code::Image;
use ceu_io::Failed;
use ceu_mem::Memory;
use ceu_timers::{least, subtract_all};
use ceu_tree::MarkSink;

/// The least remaining time of a timer.
#[tactic(auto, using(crate::proofs::Timers::least_is))]
fn least_time(image: &Image, mem: &Memory) -> Option<u64>
    requires { IsMachine image.now mem.now }
    ensures value { result ≡ commands.least_time image.now mem.now.bytes }
    ensures least { IfSome result (λ time. IsLeast mem.now image.now.gates time) }
{
    let found = least(mem, image);
    found
}

/// A time passes, at most the least.
#[tactic(auto, using(crate::proofs::Timers::passed_kept))]
fn pass(image: &Image, mem: &mut Memory, time: u64)
    requires made { IsMachine image.now mem.old }
    requires short { AtMostLeast mem.old image.now.gates time }
    ensures bytes { mem.new.bytes ≡ each_gate image.now is_timer (sooner time) image.now.gates mem.old.bytes }
    ensures made { IsMachine image.now mem.new }
{
    subtract_all(mem, image, time);
}

/// A time passes, and the timers that are due wake with the delay and react.
fn serve_timers<W: MarkSink>(
    image: &Image,
    mem: &mut Memory,
    time: u64,
    delay: u64,
    out: &mut W,
) -> Result<After, Failed>
    requires made { IsMachine image.now mem.old }
    requires short { AtMostLeast mem.old image.now.gates time }
    requires allowed { IsKept (reacts image.now (timers_woken image.now delay (time_passed image.now time (plain mem.old.bytes)))) }
    ensures outcome { IfOk result (λ after. Came (reacts image.now (timers_woken image.now delay (time_passed image.now time (plain mem.old.bytes)))) after mem.new.bytes) }
    ensures noted { OnOk result (Noted W.notes (marks_of (reacts image.now (timers_woken image.now delay (time_passed image.now time (plain mem.old.bytes))))) out.old out.new) }
    ensures stopped { OnErr result (Stopped W.notes W.stops (marks_of (reacts image.now (timers_woken image.now delay (time_passed image.now time (plain mem.old.bytes))))) out.old out.new) }
    ensures cause { HasCause (W.faults out.old) (W.faults out.new) result }
    ensures made { OnOk result (IsMachine image.now mem.new) }
{
    pass(image, mem, time);
    change_gates(image, mem, Change::Due(delay));
    let after = react(image, mem, out)?;
    Ok(after)
}

/// So many microseconds pass: at most one reaction for each of them, and one more.
pub(crate) fn advance<W: MarkSink>(
    image: &Image,
    mem: &mut Memory,
    us: u64,
    out: &mut W,
) -> Result<After, Failed>
    requires made { IsMachine image.now mem.old }
    requires short { us < 2 ^ 63 }
    requires allowed { IsKept (advanced image.now (us + 1) us (Waits (plain mem.old.bytes))) }
    ensures outcome { IfOk result (λ after. Came (advanced image.now (us + 1) us (Waits (plain mem.old.bytes))) after mem.new.bytes) }
    ensures noted { OnOk result (Noted W.notes (marks_of (advanced image.now (us + 1) us (Waits (plain mem.old.bytes)))) out.old out.new) }
    ensures stopped { OnErr result (Stopped W.notes W.stops (marks_of (advanced image.now (us + 1) us (Waits (plain mem.old.bytes)))) out.old out.new) }
    ensures cause { HasCause (W.faults out.old) (W.faults out.new) result }
    ensures made { OnOk result (IsMachine image.now mem.new) }
{
    let mut left = us;
    let mut reactions = us + 1;
    'timers: while reactions > 0 {
        reactions -= 1;
        match least_time(image, mem) {
            None => return Ok(After::Waiting),
            Some(time) => {
                if left < time {
                    pass(image, mem, left);
                    return Ok(After::Waiting);
                }
                left -= time;
                match serve_timers(image, mem, time, left, out)? {
                    After::Waiting => {}
                    after => return Ok(after),
                }
            }
        }
    }
    Ok(After::Waiting)
}
