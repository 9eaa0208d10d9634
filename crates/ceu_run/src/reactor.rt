// What runs a program, command by command.
ghost use Rattle.std.specs.Prelude.{◌≡◌, ◌<◌, ◌+◌, ◌++◌, ◌∷◌, ℕ, [], List, OnOk, IsTrue};
ghost use Rattle.ceu_base.specs.declared.kinds.Port.{Port};
ghost use Rattle.ceu_io.specs.Counts.{HasCause};
ghost use Rattle.ceu_script.specs.Commands.{IsCommand};
ghost use Rattle.ceu_tree.specs.declared.command.Command.{Command};
ghost use Rattle.ceu_tree.specs.declared.command.Command.TheVariants.{Input, Advance, Idle};
ghost use Rattle.ceu_tree.specs.declared.kernel.Kernel.{Kernel};
ghost use Rattle.ceu_tree.specs.Run as run;
ghost use Rattle.ceu_tree.specs.Run.{Config, Waits, status_of, world_of};
ghost use Rattle.ceu_run.specs.Reactions.{Reaction, IsWaiting};

use ceu_base::{Fault, Pos};
use ceu_io::Failed;
use ceu_tree::MarkSink;

/// How a program stands after a command.
#[derive(Clone, Copy, Debug, PartialEq, Eq)]
pub enum After {
    Waiting,
    Ended(i64),
    Faulted(Fault, Pos),
}

/// Runs a program. Each call does one command: it marks what the reference semantics marks, in that order, and stands for the
/// configuration after it. It fails only where the sink of the marks did, and is then given up.
pub trait Reactor {
    /// The program is that of this kernel, and wasn't booted yet.
    ghost fresh: { Self → Kernel → Type 0 };
    /// The program is that of this kernel, and it stands for this configuration.
    ghost stands: { Self → Kernel → Config → Type 0 };
    /// The first, as it wasn't booted yet, was booted and did these commands in order: so came the second.
    ghost ran: { Self → List Command → Self → Type 0 };

    fn boot<W: MarkSink>(&mut self, out: &mut W) -> Result<After, Failed>
        requires { (K : Kernel) × fresh self.old K }
        ensures reaction { (K : Kernel) → fresh self.old K → Reaction W.notes W.stops (stands self.new K) (λ n. run.steps K n (run.booted K)) [] out.old out.new result }
        ensures ran { OnOk result (ran self.old [] self.new) }
        ensures cause { HasCause (W.faults out.old) (W.faults out.new) result };

    /// An input by its number, with a value of its type.
    fn input<W: MarkSink>(&mut self, event: u16, value: i128, out: &mut W) -> Result<After, Failed>
        requires { (inputs : List Port) × IsWaiting (stands self.old) inputs × IsCommand inputs (Input event value) }
        ensures reaction { (K : Kernel) (c : Config) → stands self.old K c → Reaction W.notes W.stops (stands self.new K) (λ n. run.input K n event value c) (world_of c).marks out.old out.new result }
        ensures ran { (start : Self) (xs : List Command) → ran start xs self.old → OnOk result (ran start (xs ++ Input event value ∷ []) self.new) }
        ensures cause { HasCause (W.faults out.old) (W.faults out.new) result };

    /// So many microseconds.
    fn advance<W: MarkSink>(&mut self, us: u64, out: &mut W) -> Result<After, Failed>
        requires waits { (inputs : List Port) × IsWaiting (stands self.old) inputs }
        requires time { us < 9223372036854775808 }
        ensures reaction { (K : Kernel) (c : Config) → stands self.old K c → Reaction W.notes W.stops (stands self.new K) (λ n. run.done K n (Advance us) c) (world_of c).marks out.old out.new result }
        ensures ran { (start : Self) (xs : List Command) → ran start xs self.old → OnOk result (ran start (xs ++ Advance us ∷ []) self.new) }
        ensures cause { HasCause (W.faults out.old) (W.faults out.new) result };

    /// One idle turn.
    fn idle<W: MarkSink>(&mut self, out: &mut W) -> Result<After, Failed>
        requires { (inputs : List Port) × IsWaiting (stands self.old) inputs }
        ensures reaction { (K : Kernel) (c : Config) → stands self.old K c → Reaction W.notes W.stops (stands self.new K) (λ n. run.idle_turn K n c) (world_of c).marks out.old out.new result }
        ensures ran { (start : Self) (xs : List Command) → ran start xs self.old → OnOk result (ran start (xs ++ Idle 1 ∷ []) self.new) }
        ensures cause { HasCause (W.faults out.old) (W.faults out.new) result };

    /// Whether idle turns change nothing from here on, so that they needn't be done: with one turn more the program stands for the same configuration, and
    /// has run as it did. `false` is right at any time.
    fn rests(&self) -> bool
        ensures turn { IsTrue result → (K : Kernel) (c : Config) (n : ℕ) → stands self.now K c → run.idle_turn K n c ≡ c }
        ensures ran { IsTrue result → (K : Kernel) (c : Config) (start : Self) (xs : List Command) → stands self.now K c → ran start xs self.now → ran start (xs ++ Idle 1 ∷ []) self.now };

    // No idle turns are nothing.
    ghost no_turns: { (start s : Self) (xs : List Command) → ran start xs s → ran start (xs ++ Idle 0 ∷ []) s };

    // Idle turns are the same in one command and in two.
    ghost more_turns: { (start s : Self) (xs ys : List Command) (m n : ℕ) → ran start (xs ++ Idle m ∷ Idle n ∷ ys) s → ran start (xs ++ Idle (m + n) ∷ ys) s };

    // A program that waits no longer does any commands, since they change nothing.
    ghost over: { (K : Kernel) (c : Config) (start s : Self) (xs ys : List Command) → stands s K c → (status_of c ≡ Waits → ⊥) → ran start xs s → ran start (xs ++ ys) s };
}
