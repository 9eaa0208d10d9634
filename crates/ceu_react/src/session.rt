// A program that runs: an image with its memory.
ghost use Rattle.std.specs.Prelude.{◌≡◌};
ghost use Rattle.ceu_react.specs.Sessions as spec;

use crate::after::{After, State};
use crate::clock::advance;
use crate::commands::{boot, idle, input};
use ceu_code::Image;
use ceu_io::Failed;
use ceu_mem::Memory;
use ceu_tree::MarkSink;
use std::alloc::Global;
use std::marker::Model;

/// Why there is no session: no memory was found. The image is handed back.
#[derive(Drop)]
pub enum NewError {
    Memory(Image),
}

fn state_after(came: &Result<After, Failed>) -> State
    ensures { result ≡ spec.state_after came.now }
{
    match came {
        Ok(After::Waiting) => State::Waiting,
        Ok(After::Ended(value)) => State::Ended(*value),
        Ok(After::Faulted(fault, pos)) => State::Faulted(*fault, *pos),
        Err(_) => State::Broken,
    }
}

/// An image that runs, command by command. Contracts see its image, the bytes of its memory, and how the program stands. Each command does
/// what the machine's definition does, and takes no memory. It fails only where the sink of the marks did; the session is then given up.
#[derive(Drop)]
pub struct Session {
    image: Image,
    memory: Memory,
    state: State,
}

impl Model for Session {
    ghost use Rattle.ceu_react.specs.Sessions.{Seen, Holds};

    ghost Value = { Seen };

    ghost view = { λ s. record { image = s.image; bytes = s.memory.bytes; state = s.state } };

    ghost invariant = { λ s. Holds s.image s.memory s.state };
}

impl Session {
    ghost use Rattle.std.specs.Prelude.{◌≡◌, ◌+◌, ◌<◌, ◌^◌, IfOk, IfErr, OnOk, OnErr, replicate};
    ghost use Rattle.ceu_io.specs.Counts.{HasCause};
    ghost use Rattle.ceu_isa.specs.Commands.{advanced, booted, idle_turn, input_done, marks_of};
    ghost use Rattle.ceu_isa.specs.Layout.{end_of};
    ghost use Rattle.ceu_isa.specs.Reactions.{Waits};
    ghost use Rattle.ceu_isa.specs.Safety.{IsCommand, IsSound};
    ghost use Rattle.ceu_machine.specs.Noting.{Noted, Stopped};
    ghost use Rattle.ceu_machine.specs.States.{plain};
    ghost use Rattle.ceu_react.specs.Coming.{Came};
    ghost use Rattle.ceu_react.specs.Sessions.{state_after};
    ghost use Rattle.ceu_react.specs.declared.after.State.TheVariants.{Fresh, Waiting};
    ghost use Rattle.ceu_tree.specs.declared.command.Command.TheVariants.{Input};

    /// Takes the memory for an image, with each byte zero.
    #[tactic(auto, using(crate::proofs::Keeping::new_holds))]
    pub fn new(alloc: Global, image: Image) -> Result<Session, NewError>
        requires { IsSound image }
        ensures ok { IfOk result (λ s. s ≡ record { image = image; bytes = replicate (end_of image) 0; state = Fresh }) }
        ensures err { IfErr result (λ e. e ≡ NewError.Memory image) }
    {
        match Memory::new(alloc, &image) {
            Ok(memory) => Ok(Session {
                image,
                memory,
                state: State::Fresh,
            }),
            Err(_) => Err(NewError::Memory(image)),
        }
    }

    /// How the program stands.
    pub fn state(&self) -> State
        ensures { result ≡ self.now.state }
    {
        self.state
    }

    /// The image that runs.
    pub fn image(&self) -> &Image
        ensures { result.now ≡ self.now.image }
    {
        &self.image
    }

    /// The bytes of the machine: a header, evaluation cells, gates and slots.
    pub fn memory(&self) -> &[u8]
        ensures { result.now ≡ self.now.bytes }
    {
        self.memory.bytes()
    }

    /// Starts the program.
    pub fn boot<W: MarkSink>(&mut self, out: &mut W) -> Result<After, Failed>
        requires { self.old.state ≡ Fresh }
        ensures outcome { IfOk result (λ after. Came (booted self.old.image (plain self.old.bytes)) after self.new.bytes) }
        ensures noted { OnOk result (Noted W.notes (marks_of (booted self.old.image (plain self.old.bytes))) out.old out.new) }
        ensures stopped { OnErr result (Stopped W.notes W.stops (marks_of (booted self.old.image (plain self.old.bytes))) out.old out.new) }
        ensures cause { HasCause (W.faults out.old) (W.faults out.new) result }
        ensures state { self.new.state ≡ state_after result }
        ensures image { self.new.image ≡ self.old.image }
    {
        let came = boot(&self.image, &mut self.memory, out);
        self.state = state_after(&came);
        came
    }

    /// An input by its number, with a value of its type (0 for an input of type `none`).
    pub fn input<W: MarkSink>(
        &mut self,
        event: u16,
        value: i128,
        out: &mut W,
    ) -> Result<After, Failed>
        requires waits { self.old.state ≡ Waiting }
        requires right { IsCommand self.old.image (Input event value) }
        ensures outcome { IfOk result (λ after. Came (input_done self.old.image event value (Waits (plain self.old.bytes))) after self.new.bytes) }
        ensures noted { OnOk result (Noted W.notes (marks_of (input_done self.old.image event value (Waits (plain self.old.bytes)))) out.old out.new) }
        ensures stopped { OnErr result (Stopped W.notes W.stops (marks_of (input_done self.old.image event value (Waits (plain self.old.bytes)))) out.old out.new) }
        ensures cause { HasCause (W.faults out.old) (W.faults out.new) result }
        ensures state { self.new.state ≡ state_after result }
        ensures image { self.new.image ≡ self.old.image }
    {
        let came = input(&self.image, &mut self.memory, event, value, out);
        self.state = state_after(&came);
        came
    }

    /// The clock goes on by so many microseconds.
    pub fn advance<W: MarkSink>(&mut self, us: u64, out: &mut W) -> Result<After, Failed>
        requires waits { self.old.state ≡ Waiting }
        requires short { us < 2 ^ 63 }
        ensures outcome { IfOk result (λ after. Came (advanced self.old.image (us + 1) us (Waits (plain self.old.bytes))) after self.new.bytes) }
        ensures noted { OnOk result (Noted W.notes (marks_of (advanced self.old.image (us + 1) us (Waits (plain self.old.bytes)))) out.old out.new) }
        ensures stopped { OnErr result (Stopped W.notes W.stops (marks_of (advanced self.old.image (us + 1) us (Waits (plain self.old.bytes)))) out.old out.new) }
        ensures cause { HasCause (W.faults out.old) (W.faults out.new) result }
        ensures state { self.new.state ≡ state_after result }
        ensures image { self.new.image ≡ self.old.image }
    {
        let came = advance(&self.image, &mut self.memory, us, out);
        self.state = state_after(&came);
        came
    }

    /// One idle turn: the first async that wasn't served in this round has a turn.
    pub fn idle<W: MarkSink>(&mut self, out: &mut W) -> Result<After, Failed>
        requires { self.old.state ≡ Waiting }
        ensures outcome { IfOk result (λ after. Came (idle_turn self.old.image (Waits (plain self.old.bytes))) after self.new.bytes) }
        ensures noted { OnOk result (Noted W.notes (marks_of (idle_turn self.old.image (Waits (plain self.old.bytes)))) out.old out.new) }
        ensures stopped { OnErr result (Stopped W.notes W.stops (marks_of (idle_turn self.old.image (Waits (plain self.old.bytes)))) out.old out.new) }
        ensures cause { HasCause (W.faults out.old) (W.faults out.new) result }
        ensures state { self.new.state ≡ state_after result }
        ensures image { self.new.image ≡ self.old.image }
    {
        let came = idle(&self.image, &mut self.memory, out);
        self.state = state_after(&came);
        came
    }
}
