// A compiled program that runs.
ghost use Rattle.std.specs.Prelude.{◌≡◌};
ghost use Rattle.ceu_run.specs.Standing as spec;

use crate::{After, Reactor};
use ceu_code::Image;
use ceu_io::Failed;
use ceu_react::{NewError, Session};
use ceu_tree::MarkSink;
use std::alloc::Global;

// A session's answer.
fn answered(came: Result<ceu_react::After, Failed>) -> Result<After, Failed>
    ensures { result ≡ spec.answered came }
{
    match came {
        Ok(ceu_react::After::Waiting) => Ok(After::Waiting),
        Ok(ceu_react::After::Ended(value)) => Ok(After::Ended(value)),
        Ok(ceu_react::After::Faulted(fault, pos)) => Ok(After::Faulted(fault, pos)),
        Err(e) => Err(e),
    }
}

/// Runs the image of a compiled program of one trail: each command does on the machine what the reference semantics says. It takes no memory.
#[derive(Drop)]
pub struct Compiled {
    session: Session,
}

impl Compiled {
    ghost use Rattle.std.specs.Prelude.{◌≡◌, IfOk, IfErr};
    ghost use Rattle.ceu_isa.specs.Safety.{IsSound};
    ghost use Rattle.ceu_tree.specs.declared.kernel.Kernel.{Kernel};
    ghost use Rattle.ceu_run.specs.Standing.{IsCompiled, IsFresh};

    /// Takes the memory for an image, with each byte zero. Where the image is a kernel's, it stands for a program of that kernel that wasn't booted.
    pub fn new(alloc: Global, image: Image) -> Result<Compiled, NewError>
        requires { IsSound image }
        ensures fresh { IfOk result (λ s. (K : Kernel) → IsCompiled image K → IsFresh s.session K) }
        ensures image { IfOk result (λ s. s.session.image ≡ image) }
        ensures err { IfErr result (λ e. e ≡ NewError.Memory image) }
    {
        match Session::new(alloc, image) {
            Ok(session) => Ok(Compiled { session }),
            Err(e) => Err(e),
        }
    }

    /// The session that runs it.
    pub fn into_session(self) -> Session
        ensures { result ≡ self.session }
    {
        self.session
    }
}

impl Reactor for Compiled {
    ghost use Rattle.ceu_run.specs.Ran.{RanTo};
    ghost use Rattle.ceu_run.specs.RanLaws.{none_ran, turns_ran, over_ran};
    ghost use Rattle.ceu_run.specs.Standing.{IsFresh, Stands};

    ghost fresh = { λ s K. IsFresh s.session K };

    ghost stands = { λ s K c. Stands s.session K c };

    ghost ran = { λ start xs s. RanTo start.session s.session xs };

    ghost no_turns = { λ start s. none_ran start.session s.session };

    ghost more_turns = { λ start s. turns_ran start.session s.session };

    ghost over = { λ K c start s. over_ran K c start.session s.session };

    fn boot<W: MarkSink>(&mut self, out: &mut W) -> Result<After, Failed> {
        let came = self.session.boot(out);
        answered(came)
    }

    fn input<W: MarkSink>(
        &mut self,
        event: u16,
        value: i128,
        out: &mut W,
    ) -> Result<After, Failed> {
        let came = self.session.input(event, value, out);
        answered(came)
    }

    fn advance<W: MarkSink>(&mut self, us: u64, out: &mut W) -> Result<After, Failed> {
        let came = self.session.advance(us, out);
        answered(came)
    }

    fn idle<W: MarkSink>(&mut self, out: &mut W) -> Result<After, Failed> {
        let came = self.session.idle(out);
        answered(came)
    }

    // A program of one trail has no async that an idle turn could serve.
    fn rests(&self) -> bool {
        true
    }
}
