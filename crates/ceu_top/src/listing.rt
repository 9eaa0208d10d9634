// The mode `list`.
ghost use Rattle.std.specs.Prelude.{◌≡◌, ◌≤◌, false, length};
ghost use Rattle.ceu_compile.specs.Programs.{IsProgram};
ghost use Rattle.ceu_bound.specs.PhaseB.{AreBounds};
ghost use Rattle.ceu_tree.specs.Needs.{memory};
ghost use Rattle.ceu_tree.specs.Proper.{Proper};
ghost use Rattle.ceu_top.specs.Answering.{IsPrintAnswer};

use crate::status::Status;
use crate::words::Mode;
use crate::writing::{refuse, show_listing};
use ceu_compile::{CompileError, Program, program_of};
use ceu_gates::gate_plan;
use ceu_io::Sink;
use ceu_slots::OverlapPlaces;
use std::alloc::Global;

// Plans the slots and the gates of a program, and prints its memory line and its listing.
fn list_program<O: Sink>(alloc: Global, text: &[u8], program: &Program, out: &mut O) -> Status
    requires program { IsProgram text.now program.now.kernel }
    requires proper { Proper program.now.kernel }
    requires sized { program.now.memory ≡ memory false program.now.kernel }
    requires bounded { AreBounds program.now.kernel program.now.bounds }
    ensures { IsPrintAnswer Mode.List result text.now (O.held out.old) (O.held out.new) (O.faults out.old) (O.faults out.new) }
{
    let Ok(places) = OverlapPlaces::plan(alloc, &program.kernel) else {
        return Status::Memory;
    };
    let Ok(gates) = gate_plan(alloc, &program.kernel) else {
        return Status::Memory;
    };
    show_listing(program, &places, &gates, out)
}

/// Prints the memory line and the listing of a text that breaks no rule, or the line of the first that it breaks.
pub(crate) fn list_text<O: Sink>(alloc: Global, text: &[u8], out: &mut O) -> Status
    requires { length text.now ≤ 1048576 }
    ensures { IsPrintAnswer Mode.List result text.now (O.held out.old) (O.held out.new) (O.faults out.old) (O.faults out.new) }
{
    match program_of(alloc, text) {
        Ok(program) => list_program(alloc, text, &program, out),
        Err(e) => match e {
            CompileError::Refused(rule, pos) => refuse(rule, pos, out),
            CompileError::Memory => Status::Memory,
        },
    }
}
