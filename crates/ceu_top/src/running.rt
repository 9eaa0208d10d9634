// The mode `run`.
ghost use Rattle.std.specs.Prelude.{◌≡◌, ◌≤◌, length, None, false};
ghost use Rattle.ceu_bound.specs.PhaseB.{AreBounds};
ghost use Rattle.ceu_compile.specs.Programs.{IsProgram};
ghost use Rattle.ceu_forms.specs.Forms as forms;
ghost use Rattle.ceu_tree.specs.Needs.{memory};
ghost use Rattle.ceu_tree.specs.Proper.{Proper};
ghost use Rattle.ceu_top.specs.Answering as spec;
ghost use Rattle.ceu_top.specs.Answering.{IsTextAnswer};
ghost use Rattle.ceu_top.specs.Left.{IsTextLeft};

use crate::status::Status;
use crate::words::Mode;
use crate::writing::refuse;
use ceu_base::Rule;
use ceu_compile::{CompileError, Program, image_of_program, program_of};
use ceu_forms::first_unbuilt;
use ceu_io::{Sink, Source};
use ceu_react::Session;
use ceu_run::{Played, run};
use std::alloc::Global;

/// Runs a text that breaks no rule on the script, or prints the line of the first that it breaks.
pub(crate) fn run_text<I: Source, O: Sink>(
    alloc: Global,
    text: &[u8],
    input: &mut I,
    out: &mut O,
    left: &mut Option<Session>,
) -> Status
    requires within { length text.now ≤ 1048576 }
    requires left { left.old ≡ None }
    ensures answer { IsTextAnswer Mode.Run result text.now (I.left input.old) (I.left input.new) (O.held out.old) (O.held out.new) (I.faults input.old) (I.faults input.new) (O.faults out.old) (O.faults out.new) }
    ensures left { IsTextLeft Mode.Run result text.now (I.left input.old) left.new }
{
    match program_of(alloc, text) {
        Ok(program) => run_program(alloc, text, &program, input, out, left),
        Err(e) => match e {
            CompileError::Refused(rule, pos) => refuse(rule, pos, out),
            CompileError::Memory => Status::Memory,
        },
    }
}

fn run_program<I: Source, O: Sink>(
    alloc: Global,
    text: &[u8],
    program: &Program,
    input: &mut I,
    out: &mut O,
    left: &mut Option<Session>,
) -> Status
    requires program { IsProgram text.now program.now.kernel }
    requires proper { Proper program.now.kernel }
    requires sized { program.now.memory ≡ memory false program.now.kernel }
    requires bounded { AreBounds program.now.kernel program.now.bounds }
    requires left { left.old ≡ None }
    ensures answer { IsTextAnswer Mode.Run result text.now (I.left input.old) (I.left input.new) (O.held out.old) (O.held out.new) (I.faults input.old) (I.faults input.new) (O.faults out.old) (O.faults out.new) }
    ensures left { IsTextLeft Mode.Run result text.now (I.left input.old) left.new }
{
    match first_unbuilt(&program.kernel) {
        Some(pos) => refuse(Rule::B0, pos, out),
        None => run_built(alloc, text, program, input, out, left),
    }
}

// Compiles a program whose statements all have forms that run, and runs its image.
fn run_built<I: Source, O: Sink>(
    alloc: Global,
    text: &[u8],
    program: &Program,
    input: &mut I,
    out: &mut O,
    left: &mut Option<Session>,
) -> Status
    requires built { forms.first_unbuilt program.now.kernel ≡ None }
    requires program { IsProgram text.now program.now.kernel }
    requires proper { Proper program.now.kernel }
    requires sized { program.now.memory ≡ memory false program.now.kernel }
    requires bounded { AreBounds program.now.kernel program.now.bounds }
    requires left { left.old ≡ None }
    ensures answer { IsTextAnswer Mode.Run result text.now (I.left input.old) (I.left input.new) (O.held out.old) (O.held out.new) (I.faults input.old) (I.faults input.new) (O.faults out.old) (O.faults out.new) }
    ensures left { IsTextLeft Mode.Run result text.now (I.left input.old) left.new }
{
    let Ok(image) = image_of_program(alloc, program) else {
        return Status::Memory;
    };
    let kernel = &program.kernel;
    let memory = program.memory;
    let bounds = &program.bounds;
    match run(alloc, kernel, image, memory, bounds, input, out, left) {
        Ok(played) => played_status(played),
        Err(_) => Status::Memory,
    }
}

fn played_status(played: Played) -> Status
    ensures { result ≡ spec.played_status played }
{
    match played {
        Played::Done => Status::Done,
        Played::Fault => Status::Fault,
        Played::Script => Status::Script,
        Played::Read => Status::Read,
        Played::Write => Status::Write,
    }
}
