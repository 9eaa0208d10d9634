// The mode `check`.
ghost use Rattle.std.specs.Prelude.{◌≤◌, length};
ghost use Rattle.ceu_top.specs.Answering.{IsPrintAnswer};

use crate::status::Status;
use crate::words::Mode;
use crate::writing::{refuse, show_memory};
use ceu_compile::{CompileError, program_of};
use ceu_io::Sink;
use std::alloc::Global;

/// Prints the memory line of a text that breaks no rule, or the line of the first that it breaks.
pub(crate) fn check_text<O: Sink>(alloc: Global, text: &[u8], out: &mut O) -> Status
    requires { length text.now ≤ 1048576 }
    ensures { IsPrintAnswer Mode.Check result text.now (O.held out.old) (O.held out.new) (O.faults out.old) (O.faults out.new) }
{
    match program_of(alloc, text) {
        Ok(program) => show_memory(&program, out),
        Err(e) => match e {
            CompileError::Refused(rule, pos) => refuse(rule, pos, out),
            CompileError::Memory => Status::Memory,
        },
    }
}
