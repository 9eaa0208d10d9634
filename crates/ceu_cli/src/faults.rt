// The line on standard error.
ghost use Rattle.std.specs.Prelude.{◌≡◌};
ghost use Rattle.ceu_cli.specs.FaultLine as spec;

use ceu_top::Status;

/// What is written to standard error: a line that names the status, for those with which nothing is printed that names it.
pub fn fault_line(status: Status) -> &'static str
    ensures { result.now ≡ spec.fault_line status }
{
    match status {
        Status::Words => "ceu: Words",
        Status::Read => "ceu: Read",
        Status::Write => "ceu: Write",
        Status::Memory => "ceu: Memory",
        Status::Absent => "ceu: Absent",
        Status::TooLong => "ceu: TooLong",
        Status::Done | Status::Refused | Status::Script | Status::Fault => "",
    }
}
