// The line of how a program stands in the end.
ghost use Rattle.std.specs.Prelude.{◌≡◌, ◌≤◌, ◌+◌, ◌++◌, length, decimal};
ghost use Rattle.std.specs.Fmt.{signed_decimal};
ghost use Rattle.ceu_run.specs.Printing as spec;
ghost use Rattle.ceu_run.specs.Reactions.{status_after};

use crate::After;
use arrayvec::ArrayVec;
use ceu_base::{Fault, Pos};
use ceu_script::BadKind;
use itoa::{Buffer, Integer};

// Room for the longest line.
pub(crate) type Line = ArrayVec<u8, 128>;

fn add(line: &mut Line, text: &[u8])
    requires { length line.old.items + length text.now ≤ 128 }
    ensures { line.new.items ≡ line.old.items ++ text.now }
{
    line.try_extend_from_slice(text).unwrap();
}

fn add_number<N: Integer>(line: &mut Line, n: N)
    requires { length line.old.items + 40 ≤ 128 }
    ensures text { line.new.items ≡ line.old.items ++ N.text n }
    ensures size { length line.new.items ≤ length line.old.items + 40 }
{
    let mut buffer = Buffer::new();
    add(line, buffer.format(n).as_bytes());
}

fn fault_name(fault: Fault) -> &'static [u8]
    ensures name { result.now ≡ spec.fault_name fault }
    ensures size { length result.now ≤ 10 }
{
    match fault {
        Fault::Overflow => b"Overflow",
        Fault::DivZero => b"DivZero",
        Fault::Shift => b"Shift",
        Fault::LoopLimit => b"LoopLimit",
        Fault::SpawnCount => b"SpawnCount",
    }
}

fn kind_name(kind: BadKind) -> &'static [u8]
    ensures name { result.now ≡ spec.kind_name kind }
    ensures size { length result.now ≤ 10 }
{
    match kind {
        BadKind::Long => b"long",
        BadKind::Form => b"form",
        BadKind::Unknown => b"unknown",
        BadKind::Value => b"value",
        BadKind::Time => b"time",
        BadKind::Budget => b"budget",
    }
}

fn waiting_line() -> Line
    ensures { result.items ≡ spec.waiting_line }
{
    let mut line = ArrayVec::new();
    add(&mut line, b"== waiting\n");
    line
}

fn escape_line(value: i64) -> Line
    ensures { result.items ≡ spec.escape_line value }
{
    let mut line = ArrayVec::new();
    add(&mut line, b"== escape ");
    add_number(&mut line, value);
    add(&mut line, b"\n");
    line
}

fn fault_line(fault: Fault, place: Pos) -> Line
    ensures { result.items ≡ spec.fault_line fault place }
{
    let mut line = ArrayVec::new();
    add(&mut line, b"== fault ");
    add(&mut line, fault_name(fault));
    add(&mut line, b" ");
    add_number(&mut line, place.line);
    add(&mut line, b":");
    add_number(&mut line, place.col);
    add(&mut line, b"\n");
    line
}

pub(crate) fn bad_line(number: u64, kind: BadKind) -> Line
    ensures { result.items ≡ spec.bad_line number kind }
{
    let mut line = ArrayVec::new();
    add(&mut line, b"== script ");
    add_number(&mut line, number);
    add(&mut line, b" ");
    add(&mut line, kind_name(kind));
    add(&mut line, b"\n");
    line
}

pub(crate) fn status_line(after: After) -> Line
    ensures { result.items ≡ spec.status_line (status_after after) }
{
    match after {
        After::Waiting => waiting_line(),
        After::Ended(value) => escape_line(value),
        After::Faulted(fault, place) => fault_line(fault, place),
    }
}
