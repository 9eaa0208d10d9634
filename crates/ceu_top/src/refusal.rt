// The lines of refusals.
ghost use Rattle.std.specs.Prelude.{◌≡◌, ◌≤◌, length, OnOk, OnErr};
ghost use Rattle.ceu_io.specs.Counts.{HasCause};
ghost use Rattle.ceu_io.specs.Bytes.{Appends, AppendsProperFront};
ghost use Rattle.ceu_top.specs.Lines as spec;

use crate::lines::{Line, add, add_number};
use ceu_base::{Pos, Rule};
use ceu_io::{Failed, Sink, write_all};

/// A rule as it is printed.
fn rule_name(rule: Rule) -> &'static [u8]
    ensures name { result.now ≡ spec.rule_name rule }
    ensures len { length result.now ≤ 2 }
{
    match rule {
        Rule::L1 => b"L1",
        Rule::L2 => b"L2",
        Rule::L3 => b"L3",
        Rule::L4 => b"L4",
        Rule::L5 => b"L5",
        Rule::G1 => b"G1",
        Rule::G2 => b"G2",
        Rule::G3 => b"G3",
        Rule::N1 => b"N1",
        Rule::N2 => b"N2",
        Rule::N3 => b"N3",
        Rule::N4 => b"N4",
        Rule::N5 => b"N5",
        Rule::N6 => b"N6",
        Rule::N7 => b"N7",
        Rule::T1 => b"T1",
        Rule::T2 => b"T2",
        Rule::T3 => b"T3",
        Rule::T4 => b"T4",
        Rule::T5 => b"T5",
        Rule::T6 => b"T6",
        Rule::T7 => b"T7",
        Rule::B0 => b"B0",
        Rule::B1 => b"B1",
        Rule::B2 => b"B2",
        Rule::B3 => b"B3",
        Rule::B4 => b"B4",
        Rule::Z1 => b"Z1",
        Rule::Z2 => b"Z2",
        Rule::Z3 => b"Z3",
    }
}

/// The line of a broken rule and its place.
pub(crate) fn write_refusal<O: Sink>(out: &mut O, rule: Rule, pos: Pos) -> Result<(), Failed>
    ensures whole { OnOk result (Appends (spec.refusal_line rule pos) (O.held out.old) (O.held out.new)) }
    ensures front { OnErr result (AppendsProperFront (spec.refusal_line rule pos) (O.held out.old) (O.held out.new)) }
    ensures cause { HasCause (O.faults out.old) (O.faults out.new) result }
{
    let mut line = Line::new();
    add(&mut line, b"refused ");
    add(&mut line, rule_name(rule));
    add(&mut line, b" ");
    add_number(&mut line, pos.line);
    add(&mut line, b":");
    add_number(&mut line, pos.col);
    add(&mut line, b"\n");
    write_all(out, line.as_slice())
}

/// The line of bytes that are no image, `at` being the length of their longest beginning of one.
pub(crate) fn write_no_image<O: Sink>(out: &mut O, at: usize) -> Result<(), Failed>
    ensures whole { OnOk result (Appends (spec.no_image_line at) (O.held out.old) (O.held out.new)) }
    ensures front { OnErr result (AppendsProperFront (spec.no_image_line at) (O.held out.old) (O.held out.new)) }
    ensures cause { HasCause (O.faults out.old) (O.faults out.new) result }
{
    let mut line = Line::new();
    add(&mut line, b"refused I1 ");
    add_number(&mut line, at);
    add(&mut line, b"\n");
    write_all(out, line.as_slice())
}
