// Small words for lines and labels.
ghost use Rattle.std.specs.Prelude.{◌≡◌, ◌+◌, ◌*◌, ◌<◌, ◌≤◌, ◌++◌, OnOk};
ghost use Rattle.ceu_shape.specs.Plans as plans;
ghost use Rattle.ceu_shape.specs.Words as spec;

use ceu_asm::{Line, Sheet};
use ceu_code::Instr;
use std::alloc::AllocError;

pub fn add_all(sheet: &mut Sheet, lines: &[Line]) -> Result<(), AllocError>
    ensures { OnOk result (sheet.new ≡ record sheet.old { lines = sheet.old.lines ++ lines.now }) }
{
    for line in lines {
        sheet.add(*line)?;
    }
    Ok(())
}

pub fn goto(label: u32) -> Line
    ensures { result ≡ spec.goto label }
{
    Line::Jump(Instr::Jump(0), label)
}

/// The label at which the lines of a node begin.
pub fn own_label(node: u32) -> u32
    requires { node ≤ 65536 }
    ensures { result ≡ plans.own_label node }
{
    2 * node
}

/// The label behind a statement, or to which the last line of a block goes.
pub fn end_label(node: u32) -> u32
    requires { node ≤ 65536 }
    ensures { result ≡ plans.end_label node }
{
    2 * node + 1
}

/// So many labels, of which this is the first, if there is one.
pub fn take_labels(sheet: &mut Sheet, count: usize) -> u32
    requires { sheet.old.labels + count < 4294967296 }
    ensures first { 0 < count → result ≡ sheet.old.labels }
    ensures below { result + count < 4294967296 }
    ensures given { sheet.new ≡ record sheet.old { labels = sheet.old.labels + count } }
{
    if count == 0 {
        return 0;
    }
    let first = sheet.label();
    for _taken in 1..count {
        sheet.label();
    }
    first
}
