ghost use Rattle.std.specs.Prelude.{◌≡◌, ◌≤◌, ◌++◌, OnOk, IfOk, length};
ghost use Rattle.std.specs.List.{AllByRecursion, flat_map};
ghost use Rattle.ceu_asm.specs.Lines.{IsWhole, assembled, code_size};
ghost use Rattle.ceu_asm.specs.Tables as spec;
ghost use Rattle.ceu_asm.specs.Tables.{IsWithin, NamesWithin, line_bytes};

use crate::line::Line;
use crate::sheet::{Sheet, size_of_line};
use ceu_base::Seq;
use ceu_code::{put_instruction, with_target};
use std::alloc::{AllocError, Global};

fn label_bound(line: &Line) -> usize
    ensures value { result ≡ spec.label_bound line.now }
    ensures small { result ≤ 4294967296 }
{
    match *line {
        Line::Mark(label) => label as usize + 1,
        Line::Plain(_) => 0,
        Line::Jump(..) => 0,
    }
}

/// One more than the greatest label that is marked.
fn table_size(lines: &[Line]) -> usize
    ensures { result ≡ spec.table_size lines.now }
{
    let mut size: usize = 0;
    for line in lines {
        size = size.max(label_bound(line));
    }
    size
}

/// Puts the offset into the table where the line is a mark.
fn note(table: &mut [u16], line: &Line, at: u16)
    requires { IsWithin (length table.old) line.now }
    ensures { table.new ≡ spec.noted table.old line.now at }
{
    match *line {
        Line::Mark(label) => table[label as usize] = at,
        Line::Plain(_) => {}
        Line::Jump(..) => {}
    }
}

/// Puts each label's offset into the table.
fn fill(table: &mut [u16], lines: &[Line])
    requires within { AllByRecursion (IsWithin (length table.old)) lines.now }
    requires fits { code_size lines.now ≤ 65535 }
    ensures { table.new ≡ spec.filled table.old 0 lines.now }
{
    let mut at: u16 = 0;
    for line in lines {
        note(table, line, at);
        at += size_of_line(line);
    }
}

/// Writes a line, with the offset of the label that it names.
fn put_line(out: &mut Seq<u8>, table: &[u16], line: &Line) -> Result<(), AllocError>
    requires { NamesWithin (length table.now) line.now }
    ensures { OnOk result (out.new ≡ out.old ++ line_bytes table.now line.now) }
{
    match *line {
        Line::Mark(_) => Ok(()),
        Line::Plain(instr) => put_instruction(out, instr),
        Line::Jump(instr, label) => put_instruction(out, with_target(instr, table[label as usize])),
    }
}

fn put_lines(out: &mut Seq<u8>, table: &[u16], lines: &[Line]) -> Result<(), AllocError>
    requires { AllByRecursion (NamesWithin (length table.now)) lines.now }
    ensures { OnOk result (out.new ≡ out.old ++ flat_map (line_bytes table.now) lines.now) }
{
    for line in lines {
        put_line(out, table, line)?;
    }
    Ok(())
}

/// The bytes of a sheet's lines, with each label's offset in its place. Linear in the lines and in the greatest label.
pub fn assemble(alloc: Global, sheet: &Sheet) -> Result<Seq<u8>, AllocError>
    requires { IsWhole sheet.now.lines }
    ensures bytes { IfOk result (λ bytes. bytes ≡ assembled sheet.now.lines) }
    ensures size { IfOk result (λ bytes. length bytes ≡ code_size sheet.now.lines) }
{
    let lines = sheet.lines();
    let mut table = vec![in alloc; 0u16; table_size(lines)]?;
    fill(&mut table, lines);
    let mut out = Seq::new(alloc);
    put_lines(&mut out, &table, lines)?;
    Ok(out)
}
