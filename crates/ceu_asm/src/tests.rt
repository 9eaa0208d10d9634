use super::*;
use ceu_base::Pos;
use ceu_code::Instr;
use std::test::Fail;

#[test]
fn a_jump_has_its_labels_offset(rt: HostRuntime) -> Result<(), Fail> {
    let mut sheet = Sheet::new(rt.alloc());
    let begin = sheet.label();
    let end = sheet.label();
    sheet.add(Line::Mark(begin))?;
    sheet.add(Line::Jump(Instr::JumpIfFalse(0), end))?;
    sheet.add(Line::Jump(Instr::Jump(0), begin))?;
    sheet.add(Line::Mark(end))?;
    sheet.add(Line::Plain(Instr::End))?;
    let bytes = assemble(rt.alloc(), &sheet)?;
    assert_eq!(rt; bytes.items(), b"\x0a\x06\x00\x09\x00\x00\x0e".as_slice());
    assert_eq!(rt; sheet.offset(end), 6);
    Ok(())
}

#[test]
fn a_position_has_one_number(rt: HostRuntime) -> Result<(), Fail> {
    let mut sheet = Sheet::new(rt.alloc());
    let first = Pos { line: 1, col: 2 };
    assert_eq!(rt; sheet.place(first)?, 0);
    assert_eq!(rt; sheet.place(Pos { line: 2, col: 1 })?, 1);
    assert_eq!(rt; sheet.place(first)?, 0);
    assert_eq!(rt; sheet.places().items().len(), 2);
    Ok(())
}
