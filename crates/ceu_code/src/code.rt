ghost use Rattle.std.specs.Prelude.{◌≡◌, ◌≤◌, ◌<◌, ◌↔◌, IsTrue, IfOk, IfErr, length, slice_index, slice_range};
ghost use Rattle.ceu_code.specs.Table as table;
ghost use Rattle.ceu_code.specs.Table.{IsConstant, IsOperand, IsOperands};
ghost use Rattle.ceu_code.specs.Reading.{IsCodeOf, IsInstructionIn, Reads, Refused, Word, Words};

use crate::decoding::DecodeError;
use crate::number::{read_between, read_byte, read_in_spans};
use crate::row::type_of;
use crate::span::Span;
use crate::table::{Operand, Row, TABLE};
use ceu_base::Ty;

/// The operands of an opcode, where it is one.
pub fn row_of(opcode: u8) -> Option<Row>
    ensures { result ≡ table.row_of opcode }
{
    if opcode < 39 {
        TABLE[opcode as usize]
    } else {
        None
    }
}

/// How many bytes an operand has.
pub fn width_of(kind: Operand) -> u8
    ensures value { result ≡ table.operand_width kind }
    ensures small { result ≤ 9 }
{
    match kind {
        Operand::Nothing => 0,
        Operand::Half => 2,
        Operand::Word => 4,
        Operand::Constant => 9,
        Operand::Typed | Operand::AnyType | Operand::Prefix => 1,
        Operand::Binary | Operand::Unit | Operand::Open => 1,
    }
}

fn span_of(kind: Operand) -> Span
    ensures { result ≡ table.operand_span kind }
{
    match kind {
        Operand::Typed => Span { from: 1, to: 9 },
        Operand::AnyType => Span { from: 0, to: 9 },
        Operand::Prefix => Span { from: 0, to: 2 },
        Operand::Binary => Span { from: 0, to: 15 },
        Operand::Unit => Span { from: 0, to: 4 },
        Operand::Open => Span { from: 0, to: 2 },
        Operand::Half => Span { from: 0, to: 65535 },
        Operand::Word => Span {
            from: 0,
            to: 4294967295,
        },
        Operand::Nothing | Operand::Constant => Span { from: 0, to: 0 },
    }
}

/// The values of a type from 0 on.
fn small_cells(ty: Ty) -> Span
    ensures { result ≡ table.small_cells ty }
{
    let to = match ty {
        Ty::None => 0,
        Ty::Bool => 1,
        Ty::U8 => 255,
        Ty::S8 => 127,
        Ty::U16 => 65535,
        Ty::S16 => 32767,
        Ty::U32 => 4294967295,
        Ty::S32 => 2147483647,
        Ty::U64 => 18446744073709551615,
        Ty::S64 => 9223372036854775807,
    };
    Span { from: 0, to }
}

/// The values of a type below 0, modulo 2^64.
fn negative_cells(ty: Ty) -> Span
    ensures { result ≡ table.negative_cells ty }
{
    let from = match ty {
        Ty::S8 => 18446744073709551488,
        Ty::S16 => 18446744073709518848,
        Ty::S32 => 18446744071562067968,
        Ty::S64 => 9223372036854775808,
        Ty::None | Ty::Bool | Ty::U8 | Ty::U16 | Ty::U32 | Ty::U64 => return Span {
            from: 1,
            to: 0,
        },
    };
    Span {
        from,
        to: 18446744073709551615,
    }
}

fn is_constant(kind: Operand) -> bool
    ensures { IsTrue result ↔ (kind ≡ Operand.Constant) }
{
    match kind {
        Operand::Constant => true,
        Operand::Nothing | Operand::Half | Operand::Word | Operand::Typed => false,
        Operand::AnyType | Operand::Prefix | Operand::Binary | Operand::Unit | Operand::Open =>
            false,
    }
}

/// Reads a type, and a value of it in eight bytes.
fn read_constant(bytes: &[u8], at: usize) -> Result<usize, DecodeError>
    requires { at ≤ length bytes.now }
    ensures ok { IfOk result (λ next. Reads (Word IsConstant) bytes.now at (slice_range bytes.now at next) next) }
    ensures refused { IfErr result (λ e. Refused (Words (Word IsConstant)) bytes.now at e) }
{
    let (number, behind) = read_byte(bytes, at, 1, 9)?;
    let ty = type_of(number);
    let (_cell, next) = read_in_spans(bytes, behind, 8, small_cells(ty), negative_cells(ty))?;
    Ok(next)
}

/// Reads an operand.
fn read_operand(bytes: &[u8], at: usize, kind: Operand) -> Result<usize, DecodeError>
    requires { at ≤ length bytes.now }
    ensures ok { IfOk result (λ next. Reads (Word (IsOperand kind)) bytes.now at (slice_range bytes.now at next) next) }
    ensures refused { IfErr result (λ e. Refused (Words (Word (IsOperand kind))) bytes.now at e) }
{
    if is_constant(kind) {
        return read_constant(bytes, at);
    }
    let span = span_of(kind);
    let (_number, next) = read_between(bytes, at, width_of(kind), span.from, span.to)?;
    Ok(next)
}

/// Reads operands one after the other.
fn read_operands(bytes: &[u8], at: usize, kinds: &[Operand]) -> Result<usize, DecodeError>
    requires { at ≤ length bytes.now }
    ensures ok { IfOk result (λ next. Reads (Word (IsOperands kinds.now)) bytes.now at (slice_range bytes.now at next) next) }
    ensures refused { IfErr result (λ e. Refused (Words (Word (IsOperands kinds.now))) bytes.now at e) }
{
    match kinds {
        [] => Ok(at),
        [kind, rest @ ..] => {
            let behind = read_operand(bytes, at, *kind)?;
            read_operands(bytes, behind, rest)
        }
    }
}

/// How many bytes an instruction with these operands has behind its opcode.
pub fn operands_width(row: &Row) -> u16
    ensures value { result ≡ table.operands_width (table.operands row.now) }
    ensures small { result ≤ 45 }
{
    let first = u16::from(width_of(row.first));
    let second = u16::from(width_of(row.second));
    let third = u16::from(width_of(row.third));
    let fourth = u16::from(width_of(row.fourth));
    let fifth = u16::from(width_of(row.fifth));
    first + second + third + fourth + fifth
}

/// Reads an instruction of at most so many bytes.
fn read_instruction(bytes: &[u8], at: usize, left: u16) -> Result<usize, DecodeError>
    requires inside { at ≤ length bytes.now }
    requires some { 0 < left }
    ensures ok { IfOk result (λ next. Reads (Word (IsInstructionIn left)) bytes.now at (slice_range bytes.now at next) next) }
    ensures refused { IfErr result (λ e. Refused (Words (Word (IsInstructionIn left))) bytes.now at e) }
{
    if at == bytes.len() {
        return Err(DecodeError::Bad(at));
    }
    match row_of(bytes[at]) {
        Some(row) => read_behind(bytes, at, left, &row),
        None => Err(DecodeError::Bad(at)),
    }
}

/// Reads an instruction whose opcode has these operands.
fn read_behind(bytes: &[u8], at: usize, left: u16, row: &Row) -> Result<usize, DecodeError>
    requires inside { at < length bytes.now }
    requires some { 0 < left }
    requires known { table.row_of (slice_index bytes.now at) ≡ Some row.now }
    ensures ok { IfOk result (λ next. Reads (Word (IsInstructionIn left)) bytes.now at (slice_range bytes.now at next) next) }
    ensures refused { IfErr result (λ e. Refused (Words (Word (IsInstructionIn left))) bytes.now at e) }
{
    if operands_width(row) >= left {
        return Err(DecodeError::Bad(at));
    }
    read_operands(
        bytes,
        at + 1,
        &[row.first, row.second, row.third, row.fourth, row.fifth],
    )
}

/// Reads whole instructions of so many bytes in all.
pub fn read_code(bytes: &[u8], at: usize, count: u16) -> Result<usize, DecodeError>
    requires { at ≤ length bytes.now }
    ensures ok { IfOk result (λ next. Reads (Word (IsCodeOf count)) bytes.now at (slice_range bytes.now at next) next) }
    ensures refused { IfErr result (λ e. Refused (Words (Word (IsCodeOf count))) bytes.now at e) }
{
    let mut left = count;
    let mut next = at;
    while left > 0 {
        let behind = read_instruction(bytes, next, left)?;
        left -= (behind - next) as u16;
        next = behind;
    }
    Ok(next)
}
