ghost use Rattle.std.specs.Prelude.{◌≡◌, ◌+◌, ◌^◌, ◌<◌, ◌≤◌, ◌∷◌, ◌++◌, length, decimal};
ghost use Rattle.std.specs.Fmt.{signed_decimal};
ghost use Rattle.ceu_code.specs.Table as table;
ghost use Rattle.ceu_base.specs.Values as values;
ghost use Rattle.ceu_code.specs.Text as spec;
ghost use Rattle.ceu_code.specs.Text.{name_at};

use crate::code::{operands_width, row_of, width_of};
use crate::image::Image;
use crate::row::type_of;
use crate::table::Operand;
use arrayvec::ArrayString;
use ceu_base::Ty;
use itoa::Buffer;

/// A line of a listing.
type Text = ArrayString<100>;

fn type_name(ty: Ty) -> &'static str
    ensures name { result.now ≡ spec.type_name ty }
    ensures short { length result.now ≤ 4 }
{
    match ty {
        Ty::None => "none",
        Ty::Bool => "bool",
        Ty::U8 => "u8",
        Ty::S8 => "s8",
        Ty::U16 => "u16",
        Ty::S16 => "s16",
        Ty::U32 => "u32",
        Ty::S32 => "s32",
        Ty::U64 => "u64",
        Ty::S64 => "s64",
    }
}

fn prefix_name(number: u8) -> &'static str
    ensures name { result.now ≡ name_at spec.prefix_names number }
    ensures short { length result.now ≤ 6 }
{
    match number {
        0 => "not",
        1 => "neg",
        2 => "compl",
        _ => "",
    }
}

fn unit_name(number: u8) -> &'static str
    ensures name { result.now ≡ name_at spec.unit_names number }
    ensures short { length result.now ≤ 6 }
{
    match number {
        0 => "h",
        1 => "min",
        2 => "s",
        3 => "ms",
        4 => "us",
        _ => "",
    }
}

fn binary_name(number: u8) -> &'static str
    ensures name { result.now ≡ name_at spec.binary_names number }
    ensures short { length result.now ≤ 6 }
{
    match number {
        0 => "eq",
        1 => "ne",
        2 => "lt",
        3 => "gt",
        4 => "le",
        5 => "ge",
        6 => "bitor",
        7 => "bitxor",
        8 => "bitand",
        9 => "shl",
        10 => "shr",
        11 => "add",
        12 => "sub",
        13 => "mul",
        14 => "div",
        15 => "rem",
        _ => "",
    }
}

fn opcode_name(opcode: u8) -> &'static str
    ensures name { result.now ≡ name_at spec.opcode_names opcode }
    ensures short { length result.now ≤ 8 }
{
    match opcode {
        1 => "push",
        2 => "load",
        3 => "loado",
        4 => "store",
        5 => "storeo",
        6 => "op1",
        7 => "op2",
        8 => "conv",
        9 => "jump",
        10 => "jumpf",
        11 => "val",
        12 => "setv",
        13 => "out",
        14 => "end",
        0 | 15 => "",
        _ => late_opcode_name(opcode),
    }
}

fn late_opcode_name(opcode: u8) -> &'static str
    requires { 16 ≤ opcode }
    ensures name { result.now ≡ name_at spec.opcode_names opcode }
    ensures short { length result.now ≤ 8 }
{
    match opcode {
        16 => "waitin",
        17 => "waittime",
        18 => "waitev",
        19 => "forever",
        20 => "async",
        21 => "yield",
        22 => "endasync",
        23 => "emit",
        24 => "fork",
        25 => "move",
        26 => "halt",
        27 => "abort",
        28 => "final",
        29 => "endfin",
        30 => "call",
        31 => "ret",
        32 => "pool",
        33 => "spawn",
        34 => "kill",
        35 => "alive",
        36 => "bound",
        37 => "next",
        38 => "limit",
        _ => "",
    }
}

/// Puts a blank and a word at the end.
fn push_word(line: &mut Text, word: &str)
    requires { length line.old.bytes + 1 + length word.now ≤ 100 }
    ensures text { line.new.bytes ≡ line.old.bytes ++ 32 ∷ word.now }
    ensures size { length line.new.bytes ≡ length line.old.bytes + 1 + length word.now }
{
    line.push_str(" ");
    line.push_str(word);
}

/// Puts a blank and a number of at most five digits at the end.
fn push_half(line: &mut Text, number: u16)
    requires { length line.old.bytes + 6 ≤ 100 }
    ensures text { line.new.bytes ≡ line.old.bytes ++ 32 ∷ decimal number }
    ensures size { length line.new.bytes ≤ length line.old.bytes + 6 }
{
    let mut buffer = Buffer::new();
    push_word(line, buffer.format(number));
}

/// Puts a blank and a number of at most ten digits at the end.
fn push_long(line: &mut Text, number: u32)
    requires { length line.old.bytes + 11 ≤ 100 }
    ensures text { line.new.bytes ≡ line.old.bytes ++ 32 ∷ decimal number }
    ensures size { length line.new.bytes ≤ length line.old.bytes + 11 }
{
    let mut buffer = Buffer::new();
    push_word(line, buffer.format(number));
}

fn push_signed(line: &mut Text, number: i128)
    requires { length line.old.bytes + 41 ≤ 100 }
    ensures text { line.new.bytes ≡ line.old.bytes ++ 32 ∷ signed_decimal number }
    ensures size { length line.new.bytes ≤ length line.old.bytes + 41 }
{
    let mut buffer = Buffer::new();
    push_word(line, buffer.format(number));
}

/// The number of so many bytes at a place.
fn number_at(code: &[u8], at: usize, width: u8) -> u64
    requires inside { at + width ≤ length code.now }
    requires few { width ≤ 8 }
    ensures value { result ≡ spec.number_at width code.now at }
    ensures small { result < 256 ^ width }
{
    if width == 0 {
        return 0;
    }
    let rest = number_at(code, at + 1, width - 1);
    u64::from(code[at]) + 256 * rest
}

fn is_signed(ty: Ty) -> bool
    ensures { result ≡ values.is_signed ty }
{
    match ty {
        Ty::S8 | Ty::S16 | Ty::S32 | Ty::S64 => true,
        Ty::None | Ty::Bool | Ty::U8 | Ty::U16 | Ty::U32 | Ty::U64 => false,
    }
}

/// The value of a cell in a type.
fn cell_value(ty: Ty, cell: u64) -> i128
    ensures { result ≡ spec.cell_value ty cell }
{
    if is_signed(ty) && cell >= 0x8000_0000_0000_0000 {
        return i128::from(cell) - 0x1_0000_0000_0000_0000;
    }
    i128::from(cell)
}

fn push_value(line: &mut Text, ty: Ty, cell: u64)
    requires { length line.old.bytes + 41 ≤ 100 }
    ensures text { line.new.bytes ≡ line.old.bytes ++ 32 ∷ spec.value_text ty cell }
    ensures size { length line.new.bytes ≤ length line.old.bytes + 41 }
{
    match ty {
        Ty::Bool => push_word(line, if cell == 0 { "false" } else { "true" }),
        _ => push_signed(line, cell_value(ty, cell)),
    }
}

fn push_constant(line: &mut Text, code: &[u8], at: usize)
    requires inside { at + 9 ≤ length code.now }
    requires room { length line.old.bytes + 46 ≤ 100 }
    ensures text { line.new.bytes ≡ line.old.bytes ++ spec.operand_text Operand.Constant code.now at }
    ensures size { length line.new.bytes ≤ length line.old.bytes + 46 }
{
    let ty = type_of(code[at]);
    push_word(line, type_name(ty));
    push_value(line, ty, number_at(code, at + 1, 8));
}

/// Puts an operand at the end, with a blank before it.
fn push_operand(line: &mut Text, kind: Operand, code: &[u8], at: usize)
    requires inside { at + table.operand_width kind ≤ length code.now }
    requires room { length line.old.bytes + spec.operand_room kind ≤ 100 }
    ensures text { line.new.bytes ≡ line.old.bytes ++ spec.operand_text kind code.now at }
    ensures size { length line.new.bytes ≤ length line.old.bytes + spec.operand_room kind }
{
    match kind {
        Operand::Nothing => {}
        Operand::Typed => push_word(line, type_name(type_of(code[at]))),
        Operand::AnyType => push_word(line, type_name(type_of(code[at]))),
        Operand::Prefix => push_word(line, prefix_name(code[at])),
        Operand::Binary => push_word(line, binary_name(code[at])),
        Operand::Unit => push_word(line, unit_name(code[at])),
        Operand::Open => push_half(line, u16::from(code[at])),
        Operand::Half => push_half(line, number_at(code, at, 2) as u16),
        Operand::Word => push_long(line, number_at(code, at, 4) as u32),
        Operand::Constant => push_constant(line, code, at),
    }
}

fn push_operands(line: &mut Text, kinds: &[Operand], code: &[u8], at: usize)
    requires inside { at + table.operands_width kinds.now ≤ length code.now }
    requires room { length line.old.bytes + spec.operands_room kinds.now ≤ 100 }
    ensures { line.new.bytes ≡ line.old.bytes ++ spec.operands_text kinds.now code.now at }
{
    match kinds {
        [] => {}
        [kind, rest @ ..] => {
            push_operand(line, *kind, code, at);
            push_operands(line, rest, code, at + width_of(*kind) as usize);
        }
    }
}

/// Puts the line of the instruction at an offset, without its newline, in place of what `line` holds. Answers the next offset.
pub fn disassemble(image: &Image, at: u16, line: &mut ArrayString<100>) -> u16
    requires small { length image.now.code < 2 ^ 16 }
    requires starts { spec.StartsInstruction image.now.code at }
    ensures text { line.new.bytes ≡ spec.line_text image.now.code at }
    ensures next { result ≡ at + spec.instruction_size image.now.code at }
{
    let code = image.code.items();
    let start = at as usize;
    let opcode = code[start];
    line.clear();
    let mut buffer = Buffer::new();
    line.push_str(buffer.format(at));
    push_word(line, opcode_name(opcode));
    match row_of(opcode) {
        Some(row) => {
            push_operands(
                line,
                &[row.first, row.second, row.third, row.fourth, row.fifth],
                code,
                start + 1,
            );
            at + 1 + operands_width(&row)
        }
        None => at + 1,
    }
}
