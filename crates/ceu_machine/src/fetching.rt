// The instruction at a code offset.
ghost use Rattle.std.specs.Prelude.{◌≡◌, ◌≤◌, ◌<◌, ◌+◌, ◌^◌, Some, IsSome, slice_index, slice_get, length};
ghost use Rattle.std.specs.Option.{option_map};
ghost use Rattle.ceu_mem.specs.Bytes.{number_at};
ghost use Rattle.ceu_mem.specs.Memory.{with_sign};
ghost use Rattle.ceu_code.specs.Instructions.{size};
ghost use Rattle.ceu_isa.specs.Fetching as spec;

use crate::cells::cell_type;
use ceu_base::{Op1, Op2, Ty, is_value};
use ceu_code::{Image, Instr, TimeUnit};
use ceu_mem::with_sign;

/// The byte at a place; behind the end it counts as 0.
fn peek(code: &[u8], at: usize) -> u8
    ensures { result ≡ slice_index code.now at }
{
    if at < code.len() { code[at] } else { 0 }
}

#[tactic(auto, unfolding(ceu_mem::specs::Bytes::number_at))]
fn byte(code: &[u8], at: usize) -> u8
    ensures { result ≡ spec.byte code.now at }
{
    peek(code, at)
}

/// The number in two bytes.
#[tactic(auto, unfolding(ceu_mem::specs::Bytes::number_at))]
fn half(code: &[u8], at: usize) -> u16
    requires { at < 2 ^ 32 }
    ensures { result ≡ spec.half code.now at }
{
    u16::from(peek(code, at)) + 256 * u16::from(peek(code, at + 1))
}

/// The number of so many bytes, at most 8.
fn number(code: &[u8], at: usize, width: u8) -> u64
    requires near { at < 2 ^ 32 }
    requires narrow { width ≤ 8 }
    ensures value { result ≡ number_at width code.now at }
    ensures below { result < 256 ^ width }
{
    let mut found: u64 = 0;
    let mut left = width;
    while left > 0 {
        left -= 1;
        let next = peek(code, at + left as usize);
        found = found * 256 + next as u64;
    }
    found
}

fn any_type(n: u8) -> Option<Ty>
    ensures { result ≡ spec.any_type n }
{
    match n {
        0 => Some(Ty::None),
        1 => Some(Ty::Bool),
        2 => Some(Ty::U8),
        3 => Some(Ty::S8),
        4 => Some(Ty::U16),
        5 => Some(Ty::S16),
        6 => Some(Ty::U32),
        7 => Some(Ty::S32),
        8 => Some(Ty::U64),
        9 => Some(Ty::S64),
        _ => None,
    }
}

fn named_type(n: u8) -> Option<Ty>
    ensures { result ≡ spec.named_type n }
{
    match n {
        0 => None,
        _ => any_type(n),
    }
}

fn prefix_of(n: u8) -> Option<Op1>
    ensures { result ≡ spec.prefix_of n }
{
    match n {
        0 => Some(Op1::Not),
        1 => Some(Op1::Neg),
        2 => Some(Op1::Compl),
        _ => None,
    }
}

fn unit_of(n: u8) -> Option<TimeUnit>
    ensures { result ≡ spec.unit_of n }
{
    match n {
        0 => Some(TimeUnit::H),
        1 => Some(TimeUnit::Min),
        2 => Some(TimeUnit::S),
        3 => Some(TimeUnit::Ms),
        4 => Some(TimeUnit::Us),
        _ => None,
    }
}

fn binary_of(n: u8) -> Option<Op2>
    ensures { result ≡ spec.binary_of n }
{
    match n {
        0 => Some(Op2::Eq),
        1 => Some(Op2::Ne),
        2 => Some(Op2::Lt),
        3 => Some(Op2::Gt),
        4 => Some(Op2::Le),
        5 => Some(Op2::Ge),
        6 => Some(Op2::BitOr),
        7 => Some(Op2::BitXor),
        8 => Some(Op2::BitAnd),
        9 => Some(Op2::Shl),
        10 => Some(Op2::Shr),
        11 => Some(Op2::Add),
        12 => Some(Op2::Sub),
        13 => Some(Op2::Mul),
        14 => Some(Op2::Div),
        15 => Some(Op2::Rem),
        _ => None,
    }
}

fn prefix(code: &[u8], at: usize) -> Option<Instr>
    requires { at < 2 ^ 31 }
    ensures { result ≡ spec.prefix_operator code.now at }
{
    match (prefix_of(byte(code, at)), named_type(byte(code, at + 1))) {
        (Some(op), Some(ty)) => Some(Instr::Prefix(op, ty, half(code, at + 2))),
        _ => None,
    }
}

fn binary(code: &[u8], at: usize) -> Option<Instr>
    requires { at < 2 ^ 31 }
    ensures { result ≡ spec.binary_operator code.now at }
{
    match (binary_of(byte(code, at)), named_type(byte(code, at + 1))) {
        (Some(op), Some(ty)) => Some(Instr::Binary(op, ty, half(code, at + 2))),
        _ => None,
    }
}

fn conversion(code: &[u8], at: usize) -> Option<Instr>
    requires { at < 2 ^ 31 }
    ensures { result ≡ spec.conversion code.now at }
{
    match (named_type(byte(code, at)), named_type(byte(code, at + 1))) {
        (Some(from), Some(to)) => Some(Instr::Convert(from, to)),
        _ => None,
    }
}

/// A value of a type in eight bytes.
fn constant(code: &[u8], at: usize) -> Option<Instr>
    requires { at < 2 ^ 31 }
    ensures { result ≡ spec.pushed_constant code.now at }
{
    match named_type(byte(code, at)) {
        Some(ty) => constant_of(ty, number(code, at + 1, 8)),
        None => None,
    }
}

fn constant_of(ty: Ty, bits: u64) -> Option<Instr>
    ensures { result ≡ spec.constant_of (with_sign (spec.cell_type ty) bits) ty }
{
    let v = with_sign(cell_type(ty), bits);
    if is_value(ty, v) {
        Some(Instr::Push(ty, v))
    } else {
        None
    }
}

/// A type and the number behind it.
fn type_half(code: &[u8], at: usize) -> Option<(Ty, u16)>
    requires { at < 2 ^ 31 }
    ensures { result ≡ option_map (λ t. (t, spec.half code.now (at + 1))) (spec.named_type (spec.byte code.now at)) }
{
    match named_type(byte(code, at)) {
        Some(ty) => Some((ty, half(code, at + 1))),
        None => None,
    }
}

/// A number and the type behind it, which may be `none`.
fn half_type(code: &[u8], at: usize) -> Option<(u16, Ty)>
    requires { at < 2 ^ 31 }
    ensures { result ≡ option_map (λ t. (spec.half code.now at, t)) (spec.any_type (spec.byte code.now (at + 2))) }
{
    match any_type(byte(code, at + 2)) {
        Some(ty) => Some((half(code, at), ty)),
        None => None,
    }
}

fn time(code: &[u8], at: usize) -> Option<Instr>
    ensures { result ≡ spec.awaited_time code.now at }
{
    match unit_of(byte(code, at)) {
        Some(unit) => Some(Instr::WaitTime(unit)),
        None => None,
    }
}

fn header_value(code: &[u8], at: usize) -> Option<Instr>
    ensures { result ≡ spec.header_value code.now at }
{
    match named_type(byte(code, at)) {
        Some(ty) => Some(Instr::Value(ty)),
        None => None,
    }
}

fn range_bound(code: &[u8], at: usize) -> Option<Instr>
    requires { at < 2 ^ 31 }
    ensures { result ≡ spec.range_bound code.now at }
{
    let d = byte(code, at + 2);
    if d <= 2 {
        Some(Instr::RangeBound(half(code, at), d))
    } else {
        None
    }
}

/// The instruction that the bytes from a place on begin with, the opcode being known; its operands begin at the place.
#[tactic(auto, unfolding(ceu_isa::specs::Fetching::readers, ceu_isa::specs::Fetching::read_by))]
fn with_operands(code: &[u8], op: u8, at: usize) -> Option<Instr>
    requires { at < 2 ^ 31 }
    ensures { result ≡ spec.read_by (slice_get spec.readers op) code.now at }
{
    match op {
        0 | 15 => None,
        1 => constant(code, at),
        2 => type_half(code, at).map(|(t, a)| Instr::Load(t, a)),
        3 => type_half(code, at).map(|(t, a)| Instr::LoadOuter(t, a)),
        4 => type_half(code, at).map(|(t, a)| Instr::Store(t, a)),
        5 => type_half(code, at).map(|(t, a)| Instr::StoreOuter(t, a)),
        6 => prefix(code, at),
        7 => binary(code, at),
        8 => conversion(code, at),
        9 => Some(Instr::Jump(half(code, at))),
        10 => Some(Instr::JumpIfFalse(half(code, at))),
        11 => header_value(code, at),
        12 => Some(Instr::SetValue),
        13 => half_type(code, at).map(|(k, t)| Instr::Output(k, t)),
        14 => Some(Instr::End),
        16 => Some(Instr::WaitInput(half(code, at))),
        17 => time(code, at),
        18 => Some(Instr::WaitEvent(half(code, at))),
        19 => Some(Instr::WaitForever),
        20 => Some(Instr::StartAsync),
        21 => Some(Instr::YieldAsync),
        22 => Some(Instr::EndAsync),
        _ => with_more_operands(code, op, at),
    }
}

/// The opcodes from 23 on.
#[tactic(auto, unfolding(ceu_isa::specs::Fetching::readers, ceu_isa::specs::Fetching::read_by))]
fn with_more_operands(code: &[u8], op: u8, at: usize) -> Option<Instr>
    requires near { at < 2 ^ 31 }
    requires late { 23 ≤ op }
    ensures { result ≡ spec.read_by (slice_get spec.readers op) code.now at }
{
    match op {
        23 => half_type(code, at).map(|(k, t)| Instr::Emit(k, t)),
        24 => Some(Instr::Fork(half(code, at), half(code, at + 2))),
        25 => Some(Instr::Move(half(code, at))),
        26 => Some(Instr::Halt),
        27 => Some(Instr::AbortGates(half(code, at), half(code, at + 2))),
        28 => Some(Instr::Register(half(code, at), half(code, at + 2), half(code, at + 4))),
        29 => Some(Instr::EndFinalizer),
        30 => Some(Instr::Call(half(code, at), half(code, at + 2), half(code, at + 4))),
        31 => Some(Instr::Return),
        32 => Some(pool(code, at)),
        33 => Some(spawn(code, at)),
        34 => Some(Instr::Kill(half(code, at))),
        35 => Some(Instr::Alive(half(code, at))),
        36 => range_bound(code, at),
        37 => Some(Instr::RangeNext(half(code, at), half(code, at + 2), half(code, at + 4))),
        38 => Some(Instr::Limit(
            half(code, at),
            number(code, at + 2, 4) as u32,
            half(code, at + 6),
        )),
        _ => None,
    }
}

fn pool(code: &[u8], at: usize) -> Instr
    requires { at < 2 ^ 31 }
    ensures { Some result ≡ spec.pool code.now at }
{
    Instr::MakePool(
        half(code, at),
        half(code, at + 2),
        half(code, at + 4),
        half(code, at + 6),
    )
}

fn spawn(code: &[u8], at: usize) -> Instr
    requires { at < 2 ^ 31 }
    ensures { Some result ≡ spec.spawn code.now at }
{
    Instr::Spawn(
        half(code, at),
        half(code, at + 2),
        half(code, at + 4),
        half(code, at + 6),
        half(code, at + 8),
    )
}

/// What the bytes from a place on are as an instruction.
#[tactic(auto, unfolding(ceu_isa::specs::Fetching::decoded))]
pub fn decoded(code: &[u8], at: usize) -> Option<Instr>
    requires { at < 65536 }
    ensures { result ≡ spec.decoded code.now at }
{
    with_operands(code, byte(code, at), at + 1)
}

/// The whole instruction at a code offset.
#[tactic(auto, unfolding(ceu_isa::specs::Fetching::fetched))]
pub fn fetch(image: &Image, at: u16) -> Instr
    requires { IsSome (spec.fetched image.now at) }
    ensures fetched { spec.fetched image.now at ≡ Some result }
    ensures whole { at + size result ≤ length image.now.code }
{
    decoded(image.code.items(), at as usize).unwrap()
}
