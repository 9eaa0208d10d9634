ghost use Rattle.std.specs.Prelude.{◌≡◌, ◌++◌, ◌∷◌, ◌≤◌, [], OnOk};
ghost use Rattle.ceu_code.specs.Table.{low_first, type_byte};
ghost use Rattle.ceu_code.specs.Spelling as spelling;
ghost use Rattle.ceu_code.specs.Instructions as spec;
ghost use Rattle.ceu_code.specs.Instructions.{cell, spelled};

use crate::encoding::{number_of, put_half, put_number, put_word};
use crate::instr::{Instr, TimeUnit};
use ceu_base::{Op1, Op2, Seq, Ty};
use std::alloc::AllocError;

fn prefix_number(op: Op1) -> u8
    ensures { result ≡ spec.prefix_byte op }
{
    match op {
        Op1::Not => 0,
        Op1::Neg => 1,
        Op1::Compl => 2,
    }
}

fn binary_number(op: Op2) -> u8
    ensures { result ≡ spec.binary_byte op }
{
    match op {
        Op2::Eq => 0,
        Op2::Ne => 1,
        Op2::Lt => 2,
        Op2::Gt => 3,
        Op2::Le => 4,
        Op2::Ge => 5,
        Op2::BitOr => 6,
        Op2::BitXor => 7,
        Op2::BitAnd => 8,
        Op2::Shl => 9,
        Op2::Shr => 10,
        Op2::Add => 11,
        Op2::Sub => 12,
        Op2::Mul => 13,
        Op2::Div => 14,
        Op2::Rem => 15,
        Op2::Or => 16,
        Op2::And => 17,
    }
}

fn unit_number(unit: TimeUnit) -> u8
    ensures { result ≡ spec.unit_byte unit }
{
    match unit {
        TimeUnit::H => 0,
        TimeUnit::Min => 1,
        TimeUnit::S => 2,
        TimeUnit::Ms => 3,
        TimeUnit::Us => 4,
    }
}

fn put_constant(out: &mut Seq<u8>, ty: Ty, v: i128) -> Result<(), AllocError>
    ensures { OnOk result (out.new ≡ out.old ++ (1 ∷ type_byte ty ∷ low_first 8 (cell v))) }
{
    out.push(1)?;
    out.push(number_of(ty))?;
    put_number(out, 8, v.rem_euclid(0x1_0000_0000_0000_0000) as u64)?;
    Ok(())
}

fn put_bytes_2(out: &mut Seq<u8>, a: u8, b: u8) -> Result<(), AllocError>
    ensures { OnOk result (out.new ≡ out.old ++ (a ∷ b ∷ [])) }
{
    out.push(a)?;
    out.push(b)?;
    Ok(())
}

fn put_bytes_3(out: &mut Seq<u8>, a: u8, b: u8, c: u8) -> Result<(), AllocError>
    ensures { OnOk result (out.new ≡ out.old ++ (a ∷ b ∷ c ∷ [])) }
{
    put_bytes_2(out, a, b)?;
    out.push(c)?;
    Ok(())
}

fn put_op_half(out: &mut Seq<u8>, op: u8, a: u16) -> Result<(), AllocError>
    ensures { OnOk result (out.new ≡ out.old ++ (op ∷ spelling.half a)) }
{
    out.push(op)?;
    put_half(out, a)?;
    Ok(())
}

fn put_half_byte(out: &mut Seq<u8>, op: u8, a: u16, b: u8) -> Result<(), AllocError>
    ensures { OnOk result (out.new ≡ out.old ++ ((op ∷ spelling.half a) ++ (b ∷ []))) }
{
    put_op_half(out, op, a)?;
    out.push(b)?;
    Ok(())
}

fn put_typed(out: &mut Seq<u8>, op: u8, ty: Ty, a: u16) -> Result<(), AllocError>
    ensures { OnOk result (out.new ≡ out.old ++ (op ∷ type_byte ty ∷ spelling.half a)) }
{
    put_bytes_2(out, op, number_of(ty))?;
    put_half(out, a)?;
    Ok(())
}

fn put_operator(out: &mut Seq<u8>, op: u8, o: u8, ty: Ty, p: u16) -> Result<(), AllocError>
    ensures { OnOk result (out.new ≡ out.old ++ (op ∷ o ∷ type_byte ty ∷ spelling.half p)) }
{
    put_bytes_3(out, op, o, number_of(ty))?;
    put_half(out, p)?;
    Ok(())
}

fn put_halves(out: &mut Seq<u8>, op: u8, a: u16, b: u16) -> Result<(), AllocError>
    ensures { OnOk result (out.new ≡ out.old ++ ((op ∷ spelling.half a) ++ spelling.half b)) }
{
    put_op_half(out, op, a)?;
    put_half(out, b)?;
    Ok(())
}

fn put_three(out: &mut Seq<u8>, op: u8, a: u16, b: u16, c: u16) -> Result<(), AllocError>
    ensures { OnOk result (out.new ≡ out.old ++ (((op ∷ spelling.half a) ++ spelling.half b) ++ spelling.half c)) }
{
    put_halves(out, op, a, b)?;
    put_half(out, c)?;
    Ok(())
}

fn put_pool(out: &mut Seq<u8>, a: u16, n: u16, k: u16, g: u16) -> Result<(), AllocError>
    ensures { OnOk result (out.new ≡ out.old ++ spelled (Instr.MakePool a n k g)) }
{
    put_three(out, 32, a, n, k)?;
    put_half(out, g)?;
    Ok(())
}

fn put_spawn(out: &mut Seq<u8>, k: u16, a: u16, n: u16, b: u16, p: u16) -> Result<(), AllocError>
    ensures { OnOk result (out.new ≡ out.old ++ spelled (Instr.Spawn k a n b p)) }
{
    put_three(out, 33, k, a, n)?;
    put_half(out, b)?;
    put_half(out, p)?;
    Ok(())
}

fn put_limit(out: &mut Seq<u8>, a: u16, n: u32, p: u16) -> Result<(), AllocError>
    ensures { OnOk result (out.new ≡ out.old ++ spelled (Instr.Limit a n p)) }
{
    put_op_half(out, 38, a)?;
    put_word(out, n)?;
    put_half(out, p)?;
    Ok(())
}

/// Writes an instruction at the end.
pub fn put_instruction(out: &mut Seq<u8>, instr: Instr) -> Result<(), AllocError>
    ensures { OnOk result (out.new ≡ out.old ++ spelled instr) }
{
    match instr {
        Instr::Push(t, v) => put_constant(out, t, v),
        Instr::Load(t, a) => put_typed(out, 2, t, a),
        Instr::LoadOuter(t, a) => put_typed(out, 3, t, a),
        Instr::Store(t, a) => put_typed(out, 4, t, a),
        Instr::StoreOuter(t, a) => put_typed(out, 5, t, a),
        Instr::Prefix(o, t, p) => put_operator(out, 6, prefix_number(o), t, p),
        Instr::Binary(o, t, p) => put_operator(out, 7, binary_number(o), t, p),
        Instr::Convert(t, u) => put_bytes_3(out, 8, number_of(t), number_of(u)),
        Instr::Jump(c) => put_op_half(out, 9, c),
        Instr::JumpIfFalse(c) => put_op_half(out, 10, c),
        Instr::Value(t) => put_bytes_2(out, 11, number_of(t)),
        Instr::SetValue => out.push(12),
        Instr::Output(k, t) => put_half_byte(out, 13, k, number_of(t)),
        Instr::End => out.push(14),
        Instr::WaitInput(k) => put_op_half(out, 16, k),
        Instr::WaitTime(u) => put_bytes_2(out, 17, unit_number(u)),
        Instr::WaitEvent(k) => put_op_half(out, 18, k),
        Instr::WaitForever => out.push(19),
        Instr::StartAsync => out.push(20),
        Instr::YieldAsync => out.push(21),
        Instr::EndAsync => out.push(22),
        Instr::Emit(k, t) => put_half_byte(out, 23, k, number_of(t)),
        Instr::Fork(g, c) => put_halves(out, 24, g, c),
        Instr::Move(g) => put_op_half(out, 25, g),
        Instr::Halt => out.push(26),
        Instr::AbortGates(g, n) => put_halves(out, 27, g, n),
        Instr::Register(g, c, p) => put_three(out, 28, g, c, p),
        Instr::EndFinalizer => out.push(29),
        Instr::Call(k, a, g) => put_three(out, 30, k, a, g),
        Instr::Return => out.push(31),
        Instr::MakePool(a, n, k, g) => put_pool(out, a, n, k, g),
        Instr::Spawn(k, a, n, b, p) => put_spawn(out, k, a, n, b, p),
        Instr::Kill(a) => put_op_half(out, 34, a),
        Instr::Alive(a) => put_op_half(out, 35, a),
        Instr::RangeBound(a, d) => put_half_byte(out, 36, a, d),
        Instr::RangeNext(a, i, c) => put_three(out, 37, a, i, c),
        Instr::Limit(a, n, p) => put_limit(out, a, n, p),
    }
}

/// How many bytes an instruction has.
pub fn size_of_instruction(instr: Instr) -> u16
    ensures value { result ≡ spec.size instr }
    ensures small { result ≤ 11 }
{
    match instr {
        Instr::Push(..) => 10,
        Instr::Load(..) | Instr::LoadOuter(..) | Instr::Store(..) | Instr::StoreOuter(..) => 4,
        Instr::Prefix(..) | Instr::Binary(..) | Instr::Fork(..) | Instr::AbortGates(..) => 5,
        Instr::Output(..) | Instr::Emit(..) | Instr::RangeBound(..) => 4,
        Instr::Convert(..) | Instr::Jump(_) | Instr::JumpIfFalse(_) => 3,
        Instr::WaitInput(_)
        | Instr::WaitEvent(_)
        | Instr::Move(_)
        | Instr::Kill(_)
        | Instr::Alive(_) => 3,
        Instr::Value(_) | Instr::WaitTime(_) => 2,
        Instr::Register(..) | Instr::Call(..) | Instr::RangeNext(..) => 7,
        Instr::MakePool(..) | Instr::Limit(..) => 9,
        Instr::Spawn(..) => 11,
        Instr::SetValue | Instr::End | Instr::WaitForever | Instr::StartAsync | Instr::YieldAsync =>
            1,
        Instr::EndAsync | Instr::Halt | Instr::EndFinalizer | Instr::Return => 1,
    }
}

/// The instruction with another code operand, where it has one.
pub fn with_target(instr: Instr, target: u16) -> Instr
    ensures { result ≡ spec.with_target instr target }
{
    match instr {
        Instr::Jump(_) => Instr::Jump(target),
        Instr::JumpIfFalse(_) => Instr::JumpIfFalse(target),
        Instr::Fork(g, _) => Instr::Fork(g, target),
        Instr::Register(g, _, p) => Instr::Register(g, target, p),
        Instr::RangeNext(a, i, _) => Instr::RangeNext(a, i, target),
        other => other,
    }
}
