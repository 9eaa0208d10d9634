// How types, operators and units are written.
ghost use Rattle.std.specs.Prelude.{◌≡◌};
ghost use Rattle.ceu_print.specs.Words as spec;

use ceu_base::{Op1, Op2, Ty};
use ceu_tree::{ParKind, Unit};

pub fn type_text(ty: Ty) -> &'static str
    ensures { result.now ≡ spec.type_text ty }
{
    match ty {
        Ty::None => "none",
        Ty::Bool => "bool",
        Ty::U8 => "byte",
        Ty::S8 => "s8",
        Ty::U16 => "u16",
        Ty::S16 => "s16",
        Ty::U32 => "uint",
        Ty::S32 => "int",
        Ty::U64 => "u64",
        Ty::S64 => "s64",
    }
}

pub fn truth_text(truth: bool) -> &'static str
    ensures { result.now ≡ spec.truth_text truth }
{
    if truth { "true" } else { "false" }
}

pub fn prefix_text(op: Op1) -> &'static str
    ensures { result.now ≡ spec.prefix_text op }
{
    match op {
        Op1::Not => "not ",
        Op1::Neg => "-",
        Op1::Compl => "~",
    }
}

pub fn binary_text(op: Op2) -> &'static str
    ensures { result.now ≡ spec.binary_text op }
{
    match op {
        Op2::Or => " or ",
        Op2::And => " and ",
        Op2::Eq => " == ",
        Op2::Ne => " != ",
        Op2::Lt => " < ",
        Op2::Gt => " > ",
        Op2::Le => " <= ",
        Op2::Ge => " >= ",
        Op2::BitOr => " | ",
        Op2::BitXor => " ^ ",
        Op2::BitAnd => " & ",
        Op2::Shl => " << ",
        Op2::Shr => " >> ",
        Op2::Add => " + ",
        Op2::Sub => " - ",
        Op2::Mul => " * ",
        Op2::Div => " / ",
        Op2::Rem => " % ",
    }
}

/// How tight a binary operator binds.
pub fn level(op: Op2) -> u8
    ensures { result ≡ spec.level op }
{
    match op {
        Op2::Or => 1,
        Op2::And => 2,
        Op2::Eq | Op2::Ne | Op2::Lt | Op2::Gt | Op2::Le | Op2::Ge => 3,
        Op2::BitOr => 4,
        Op2::BitXor => 5,
        Op2::BitAnd => 6,
        Op2::Shl | Op2::Shr => 7,
        Op2::Add | Op2::Sub => 8,
        Op2::Mul | Op2::Div | Op2::Rem => 9,
    }
}

pub fn unit_text(unit: Unit) -> &'static str
    ensures { result.now ≡ spec.unit_text unit }
{
    match unit {
        Unit::H => "h",
        Unit::Min => "min",
        Unit::S => "s",
        Unit::Ms => "ms",
        Unit::Us => "us",
    }
}

pub fn par_text(kind: ParKind) -> &'static str
    ensures { result.now ≡ spec.par_text kind }
{
    match kind {
        ParKind::Never => "par do",
        ParKind::Or => "par/or do",
        ParKind::And => "par/and do",
    }
}
