ghost use Rattle.std.specs.Prelude.{◌≡◌};
ghost use Rattle.ceu_base.specs.Values as base;
ghost use Rattle.ceu_types.specs.Typing as spec;

use ceu_base::{Op1, Op2, Ty, width};

pub fn is_numeric(t: Ty) -> bool
    ensures { result ≡ base.is_numeric t }
{
    match t {
        Ty::None | Ty::Bool => false,
        Ty::U8 | Ty::S8 | Ty::U16 | Ty::S16 | Ty::U32 | Ty::S32 | Ty::U64 | Ty::S64 => true,
    }
}

pub fn is_bool(t: Ty) -> bool
    ensures { result ≡ base.is_bool t }
{
    match t {
        Ty::Bool => true,
        _ => false,
    }
}

pub fn is_none(t: Ty) -> bool
    ensures { result ≡ spec.is_none_type t }
{
    match t {
        Ty::None => true,
        _ => false,
    }
}

fn is_signed(t: Ty) -> bool
    ensures { result ≡ base.is_signed t }
{
    match t {
        Ty::S8 | Ty::S16 | Ty::S32 | Ty::S64 => true,
        _ => false,
    }
}

/// Whether the first type holds every value of the second.
#[tactic(auto, unfolding(crate::specs::Typing::holds))]
pub fn holds(t: Ty, u: Ty) -> bool
    ensures { result ≡ spec.holds t u }
{
    if is_none(t) {
        return is_none(u);
    }
    if is_bool(t) {
        return is_bool(u);
    }
    is_numeric(u) && holds_range(t, u)
}

/// Whether the first type's range holds the second's.
#[tactic(auto, using(crate::proofs::Widths::widths))]
fn holds_range(t: Ty, u: Ty) -> bool
    ensures { result ≡ spec.holds_range t u }
{
    if is_signed(t) {
        if is_signed(u) {
            width(u) <= width(t)
        } else {
            width(u) < width(t)
        }
    } else {
        !is_signed(u) && width(u) <= width(t)
    }
}

fn wider(t: Ty, u: Ty) -> Ty
    ensures { result ≡ spec.wider t u }
{
    if width(t) < width(u) { u } else { t }
}

fn smallest_signed(t: Ty, u: Ty) -> Option<Ty>
    ensures { result ≡ spec.smallest_signed t u }
{
    if holds(Ty::S8, t) && holds(Ty::S8, u) {
        Some(Ty::S8)
    } else if holds(Ty::S16, t) && holds(Ty::S16, u) {
        Some(Ty::S16)
    } else if holds(Ty::S32, t) && holds(Ty::S32, u) {
        Some(Ty::S32)
    } else if holds(Ty::S64, t) && holds(Ty::S64, u) {
        Some(Ty::S64)
    } else {
        None
    }
}

/// The type that two numbers take together, if there is one.
#[tactic(auto, unfolding(crate::specs::Typing::common))]
pub fn common(t: Ty, u: Ty) -> Option<Ty>
    ensures { result ≡ spec.common t u }
{
    if !is_numeric(t) || !is_numeric(u) {
        None
    } else if is_signed(t) == is_signed(u) {
        Some(wider(t, u))
    } else {
        smallest_signed(t, u)
    }
}

/// Whether a shift's amount, or a time, may have this type.
#[tactic(auto, unfolding(crate::specs::Typing::is_amount))]
pub fn is_amount(t: Ty) -> bool
    ensures { result ≡ spec.is_amount t }
{
    match t {
        Ty::None | Ty::Bool | Ty::U64 => false,
        Ty::U8 | Ty::S8 | Ty::U16 | Ty::S16 | Ty::U32 | Ty::S32 | Ty::S64 => true,
    }
}

pub fn is_shift(op: Op2) -> bool
    ensures { result ≡ base.is_shift op }
{
    match op {
        Op2::Shl | Op2::Shr => true,
        _ => false,
    }
}

/// Whether an open expression may have the operator.
pub fn is_arithmetic1(op: Op1) -> bool
    ensures { result ≡ spec.is_arithmetic1 op }
{
    match op {
        Op1::Not => false,
        _ => true,
    }
}

/// Whether an open expression may have the operator.
pub fn is_arithmetic2(op: Op2) -> bool
    ensures { result ≡ spec.is_arithmetic2 op }
{
    match op {
        Op2::Or | Op2::And | Op2::Eq | Op2::Ne | Op2::Lt | Op2::Gt | Op2::Le | Op2::Ge => false,
        _ => true,
    }
}

/// The type that an open expression takes where this one is wanted.
#[tactic(auto, unfolding(crate::specs::Typing::open_type))]
pub fn open_type(t: Ty) -> Ty
    ensures { result ≡ spec.open_type t }
{
    if is_numeric(t) { t } else { Ty::S32 }
}

/// What a prefix operator gives for an operand of this type.
#[tactic(auto, unfolding(crate::specs::Typing::result1))]
pub fn result1(op: Op1, t: Ty) -> Option<Ty>
    ensures { result ≡ spec.result1 op t }
{
    let takes = match op {
        Op1::Not => is_bool(t),
        Op1::Neg | Op1::Compl => is_numeric(t),
    };
    if takes { Some(t) } else { None }
}

fn if_bools(t: Ty, u: Ty) -> Option<Ty>
    ensures { result ≡ spec.if_bools t u }
{
    if is_bool(t) && is_bool(u) {
        Some(Ty::Bool)
    } else {
        None
    }
}

fn compared(t: Option<Ty>) -> Option<Ty>
    ensures { result ≡ spec.compared t }
{
    match t {
        Some(_) => Some(Ty::Bool),
        None => None,
    }
}

/// What a binary operator gives for operands of these types.
#[tactic(auto, unfolding(crate::specs::Typing::result2))]
pub fn result2(op: Op2, t: Ty, u: Ty) -> Option<Ty>
    ensures { result ≡ spec.result2 op t u }
{
    match op {
        Op2::Shl | Op2::Shr => {
            if is_numeric(t) && is_amount(u) {
                Some(t)
            } else {
                None
            }
        }
        Op2::Or | Op2::And => if_bools(t, u),
        Op2::Eq | Op2::Ne => match if_bools(t, u) {
            Some(b) => Some(b),
            None => compared(common(t, u)),
        },
        Op2::Lt | Op2::Gt | Op2::Le | Op2::Ge => compared(common(t, u)),
        Op2::BitOr
        | Op2::BitXor
        | Op2::BitAnd
        | Op2::Add
        | Op2::Sub
        | Op2::Mul
        | Op2::Div
        | Op2::Rem => common(t, u),
    }
}
