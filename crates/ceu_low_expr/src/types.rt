// The type in which an operator works.
ghost use Rattle.std.specs.Prelude.{◌≡◌, ◌&&◌, int_le, [], ◌∷◌};
ghost use Rattle.ceu_base.specs.declared.kinds.Ty.TheVariants as ty;
ghost use Rattle.ceu_base.specs.Values as base;
ghost use Rattle.ceu_tree.specs.Typing as spec;
ghost use Rattle.ceu_shape.specs.Expressions as shape;

use ceu_base::{Op2, Ty};

fn is_test(op: Op2) -> bool
    ensures { result ≡ spec.is_test op }
{
    match op {
        Op2::Or | Op2::And | Op2::Eq | Op2::Ne | Op2::Lt | Op2::Gt | Op2::Le | Op2::Ge => true,
        _ => false,
    }
}

fn is_numeric(t: Ty) -> bool
    ensures { result ≡ base.is_numeric t }
{
    match t {
        Ty::None | Ty::Bool => false,
        Ty::U8 | Ty::S8 | Ty::U16 | Ty::S16 | Ty::U32 | Ty::S32 | Ty::U64 | Ty::S64 => true,
    }
}

fn number(t: Ty) -> u8
    ensures { result ≡ spec.ty_number t }
{
    match t {
        Ty::None => 0,
        Ty::Bool => 1,
        Ty::U8 => 2,
        Ty::S8 => 3,
        Ty::U16 => 4,
        Ty::S16 => 5,
        Ty::U32 => 6,
        Ty::S32 => 7,
        Ty::U64 => 8,
        Ty::S64 => 9,
    }
}

/// The least value of a type.
fn least(t: Ty) -> i128
    ensures { result ≡ base.least t }
{
    match t {
        Ty::S8 => -128,
        Ty::S16 => -32768,
        Ty::S32 => -2147483648,
        Ty::S64 => -9223372036854775808,
        _ => 0,
    }
}

/// The first number above the values of a type.
fn above(t: Ty) -> i128
    ensures { result ≡ base.above t }
{
    match t {
        Ty::None => 1,
        Ty::Bool => 2,
        Ty::U8 => 256,
        Ty::S8 => 128,
        Ty::U16 => 65536,
        Ty::S16 => 32768,
        Ty::U32 => 4294967296,
        Ty::S32 => 2147483648,
        Ty::U64 => 18446744073709551616,
        Ty::S64 => 9223372036854775808,
    }
}

fn begins_below(t: Ty, u: Ty) -> bool
    ensures { result ≡ int_le (base.least t) (base.least u) }
{
    least(t) <= least(u)
}

fn ends_above(t: Ty, u: Ty) -> bool
    ensures { result ≡ int_le (base.above u) (base.above t) }
{
    above(u) <= above(t)
}

fn is_same(t: Ty, u: Ty) -> bool
    ensures { result ≡ spec.same_ty t u }
{
    number(t) == number(u)
}

/// Whether a type holds every value of another.
fn holds_all(t: Ty, u: Ty) -> bool
    ensures { result ≡ spec.holds_all t u }
{
    is_same(t, u) || (is_numeric(t) && is_numeric(u) && begins_below(t, u) && ends_above(t, u))
}

fn holds_both(t: Ty, a: Ty, b: Ty) -> bool
    ensures { result ≡ (spec.holds_all t a && spec.holds_all t b) }
{
    holds_all(t, a) && holds_all(t, b)
}

fn first_signed(a: Ty, b: Ty) -> Option<Ty>
    ensures { result ≡ spec.first_that_holds a b (ty.S8 ∷ ty.S16 ∷ ty.S32 ∷ ty.S64 ∷ []) }
{
    if holds_both(Ty::S8, a, b) {
        Some(Ty::S8)
    } else if holds_both(Ty::S16, a, b) {
        Some(Ty::S16)
    } else if holds_both(Ty::S32, a, b) {
        Some(Ty::S32)
    } else if holds_both(Ty::S64, a, b) {
        Some(Ty::S64)
    } else {
        None
    }
}

/// The type that two operands take together, if there is one.
fn common(a: Ty, b: Ty) -> Option<Ty>
    ensures { result ≡ spec.common a b }
{
    if holds_all(a, b) {
        Some(a)
    } else if holds_all(b, a) {
        Some(b)
    } else {
        first_signed(a, b)
    }
}

/// The type in which an operator works whose result has the type `t`, on operands of the types `a` and `b`.
pub fn operator_ty(op: Op2, t: Ty, a: Ty, b: Ty) -> Ty
    ensures { result ≡ shape.operator_ty op t a b }
{
    if !is_test(op) {
        return t;
    }
    match common(a, b) {
        Some(shared) => shared,
        None => t,
    }
}
