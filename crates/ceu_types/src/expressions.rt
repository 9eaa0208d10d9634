ghost use Rattle.std.specs.Prelude.{◌≡◌, OnOk};
ghost use Rattle.ceu_base.specs.Values as base;
ghost use Rattle.ceu_types.specs.Expressions as spec;

use crate::found::Found;
use crate::kinds::{
    holds, is_amount, is_arithmetic1, is_arithmetic2, is_bool, is_none, is_shift, open_type,
};
use crate::operands::{Operand, joined, operand_of, or_int, or_none, prefixed, type_in};
use ceu_base::{Op1, Op2, Pos, Rule, Ty, is_value};
use ceu_scopes::Scopes;
use ceu_tree::{Exp, ExpNode};
use std::alloc::AllocError;

/// The literal that a prefix `-` belongs to.
fn negated(op: Op1, exp: &Exp) -> Option<u64>
    ensures { result ≡ spec.negated op exp.now.node }
{
    match op {
        Op1::Neg => match &exp.node {
            ExpNode::Number(n) => Some(*n),
            ExpNode::Bool(_) => None,
            ExpNode::Var(_) => None,
            ExpNode::Alive(_) => None,
            ExpNode::One(_, _) => None,
            ExpNode::Two(_, _, _) => None,
            ExpNode::As(_, _) => None,
        },
        Op1::Not => None,
        Op1::Compl => None,
    }
}

#[tactic(auto, unfolding(crate::specs::Expressions::fits))]
fn fits(ty: Ty, n: u64) -> bool
    ensures { result ≡ spec.fits ty n }
{
    is_value(ty, i128::from(n))
}

#[tactic(auto, unfolding(crate::specs::Expressions::negated_fits))]
fn negated_fits(ty: Ty, n: u64) -> bool
    ensures { result ≡ spec.negated_fits ty n }
{
    is_value(ty, -i128::from(n))
}

fn prefix_wanted(op: Op1, wanted: Ty) -> Ty
    ensures { result ≡ spec.prefix_wanted op wanted }
{
    if is_arithmetic1(op) { wanted } else { Ty::S32 }
}

fn beside_wanted(op: Op2, wanted: Ty, other: Operand) -> Ty
    ensures { result ≡ spec.beside_wanted op wanted other }
{
    if !other.is_open {
        or_int(other.ty)
    } else if is_arithmetic2(op) {
        wanted
    } else {
        Ty::S32
    }
}

#[tactic(auto, unfolding(crate::specs::Expressions::left_wanted))]
fn left_wanted(op: Op2, wanted: Ty, right: Operand) -> Ty
    ensures { result ≡ spec.left_wanted op wanted right }
{
    if is_shift(op) {
        wanted
    } else {
        beside_wanted(op, wanted, right)
    }
}

#[tactic(auto, unfolding(crate::specs::Expressions::right_wanted))]
fn right_wanted(op: Op2, wanted: Ty, left: Operand) -> Ty
    ensures { result ≡ spec.right_wanted op wanted left }
{
    if is_shift(op) {
        Ty::S32
    } else {
        beside_wanted(op, wanted, left)
    }
}

#[tactic(auto, unfolding(crate::specs::Expressions::meets1))]
fn meets1(op: Op1, x: Operand) -> bool
    ensures { result ≡ spec.meets1 op x }
{
    x.ty.is_none() || prefixed(op, x).ty.is_some()
}

#[tactic(auto, unfolding(crate::specs::Expressions::meets2))]
fn meets2(op: Op2, x: Operand, y: Operand) -> bool
    ensures { result ≡ spec.meets2 op x y }
{
    x.ty.is_none() || y.ty.is_none() || joined(op, x, y).ty.is_some()
}

#[tactic(auto, unfolding(crate::specs::Expressions::literal_found))]
fn literal_found(found: &mut Found, pos: Pos, fits: bool, ty: Ty) -> Result<(), AllocError>
    ensures { OnOk result (found.new ≡ spec.literal_found pos fits ty found.old) }
{
    found.asks(fits, Rule::T7, pos);
    found.typed(ty)
}

#[tactic(auto, using(crate::proofs::ExpForms::founds, crate::proofs::Sizes::sizes))]
pub fn exp_found(
    found: &mut Found,
    scopes: &Scopes,
    exp: &Exp,
    wanted: Ty,
) -> Result<(), AllocError>
    ensures { OnOk result (found.new ≡ spec.exp_found scopes.now exp.now wanted found.old) }
{
    match &exp.node {
        ExpNode::Number(n) => {
            let ty = open_type(wanted);
            literal_found(found, exp.pos, fits(ty, *n), ty)
        }
        ExpNode::Bool(_) => found.typed(Ty::Bool),
        ExpNode::Var(_) => {
            let ty = found.use_type(scopes);
            found.passes(scopes);
            found.typed(ty)
        }
        ExpNode::Alive(_) => {
            found.passes(scopes);
            found.typed(Ty::Bool)
        }
        ExpNode::One(op, a) => {
            let a = a.get();
            match negated(*op, a) {
                Some(n) => {
                    let ty = open_type(wanted);
                    literal_found(found, exp.pos, negated_fits(ty, n), ty)?;
                    found.typed(ty)
                }
                None => {
                    let mut place = found.names;
                    let x = operand_of(scopes, a, &mut place);
                    found.asks(meets1(*op, x), Rule::T1, exp.pos);
                    found.typed(or_none(type_in(prefixed(*op, x), wanted)))?;
                    exp_found(found, scopes, a, prefix_wanted(*op, wanted))
                }
            }
        }
        ExpNode::Two(op, a, b) => {
            let a = a.get();
            let b = b.get();
            let mut place = found.names;
            let left = operand_of(scopes, a, &mut place);
            let right = operand_of(scopes, b, &mut place);
            found.asks(meets2(*op, left, right), Rule::T1, exp.pos);
            found.typed(or_none(type_in(joined(*op, left, right), wanted)))?;
            exp_found(found, scopes, a, left_wanted(*op, wanted, right))?;
            exp_found(found, scopes, b, right_wanted(*op, wanted, left))
        }
        ExpNode::As(a, ty) => {
            found.asks(!is_none(*ty), Rule::T1, exp.pos);
            found.typed(*ty)?;
            exp_found(found, scopes, a.get(), Ty::S32)
        }
    }
}

/// The type that the expression takes at the next place, where this one is wanted.
fn type_of(found: &Found, scopes: &Scopes, exp: &Exp, wanted: Ty) -> Option<Ty>
    ensures { result ≡ spec.type_of scopes.now exp.now found.now.names wanted }
{
    let mut place = found.names;
    type_in(operand_of(scopes, exp, &mut place), wanted)
}

fn is_held(target: Ty, ty: Option<Ty>) -> bool
    ensures { result ≡ spec.is_held target ty }
{
    match ty {
        Some(t) => holds(target, t),
        None => true,
    }
}

/// An expression that is given to a target of this type.
#[tactic(auto, unfolding(crate::specs::Expressions::given))]
pub fn given(found: &mut Found, scopes: &Scopes, exp: &Exp, target: Ty) -> Result<(), AllocError>
    ensures { OnOk result (found.new ≡ spec.given scopes.now exp.now target found.old) }
{
    let ty = type_of(found, scopes, exp, target);
    found.asks(is_held(target, ty), Rule::T2, exp.pos);
    exp_found(found, scopes, exp, target)
}

fn is_truth(ty: Option<Ty>) -> bool
    ensures { result ≡ spec.is_truth ty }
{
    match ty {
        Some(t) => is_bool(t),
        None => true,
    }
}

#[tactic(auto, unfolding(crate::specs::Expressions::condition))]
pub fn condition(found: &mut Found, scopes: &Scopes, exp: &Exp) -> Result<(), AllocError>
    ensures { OnOk result (found.new ≡ spec.condition scopes.now exp.now found.old) }
{
    let ty = type_of(found, scopes, exp, Ty::Bool);
    found.asks(is_truth(ty), Rule::T3, exp.pos);
    exp_found(found, scopes, exp, Ty::Bool)
}

fn is_time(ty: Option<Ty>) -> bool
    ensures { result ≡ spec.is_time ty }
{
    match ty {
        Some(t) => is_amount(t),
        None => true,
    }
}

#[tactic(auto, unfolding(crate::specs::Expressions::time))]
pub fn time(found: &mut Found, scopes: &Scopes, exp: &Exp) -> Result<(), AllocError>
    ensures { OnOk result (found.new ≡ spec.time scopes.now exp.now found.old) }
{
    let ty = type_of(found, scopes, exp, Ty::S32);
    found.asks(is_time(ty), Rule::T1, exp.pos);
    exp_found(found, scopes, exp, Ty::S32)
}
