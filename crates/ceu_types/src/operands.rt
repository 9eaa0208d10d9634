ghost use Rattle.std.specs.Prelude.{◌≡◌, pos, neg_ℤ};
ghost use Rattle.ceu_types.specs.Expressions as spec;
ghost use Rattle.ceu_types.specs.Typing as typing;

use crate::kinds::{
    is_arithmetic1, is_arithmetic2, is_none, is_shift, open_type, result1, result2,
};
use crate::uses::{past, use_type};
use ceu_base::{Op1, Op2, Ty};
use ceu_scopes::Scopes;
use ceu_tree::{Exp, ExpNode};

/// An expression by itself: whether it is open, that is, made of integer literals and arithmetic, and its type where none is wanted,
/// or no type where the types of some part's operands don't meet.
#[derive(Clone, Copy, Debug, PartialEq, Eq)]
pub struct Operand {
    pub is_open: bool,
    pub ty: Option<Ty>,
}

fn closed(ty: Ty) -> Operand
    ensures { result ≡ spec.closed ty }
{
    Operand {
        is_open: false,
        ty: Some(ty),
    }
}

#[tactic(auto, unfolding(crate::specs::Expressions::prefixed))]
pub fn prefixed(op: Op1, x: Operand) -> Operand
    ensures { result ≡ spec.prefixed op x }
{
    let ty = match x.ty {
        Some(t) => result1(op, t),
        None => None,
    };
    Operand {
        is_open: is_arithmetic1(op) && x.is_open,
        ty,
    }
}

/// The type that an operand takes beside another.
fn beside(op: Op2, x: Operand, y: Operand) -> Option<Ty>
    ensures { result ≡ spec.beside op x y }
{
    match x.ty {
        Some(t) => {
            if x.is_open && !y.is_open && !is_shift(op) {
                Some(open_type(or_int(y.ty)))
            } else {
                Some(t)
            }
        }
        None => None,
    }
}

pub fn or_int(ty: Option<Ty>) -> Ty
    ensures { result ≡ typing.wanted_or_int ty }
{
    match ty {
        Some(t) => t,
        None => Ty::S32,
    }
}

pub fn or_none(ty: Option<Ty>) -> Ty
    ensures { result ≡ spec.or_none ty }
{
    match ty {
        Some(t) => t,
        None => Ty::None,
    }
}

fn met(op: Op2, t: Option<Ty>, u: Option<Ty>) -> Option<Ty>
    ensures { result ≡ spec.met op t u }
{
    match t {
        None => None,
        Some(t) => match u {
            None => None,
            Some(u) => result2(op, t, u),
        },
    }
}

fn is_joined_open(op: Op2, x: Operand, y: Operand) -> bool
    ensures { result ≡ spec.is_joined_open op x y }
{
    if is_shift(op) {
        x.is_open
    } else {
        is_arithmetic2(op) && x.is_open && y.is_open
    }
}

#[tactic(auto, unfolding(crate::specs::Expressions::joined))]
pub fn joined(op: Op2, x: Operand, y: Operand) -> Operand
    ensures { result ≡ spec.joined op x y }
{
    Operand {
        is_open: is_joined_open(op, x, y),
        ty: met(op, beside(op, x, y), beside(op, y, x)),
    }
}

#[tactic(auto, unfolding(crate::specs::Expressions::converted))]
fn converted(ty: Ty, x: Operand) -> Operand
    ensures { result ≡ spec.converted ty x }
{
    let converted = if is_none(ty) {
        None
    } else {
        match x.ty {
            Some(_) => Some(ty),
            None => None,
        }
    };
    Operand {
        is_open: false,
        ty: converted,
    }
}

/// The type that the expression takes where this one is wanted.
#[tactic(auto, unfolding(crate::specs::Expressions::type_in))]
pub fn type_in(x: Operand, wanted: Ty) -> Option<Ty>
    ensures { result ≡ spec.type_in x wanted }
{
    match x.ty {
        Some(t) => {
            if x.is_open {
                Some(open_type(wanted))
            } else {
                Some(t)
            }
        }
        None => None,
    }
}

/// What the expression is by itself. The place in the list of uses moves behind those of the expression.
#[tactic(auto, using(crate::proofs::ExpForms::operands, crate::proofs::Sizes::sizes))]
pub fn operand_of(scopes: &Scopes, exp: &Exp, place: &mut usize) -> Operand
    ensures value { result ≡ spec.operand_of scopes.now exp.now place.old }
    ensures place { place.new ≡ spec.exp_past scopes.now exp.now place.old }
{
    match &exp.node {
        ExpNode::Number(_) => Operand {
            is_open: true,
            ty: Some(Ty::S32),
        },
        ExpNode::Bool(_) => closed(Ty::Bool),
        ExpNode::Var(_) => {
            let ty = use_type(scopes, *place);
            *place = past(scopes, *place);
            closed(ty)
        }
        ExpNode::Alive(_) => {
            *place = past(scopes, *place);
            closed(Ty::Bool)
        }
        ExpNode::One(op, a) => prefixed(*op, operand_of(scopes, a.get(), place)),
        ExpNode::Two(op, a, b) => {
            let left = operand_of(scopes, a.get(), place);
            let right = operand_of(scopes, b.get(), place);
            joined(*op, left, right)
        }
        ExpNode::As(a, ty) => converted(*ty, operand_of(scopes, a.get(), place)),
    }
}
