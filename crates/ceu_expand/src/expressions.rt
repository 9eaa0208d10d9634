ghost use Rattle.std.specs.Prelude.{◌≡◌, OnOk, IfOk};
ghost use Rattle.ceu_base.specs.Values.{of_test};
ghost use Rattle.ceu_expand.specs.Expressions as spec;
ghost use Rattle.ceu_expand.specs.Lists.{each, gathered};

use crate::draft::{Draft, more_text};
use ceu_base::{Op1, Pos, Seq, Ty};
use ceu_scopes::Scopes;
use ceu_tree::{Exp, ExpNode, KExp, KExpNode};
use ceu_types::Types;
use sqlite_items::Boxed;
use std::alloc::{AllocError, Global};

/// The literal that a prefix `-` belongs to.
fn negated(op: Op1, exp: &Exp) -> Option<u64>
    ensures { result ≡ spec.negated op exp.now.node }
{
    match op {
        Op1::Neg => match &exp.node {
            ExpNode::Number(n) => Some(*n),
            ExpNode::Bool(_) => None,
            ExpNode::Var(_) => None,
            ExpNode::Alive(_) => None,
            ExpNode::One(_, _) => None,
            ExpNode::Two(_, _, _) => None,
            ExpNode::As(_, _) => None,
        },
        Op1::Not => None,
        Op1::Compl => None,
    }
}

fn type_at(types: &Types, place: usize) -> Ty
    ensures { result ≡ spec.type_at types.now place }
{
    match types.exps.items().get(place) {
        Some(ty) => *ty,
        None => Ty::None,
    }
}

fn truth(b: bool) -> i128
    ensures { result ≡ of_test b }
{
    if b { 1 } else { 0 }
}

pub fn constant(ty: Ty, pos: Pos, value: i128) -> KExp
    ensures { result ≡ spec.constant ty pos value }
{
    KExp {
        ty,
        pos,
        node: KExpNode::Const(value),
    }
}

impl Draft {
    /// Goes past the next expression. Its type.
    #[tactic(auto, unfolding(crate::specs::Expressions::typed, crate::specs::Expressions::next_type))]
    fn typed(&mut self, types: &Types) -> Result<Ty, AllocError>
        ensures ty { IfOk result (λ t. t ≡ spec.next_type types.now self.old) }
        ensures after { OnOk result (self.new ≡ spec.typed self.old) }
    {
        let ty = type_at(types, self.exps);
        self.exps = more_text(self.exps)?;
        Ok(ty)
    }

    #[tactic(auto, using(crate::proofs::ExpForms::forms, crate::proofs::Sizes::exp_sizes))]
    pub fn exp(
        &mut self,
        alloc: Global,
        scopes: &Scopes,
        types: &Types,
        exp: &Exp,
    ) -> Result<KExp, AllocError>
        ensures exp { IfOk result (λ e. e ≡ spec.exp_written scopes.now types.now exp.now self.old) }
        ensures after { OnOk result (self.new ≡ spec.exp_passed exp.now self.old) }
    {
        let pos = exp.pos;
        let ty = self.typed(types)?;
        match &exp.node {
            ExpNode::Number(n) => Ok(constant(ty, pos, i128::from(*n))),
            ExpNode::Bool(b) => Ok(constant(ty, pos, truth(*b))),
            ExpNode::Var(x) => {
                let node = KExpNode::Read(self.variable(scopes, x)?);
                Ok(KExp { ty, pos, node })
            }
            ExpNode::Alive(_) => {
                let node = KExpNode::Alive(self.used(scopes)?);
                Ok(KExp { ty, pos, node })
            }
            ExpNode::One(op, a) => match negated(*op, a.get()) {
                Some(n) => {
                    self.typed(types)?;
                    Ok(constant(ty, pos, -i128::from(n)))
                }
                None => {
                    let a = Boxed::new(alloc, self.exp(alloc, scopes, types, a.get())?)?;
                    let node = KExpNode::One(*op, a);
                    Ok(KExp { ty, pos, node })
                }
            },
            ExpNode::Two(op, a, b) => {
                let a = Boxed::new(alloc, self.exp(alloc, scopes, types, a.get())?)?;
                let b = Boxed::new(alloc, self.exp(alloc, scopes, types, b.get())?)?;
                let node = KExpNode::Two(*op, a, b);
                Ok(KExp { ty, pos, node })
            }
            ExpNode::As(a, _) => {
                let a = Boxed::new(alloc, self.exp(alloc, scopes, types, a.get())?)?;
                let node = KExpNode::As(a);
                Ok(KExp { ty, pos, node })
            }
        }
    }

    pub fn if_exp(
        &mut self,
        alloc: Global,
        scopes: &Scopes,
        types: &Types,
        exp: &Option<Exp>,
    ) -> Result<Option<KExp>, AllocError>
        ensures exp { IfOk result (λ e. e ≡ spec.if_exp_written scopes.now types.now exp.now self.old) }
        ensures after { OnOk result (self.new ≡ spec.if_exp_passed exp.now self.old) }
    {
        match exp {
            None => Ok(None),
            Some(e) => Ok(Some(self.exp(alloc, scopes, types, e)?)),
        }
    }

    #[tactic(auto, using(crate::proofs::Lists::lists))]
    pub fn exps(
        &mut self,
        alloc: Global,
        scopes: &Scopes,
        types: &Types,
        exps: &[Exp],
    ) -> Result<Seq<KExp>, AllocError>
        ensures exps { IfOk result (λ es. es ≡ gathered (spec.exp_written scopes.now types.now) spec.exp_passed exps.now self.old) }
        ensures after { OnOk result (self.new ≡ each spec.exp_passed exps.now self.old) }
    {
        let mut made = Seq::new(alloc);
        for exp in exps {
            made.push(self.exp(alloc, scopes, types, exp)?)?;
        }
        Ok(made)
    }
}
