ghost use Rattle.ceu_scopes.specs.Answers.{Walks};
ghost use Rattle.ceu_scopes.specs.Names as spec;

use crate::known::Role;
use crate::walk::Walk;
use ceu_base::CheckError;
use ceu_tree::{Await, Call, Exp, ExpNode, Spawn, Target};

#[tactic(auto, using(crate::proofs::Laws::steps, crate::proofs::ExpLaws::expressions))]
impl Walk {
    pub fn exp(&mut self, e: &Exp) -> Result<(), CheckError>
        ensures { Walks result self.new (spec.exp_walked e.now self.old) }
    {
        match &e.node {
            ExpNode::Number(_) => Ok(()),
            ExpNode::Bool(_) => Ok(()),
            ExpNode::Var(name) => self.named(Role::Read, name),
            ExpNode::Alive(name) => self.named(Role::Asked, name),
            ExpNode::One(_, a) => self.exp(a.get()),
            ExpNode::Two(_, a, b) => {
                self.exp(a.get())?;
                self.exp(b.get())
            }
            ExpNode::As(a, _) => self.exp(a.get()),
        }
    }

    fn exps(&mut self, exps: &[Exp]) -> Result<(), CheckError>
        ensures { Walks result self.new (spec.exps_walked exps.now self.old) }
    {
        for e in exps {
            self.exp(e)?;
        }
        Ok(())
    }

    pub fn if_exp(&mut self, e: &Option<Exp>) -> Result<(), CheckError>
        ensures { Walks result self.new (spec.if_exp_walked e.now self.old) }
    {
        match e {
            None => Ok(()),
            Some(e) => self.exp(e),
        }
    }

    fn call(&mut self, call: &Call) -> Result<(), CheckError>
        ensures { Walks result self.new (spec.call_walked call.now self.old) }
    {
        self.named(Role::Code, &call.code)?;
        self.exps(call.args.items())
    }

    pub fn spawn(&mut self, spawn: &Spawn) -> Result<(), CheckError>
        ensures { Walks result self.new (spec.spawn_walked spawn.now self.old) }
    {
        let code = self.used(Role::Code, &spawn.call.code)?;
        self.exps(spawn.call.args.items())?;
        self.pool_used(code.number, &spawn.pool)
    }

    pub fn if_spawn(&mut self, spawn: &Option<Spawn>) -> Result<(), CheckError>
        ensures { Walks result self.new (spec.if_spawn_walked spawn.now self.old) }
    {
        match spawn {
            None => Ok(()),
            Some(spawn) => self.spawn(spawn),
        }
    }

    pub fn target(&mut self, target: &Target) -> Result<(), CheckError>
        ensures { Walks result self.new (spec.target_walked target.now self.old) }
    {
        match target {
            Target::Ext(name) => self.named(Role::Input, name),
            Target::Event(name) => self.named(Role::Event, name),
            Target::Time(_) => Ok(()),
            Target::TimeExp(e, _) => self.exp(e),
        }
    }

    pub fn awaited(&mut self, awaited: &Await) -> Result<(), CheckError>
        ensures { Walks result self.new (spec.await_walked awaited.now self.old) }
    {
        match awaited {
            Await::Forever => Ok(()),
            Await::Code(call) => self.call(call),
            Await::On(target, until) => {
                self.target(target)?;
                self.if_exp(until)
            }
        }
    }
}
