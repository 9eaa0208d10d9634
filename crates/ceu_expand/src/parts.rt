ghost use Rattle.std.specs.Prelude.{◌≡◌, OnOk, IfOk};
ghost use Rattle.ceu_expand.specs.Draft.{event_declared, input_declared, output_declared, block_of, around_block};
ghost use Rattle.ceu_expand.specs.Uses.{names_output, use_number, used, if_variable, if_used};
ghost use Rattle.ceu_expand.specs.Expressions.{if_exp_passed};
ghost use Rattle.ceu_expand.specs.Lists.{each};
ghost use Rattle.ceu_expand.specs.Parts as spec;

use crate::around::Around;
use crate::draft::Draft;
use crate::expressions::constant;
use crate::names::names_output;
use ceu_base::{Pos, Seq, Ty};
use ceu_scopes::Scopes;
use ceu_tree::{
    Await, Call, Exp, Ident, KArm, KBlock, KKind, KLoop, KStmt, Loc, Param, Spawn, Target, Unit,
};
use ceu_types::Types;
use std::alloc::{AllocError, Global};

impl Draft {
    /// Zero or false.
    pub fn zero(&mut self, pos: Pos, into: Loc) -> Result<(), AllocError>
        ensures { OnOk result (self.new ≡ spec.zeroed pos into self.old) }
    {
        let node = self.begin()?;
        self.place(node, pos, KStmt::Assign(into, constant(into.ty, pos, 0)))
    }

    pub fn assign(
        &mut self,
        alloc: Global,
        scopes: &Scopes,
        types: &Types,
        pos: Pos,
        into: Loc,
        exp: &Exp,
    ) -> Result<(), AllocError>
        ensures { OnOk result (self.new ≡ spec.assigned scopes.now types.now pos into exp.now self.old) }
    {
        let node = self.begin()?;
        let value = self.exp(alloc, scopes, types, exp)?;
        self.place(node, pos, KStmt::Assign(into, value))
    }

    fn sent(
        &mut self,
        alloc: Global,
        scopes: &Scopes,
        types: &Types,
        exp: &Option<Exp>,
    ) -> Result<KStmt, AllocError>
        ensures stmt { IfOk result (λ st. st ≡ spec.sent scopes.now types.now (names_output scopes.now self.old.uses) (use_number scopes.now self.old) exp.now (used self.old)) }
        ensures after { OnOk result (self.new ≡ if_exp_passed exp.now (used self.old)) }
    {
        let output = names_output(scopes, self.uses);
        let number = self.used(scopes)?;
        let value = self.if_exp(alloc, scopes, types, exp)?;
        if output {
            Ok(KStmt::Out(number, value))
        } else {
            Ok(KStmt::Emit(number, value))
        }
    }

    #[tactic(auto, unfolding(crate::specs::Parts::emitted))]
    pub fn emit(
        &mut self,
        alloc: Global,
        scopes: &Scopes,
        types: &Types,
        pos: Pos,
        exp: &Option<Exp>,
    ) -> Result<(), AllocError>
        ensures { OnOk result (self.new ≡ spec.emitted scopes.now types.now pos exp.now self.old) }
    {
        let node = self.begin()?;
        let stmt = self.sent(alloc, scopes, types, exp)?;
        self.place(node, pos, stmt)
    }

    #[tactic(auto, unfolding(crate::specs::Parts::await_written, crate::specs::Parts::target_passed))]
    fn awaited(
        &mut self,
        alloc: Global,
        scopes: &Scopes,
        types: &Types,
        pos: Pos,
        into: Option<Loc>,
        target: &Target,
    ) -> Result<KStmt, AllocError>
        ensures stmt { IfOk result (λ st. st ≡ spec.await_written scopes.now types.now pos into target.now self.old) }
        ensures after { OnOk result (self.new ≡ spec.target_passed target.now self.old) }
    {
        match target {
            Target::Ext(_) => Ok(KStmt::AwaitIn(self.used(scopes)?, into)),
            Target::Event(_) => Ok(KStmt::AwaitEvent(self.used(scopes)?, into)),
            Target::Time(us) => {
                let time = constant(Ty::S64, pos, i128::from(*us));
                Ok(KStmt::AwaitTime(time, Unit::Us, into))
            }
            Target::TimeExp(exp, unit) => {
                let time = self.exp(alloc, scopes, types, exp)?;
                Ok(KStmt::AwaitTime(time, *unit, into))
            }
        }
    }

    /// The await of a target.
    #[tactic(auto, unfolding(crate::specs::Parts::target_awaited))]
    pub fn target_await(
        &mut self,
        alloc: Global,
        scopes: &Scopes,
        types: &Types,
        pos: Pos,
        into: Option<Loc>,
        target: &Target,
    ) -> Result<(), AllocError>
        ensures { OnOk result (self.new ≡ spec.target_awaited scopes.now types.now pos into target.now self.old) }
    {
        let node = self.begin()?;
        let stmt = self.awaited(alloc, scopes, types, pos, into, target)?;
        self.place(node, pos, stmt)
    }

    /// A block without statements.
    pub fn empty(&mut self, alloc: Global) -> Result<KBlock, AllocError>
        ensures block { IfOk result (λ b. b ≡ block_of 0 spec.nothing_in self.old) }
        ensures after { OnOk result (self.new ≡ around_block 0 spec.nothing_in self.old) }
    {
        let outside = self.open(alloc, 0)?;
        Ok(self.close(outside))
    }

    fn breaking(&mut self, alloc: Global, pos: Pos, turns: u32) -> Result<KBlock, AllocError>
        ensures block { IfOk result (λ b. b ≡ block_of 0 (spec.simple pos (KStmt.Break turns)) self.old) }
        ensures after { OnOk result (self.new ≡ around_block 0 (spec.simple pos (KStmt.Break turns)) self.old) }
    {
        let outside = self.open(alloc, 0)?;
        let node = self.begin()?;
        self.place(node, pos, KStmt::Break(turns))?;
        Ok(self.close(outside))
    }

    /// `if c then break; end` in the loop at this node.
    #[tactic(auto, unfolding(crate::specs::Parts::broken_if))]
    fn break_if(
        &mut self,
        alloc: Global,
        scopes: &Scopes,
        types: &Types,
        pos: Pos,
        turns: u32,
        cond: &Exp,
    ) -> Result<(), AllocError>
        ensures { OnOk result (self.new ≡ spec.broken_if scopes.now types.now turns pos cond.now self.old) }
    {
        let node = self.begin()?;
        let cond = self.exp(alloc, scopes, types, cond)?;
        let body = self.breaking(alloc, pos, turns)?;
        let mut arms = Seq::new(alloc);
        arms.push(KArm { cond, body })?;
        let last = self.empty(alloc)?;
        self.place(node, pos, KStmt::If(arms, last))
    }

    /// `loop do await X; if c then break; end end`
    #[tactic(auto, unfolding(crate::specs::Parts::awaited_until))]
    fn until(
        &mut self,
        alloc: Global,
        scopes: &Scopes,
        types: &Types,
        pos: Pos,
        into: Option<Loc>,
        target: &Target,
        cond: &Exp,
    ) -> Result<(), AllocError>
        ensures { OnOk result (self.new ≡ spec.awaited_until scopes.now types.now pos into target.now cond.now self.old) }
    {
        let node = self.begin()?;
        let outside = self.open(alloc, 0)?;
        self.target_await(alloc, scopes, types, pos, into, target)?;
        self.break_if(alloc, scopes, types, pos, node, cond)?;
        let body = self.close(outside);
        self.place(node, pos, KStmt::Loop(KLoop::Free, body))
    }

    fn forever(&mut self, pos: Pos) -> Result<(), AllocError>
        ensures { OnOk result (self.new ≡ spec.simple pos KStmt.Forever self.old) }
    {
        let node = self.begin()?;
        self.place(node, pos, KStmt::Forever)
    }

    #[tactic(auto, unfolding(crate::specs::Parts::code_awaited, crate::specs::Draft::begun))]
    fn code_await(
        &mut self,
        alloc: Global,
        scopes: &Scopes,
        types: &Types,
        pos: Pos,
        into: Option<Loc>,
        call: &Call,
    ) -> Result<(), AllocError>
        ensures { OnOk result (self.new ≡ spec.code_awaited scopes.now types.now pos into call.now self.old) }
    {
        let node = self.begin()?;
        let frame = self.hide(1)?;
        let code = self.used(scopes)?;
        let args = self.exps(alloc, scopes, types, call.args.items())?;
        self.place(node, pos, KStmt::AwaitCode(code, args, frame, into))
    }

    /// An await whose value is assigned.
    #[tactic(auto, unfolding(crate::specs::Parts::awaited))]
    pub fn wait(
        &mut self,
        alloc: Global,
        scopes: &Scopes,
        types: &Types,
        pos: Pos,
        into: Option<Loc>,
        awaited: &Await,
    ) -> Result<(), AllocError>
        ensures { OnOk result (self.new ≡ spec.awaited scopes.now types.now pos into awaited.now self.old) }
    {
        match awaited {
            Await::Forever => self.forever(pos),
            Await::Code(call) => self.code_await(alloc, scopes, types, pos, into, call),
            Await::On(target, until) => match until {
                None => self.target_await(alloc, scopes, types, pos, into, target),
                Some(cond) => self.until(alloc, scopes, types, pos, into, target, cond),
            },
        }
    }

    /// A spawn that sets an alias.
    #[tactic(auto, unfolding(crate::specs::Parts::spawned))]
    pub fn spawn(
        &mut self,
        alloc: Global,
        scopes: &Scopes,
        types: &Types,
        alias: Option<u32>,
        spawn: &Spawn,
    ) -> Result<(), AllocError>
        ensures { OnOk result (self.new ≡ spec.spawned scopes.now types.now alias spawn.now self.old) }
    {
        let node = self.begin()?;
        let code = self.used(scopes)?;
        let args = self.exps(alloc, scopes, types, spawn.call.args.items())?;
        let pool = self.used(scopes)?;
        self.place(node, spawn.pos, KStmt::Spawn(code, args, pool, alias))
    }

    fn unset(&mut self, pos: Pos, alias: u32) -> Result<(), AllocError>
        ensures { OnOk result (self.new ≡ spec.simple pos (KStmt.Unset alias) self.old) }
    {
        let node = self.begin()?;
        self.place(node, pos, KStmt::Unset(alias))
    }

    /// The declaration of an alias.
    #[tactic(auto, unfolding(crate::specs::Parts::alias_declared, crate::specs::Uses::used))]
    pub fn alias(
        &mut self,
        alloc: Global,
        scopes: &Scopes,
        types: &Types,
        pos: Pos,
        x: &Ident,
        start: &Option<Spawn>,
    ) -> Result<(), AllocError>
        ensures { OnOk result (self.new ≡ spec.alias_declared scopes.now types.now pos x.now start.now self.old) }
    {
        let code = self.used(scopes)?;
        let slot = self.declare(alloc, KKind::Alias(code), x)?;
        match start {
            None => self.unset(pos, slot),
            Some(spawn) => self.spawn(alloc, scopes, types, Some(slot), spawn),
        }
    }

    #[tactic(auto, unfolding(crate::specs::Parts::pool_declared))]
    pub fn pool(
        &mut self,
        alloc: Global,
        scopes: &Scopes,
        places: u32,
        x: &Ident,
    ) -> Result<(), AllocError>
        ensures { OnOk result (self.new ≡ spec.pool_declared scopes.now places x.now self.old) }
    {
        let code = self.used(scopes)?;
        self.declare(alloc, KKind::Pool(places, code), x)?;
        Ok(())
    }

    #[tactic(auto, unfolding(crate::specs::Parts::killed))]
    pub fn kill(&mut self, scopes: &Scopes, pos: Pos) -> Result<(), AllocError>
        ensures { OnOk result (self.new ≡ spec.killed scopes.now pos self.old) }
    {
        let node = self.begin()?;
        let alias = self.used(scopes)?;
        self.place(node, pos, KStmt::Kill(alias))
    }

    #[tactic(auto, unfolding(crate::specs::Parts::escaped, crate::specs::Draft::begun, crate::specs::Uses::target))]
    pub fn escape(
        &mut self,
        alloc: Global,
        scopes: &Scopes,
        types: &Types,
        around: Around,
        pos: Pos,
        label: &Option<Ident>,
        exp: &Option<Exp>,
    ) -> Result<(), AllocError>
        ensures { OnOk result (self.new ≡ spec.escaped scopes.now types.now around pos label.now exp.now self.old) }
    {
        let node = self.begin()?;
        let target = self.target(around, label);
        let value = self.if_exp(alloc, scopes, types, exp)?;
        self.place(node, pos, KStmt::Escape(target, value))
    }

    /// A statement without parts.
    pub fn simple(&mut self, pos: Pos, stmt: KStmt) -> Result<(), AllocError>
        ensures { OnOk result (self.new ≡ spec.simple pos stmt self.old) }
    {
        let node = self.begin()?;
        self.place(node, pos, stmt)
    }

    #[tactic(auto, using(crate::proofs::Lists::lists))]
    pub fn events(&mut self, code: Option<u32>, ty: Ty, names: &[Ident]) -> Result<(), AllocError>
        ensures { OnOk result (self.new ≡ each (event_declared code ty) names.now self.old) }
    {
        for x in names {
            self.event(code, ty, x)?;
        }
        Ok(())
    }

    #[tactic(auto, using(crate::proofs::Lists::lists))]
    pub fn inputs(&mut self, alloc: Global, ty: Ty, names: &[Ident]) -> Result<(), AllocError>
        ensures { OnOk result (self.new ≡ each (input_declared ty) names.now self.old) }
    {
        for x in names {
            self.input(alloc, ty, x)?;
        }
        Ok(())
    }

    #[tactic(auto, using(crate::proofs::Lists::lists))]
    pub fn outputs(&mut self, alloc: Global, ty: Ty, names: &[Ident]) -> Result<(), AllocError>
        ensures { OnOk result (self.new ≡ each (output_declared ty) names.now self.old) }
    {
        for x in names {
            self.output(alloc, ty, x)?;
        }
        Ok(())
    }

    #[tactic(auto, using(crate::proofs::Lists::lists))]
    pub fn params(&mut self, alloc: Global, params: &[Param]) -> Result<(), AllocError>
        ensures { OnOk result (self.new ≡ each spec.param_declared params.now self.old) }
    {
        for param in params {
            self.declare(alloc, KKind::Var(param.ty), &param.name)?;
        }
        Ok(())
    }

    /// Goes past the names that an async lists.
    #[tactic(auto, using(crate::proofs::Lists::lists))]
    pub fn listed(&mut self, scopes: &Scopes, names: &[Ident]) -> Result<(), AllocError>
        ensures { OnOk result (self.new ≡ each spec.name_passed names.now self.old) }
    {
        for _ in names {
            self.used(scopes)?;
        }
        Ok(())
    }

    /// The variable that takes each value of an `every`.
    pub fn every_variable(
        &mut self,
        scopes: &Scopes,
        x: &Option<Ident>,
    ) -> Result<Option<Loc>, AllocError>
        ensures variable { IfOk result (λ l. l ≡ if_variable scopes.now x.now self.old) }
        ensures after { OnOk result (self.new ≡ if_used x.now self.old) }
    {
        match x {
            None => Ok(None),
            Some(x) => Ok(Some(self.variable(scopes, x)?)),
        }
    }
}
