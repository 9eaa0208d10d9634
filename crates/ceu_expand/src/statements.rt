ghost use Rattle.std.specs.Prelude.{◌≡◌, [], ◌∷◌, OnOk, IfOk, None};
ghost use Rattle.ceu_expand.specs.Draft.{block_of, around_block, of_program};
ghost use Rattle.ceu_expand.specs.Lists.{each, gathered};
ghost use Rattle.ceu_expand.specs.Parts.{target_awaited};
ghost use Rattle.ceu_expand.specs.Expansion as spec;

use crate::around::Around;
use crate::draft::{Draft, Parts, count_of, own};
use ceu_base::{Name, Pos, Seq, Ty};
use ceu_scopes::Scopes;
use ceu_tree::{
    Arm, Block, Do, Exp, Ident, Item, KArm, KBlock, KCode, KKind, KLoop, KStmt, Loc, Node, ParKind,
    Param, Range, Source, Stmt, Target,
};
use ceu_types::Types;
use std::alloc::{AllocError, Global};

/// How many declarations with slots a statement has for its block.
#[tactic(auto, using(crate::proofs::Forms::slots))]
fn declared(stmt: &Stmt) -> Result<u32, AllocError>
    ensures { IfOk result (λ n. n ≡ spec.declared_by stmt.now) }
{
    match stmt {
        Stmt::Vars(_, items) => count_of(items.items().len()),
        Stmt::AliasDecl(_, _, _) => Ok(1),
        Stmt::Pool(_, _, _) => Ok(1),
        Stmt::Nothing => Ok(0),
        Stmt::Break => Ok(0),
        Stmt::Continue => Ok(0),
        Stmt::Events(_, _) => Ok(0),
        Stmt::Inputs(_, _) => Ok(0),
        Stmt::Outputs(_, _) => Ok(0),
        Stmt::Code(_, _, _, _) => Ok(0),
        Stmt::Assign(_, _) => Ok(0),
        Stmt::Emit(_, _) => Ok(0),
        Stmt::Await(_) => Ok(0),
        Stmt::Spawn(_) => Ok(0),
        Stmt::Kill(_) => Ok(0),
        Stmt::Escape(_, _) => Ok(0),
        Stmt::Do(_) => Ok(0),
        Stmt::Finalize(_) => Ok(0),
        Stmt::If(_, _) => Ok(0),
        Stmt::Loop(_, _) => Ok(0),
        Stmt::Range(_) => Ok(0),
        Stmt::Every(_, _, _) => Ok(0),
        Stmt::Watching(_, _) => Ok(0),
        Stmt::Par(_, _) => Ok(0),
        Stmt::Async(_, _) => Ok(0),
    }
}

#[tactic(auto, using(crate::proofs::Forms::slots))]
fn declared_in(nodes: &[Node]) -> Result<u32, AllocError>
    ensures { IfOk result (λ n. n ≡ spec.declared_all nodes.now) }
{
    let mut count = 0u32;
    for node in nodes {
        count = count.checked_add(declared(&node.stmt)?).ok_or(AllocError)?;
    }
    Ok(count)
}

#[tactic(auto, unfolding(crate::specs::Expansion::par_hidden))]
fn slots_of(kind: ParKind, branches: usize) -> Result<u32, AllocError>
    ensures { IfOk result (λ n. n ≡ spec.par_hidden kind branches) }
{
    match kind {
        ParKind::And => count_of(branches),
        ParKind::Or => Ok(0),
        ParKind::Never => Ok(0),
    }
}

#[tactic(auto, unfolding(crate::specs::Expansion::par_slot))]
fn par_slot(kind: ParKind, slot: u32) -> u32
    ensures { result ≡ spec.par_slot kind slot }
{
    match kind {
        ParKind::And => slot,
        ParKind::Or => 0,
        ParKind::Never => 0,
    }
}

fn pair(alloc: Global, first: KBlock, second: KBlock) -> Result<Seq<KBlock>, AllocError>
    ensures { IfOk result (λ bs. bs ≡ first ∷ second ∷ []) }
{
    let mut blocks = Seq::new(alloc);
    blocks.push(first)?;
    blocks.push(second)?;
    Ok(blocks)
}

impl Draft {
    #[cycle(statements)]
    #[tactic(auto, using(crate::proofs::Forms::forms, crate::proofs::Lists::lists, crate::proofs::Sizes::sizes))]
    fn stmt(
        &mut self,
        alloc: Global,
        scopes: &Scopes,
        types: &Types,
        around: Around,
        pos: Pos,
        stmt: &Stmt,
    ) -> Result<(), AllocError>
        ensures { OnOk result (self.new ≡ spec.stmt_written scopes.now types.now around pos stmt.now self.old) }
    {
        match stmt {
            Stmt::Nothing => self.simple(pos, KStmt::Nothing),
            Stmt::Break => self.simple(pos, KStmt::Break(around.turns)),
            Stmt::Continue => self.simple(pos, KStmt::Continue(around.turns)),
            Stmt::Vars(ty, items) => {
                self.items(alloc, scopes, types, around, pos, *ty, items.items())
            }
            Stmt::AliasDecl(_, x, start) => self.alias(alloc, scopes, types, pos, x, start),
            Stmt::Events(ty, names) => self.events(around.code, *ty, names.items()),
            Stmt::Inputs(ty, names) => self.inputs(alloc, *ty, names.items()),
            Stmt::Outputs(ty, names) => self.outputs(alloc, *ty, names.items()),
            Stmt::Pool(places, _, x) => self.pool(alloc, scopes, *places, x),
            Stmt::Code(name, params, ty, body) => {
                let outside = self.begin_code(alloc, params.items())?;
                let around = self.around_code()?;
                let body = self.block(alloc, scopes, types, around, body)?;
                self.end_code(alloc, name, *ty, body, outside)
            }
            Stmt::Assign(x, source) => {
                let into = self.variable(scopes, x)?;
                self.source(alloc, scopes, types, around, pos, into, source)
            }
            Stmt::Emit(_, exp) => self.emit(alloc, scopes, types, pos, exp),
            Stmt::Await(awaited) => self.wait(alloc, scopes, types, pos, None, awaited),
            Stmt::Spawn(spawn) => self.spawn(alloc, scopes, types, None, spawn),
            Stmt::Kill(_) => self.kill(scopes, pos),
            Stmt::Escape(label, exp) => {
                self.escape(alloc, scopes, types, around, pos, label, exp)
            }
            Stmt::Do(body) => self.do_block(alloc, scopes, types, around, pos, None, body),
            Stmt::Finalize(body) => {
                let node = self.begin()?;
                let body = self.block(alloc, scopes, types, around, body)?;
                self.place(node, pos, KStmt::Finalize(body))
            }
            Stmt::If(arms, last) => {
                let node = self.begin()?;
                let arms = self.arms(alloc, scopes, types, around, arms.items())?;
                let last = self.last(alloc, scopes, types, around, last)?;
                self.place(node, pos, KStmt::If(arms, last))
            }
            Stmt::Loop(limit, body) => {
                let node = self.begin()?;
                let turns = self.turns(*limit)?;
                let body = self.block(alloc, scopes, types, around.in_loop(node), body)?;
                self.place(node, pos, KStmt::Loop(turns, body))
            }
            Stmt::Range(range) => self.range(alloc, scopes, types, around, pos, range),
            Stmt::Every(x, target, body) => {
                self.every(alloc, scopes, types, around, pos, x, target, body)
            }
            Stmt::Watching(target, body) => {
                let node = self.begin()?;
                let first = self.waiting(alloc, scopes, types, pos, target)?;
                let second = self.block(alloc, scopes, types, around, body)?;
                let branches = pair(alloc, first, second)?;
                self.place(node, pos, KStmt::Par(ParKind::Or, 0, branches))
            }
            Stmt::Par(kind, branches) => {
                let node = self.begin()?;
                let slot = self.hide(slots_of(*kind, branches.items().len())?)?;
                let branches = self.blocks(alloc, scopes, types, around, branches.items())?;
                self.place(
                    node,
                    pos,
                    KStmt::Par(*kind, par_slot(*kind, slot), branches),
                )
            }
            Stmt::Async(names, body) => {
                let node = self.begin()?;
                self.listed(scopes, names.items())?;
                let body = self.block(alloc, scopes, types, around, body)?;
                self.place(node, pos, KStmt::Async(body))
            }
        }
    }

    #[cycle(statements)]
    #[tactic(auto, using(crate::proofs::Forms::forms, crate::proofs::Lists::lists, crate::proofs::Sizes::sizes))]
    fn block(
        &mut self,
        alloc: Global,
        scopes: &Scopes,
        types: &Types,
        around: Around,
        block: &Block,
    ) -> Result<KBlock, AllocError>
        ensures block { IfOk result (λ x. x ≡ spec.block_written scopes.now types.now around block.now self.old) }
        ensures after { OnOk result (self.new ≡ spec.block_passed scopes.now types.now around block.now self.old) }
    {
        let nodes = block.list.items();
        let outside = self.open(alloc, declared_in(nodes)?)?;
        self.nodes(alloc, scopes, types, around, nodes)?;
        Ok(self.close(outside))
    }

    #[cycle(statements)]
    #[tactic(auto, using(crate::proofs::Forms::forms, crate::proofs::Lists::lists, crate::proofs::Sizes::sizes))]
    fn nodes(
        &mut self,
        alloc: Global,
        scopes: &Scopes,
        types: &Types,
        around: Around,
        nodes: &[Node],
    ) -> Result<(), AllocError>
        ensures { OnOk result (self.new ≡ each (spec.node_step scopes.now types.now around) nodes.now self.old) }
    {
        for node in nodes {
            self.stmt(alloc, scopes, types, around, node.pos, &node.stmt)?;
        }
        Ok(())
    }

    #[cycle(statements)]
    #[tactic(auto, using(crate::proofs::Forms::forms, crate::proofs::Lists::lists, crate::proofs::Sizes::sizes))]
    fn items(
        &mut self,
        alloc: Global,
        scopes: &Scopes,
        types: &Types,
        around: Around,
        pos: Pos,
        ty: Ty,
        items: &[Item],
    ) -> Result<(), AllocError>
        ensures { OnOk result (self.new ≡ each (spec.item_step scopes.now types.now around pos ty) items.now self.old) }
    {
        for item in items {
            self.item(alloc, scopes, types, around, pos, ty, item)?;
        }
        Ok(())
    }

    #[cycle(statements)]
    #[tactic(auto, using(crate::proofs::Forms::forms, crate::proofs::Lists::lists, crate::proofs::Sizes::sizes))]
    fn item(
        &mut self,
        alloc: Global,
        scopes: &Scopes,
        types: &Types,
        around: Around,
        pos: Pos,
        ty: Ty,
        item: &Item,
    ) -> Result<(), AllocError>
        ensures { OnOk result (self.new ≡ spec.item_step scopes.now types.now around pos ty item.now self.old) }
    {
        let slot = self.declare(alloc, KKind::Var(ty), &item.name)?;
        let into = own(slot, ty);
        match &item.value {
            None => self.zero(pos, into),
            Some(source) => self.source(alloc, scopes, types, around, pos, into, source),
        }
    }

    #[cycle(statements)]
    #[tactic(auto, using(crate::proofs::Forms::forms, crate::proofs::Lists::lists, crate::proofs::Sizes::sizes))]
    fn source(
        &mut self,
        alloc: Global,
        scopes: &Scopes,
        types: &Types,
        around: Around,
        pos: Pos,
        into: Loc,
        source: &Source,
    ) -> Result<(), AllocError>
        ensures { OnOk result (self.new ≡ spec.source_written scopes.now types.now around pos into source.now self.old) }
    {
        match source {
            Source::Value(exp) => self.assign(alloc, scopes, types, pos, into, exp),
            Source::Wait(awaited) => self.wait(alloc, scopes, types, pos, Some(into), awaited),
            Source::Start(spawn) => self.spawn(alloc, scopes, types, Some(into.slot), spawn),
            Source::Done(body) => {
                self.do_block(alloc, scopes, types, around, pos, Some(into), body)
            }
        }
    }

    #[cycle(statements)]
    #[tactic(auto, using(crate::proofs::Forms::forms, crate::proofs::Lists::lists, crate::proofs::Sizes::sizes))]
    fn do_block(
        &mut self,
        alloc: Global,
        scopes: &Scopes,
        types: &Types,
        around: Around,
        pos: Pos,
        into: Option<Loc>,
        body: &Do,
    ) -> Result<(), AllocError>
        ensures { OnOk result (self.new ≡ spec.do_written scopes.now types.now around pos into body.now self.old) }
    {
        let node = self.begin()?;
        self.labelled(alloc, &body.label, node)?;
        let around = around.in_do(&body.label, node);
        let made = self.block(alloc, scopes, types, around, &body.body)?;
        self.unlabelled(&body.label);
        self.place(node, pos, KStmt::Do(into, made))
    }

    #[cycle(statements)]
    #[tactic(auto, using(crate::proofs::Forms::forms, crate::proofs::Lists::lists, crate::proofs::Sizes::sizes))]
    fn arm(
        &mut self,
        alloc: Global,
        scopes: &Scopes,
        types: &Types,
        around: Around,
        arm: &Arm,
    ) -> Result<KArm, AllocError>
        ensures arm { IfOk result (λ x. x ≡ spec.arm_written scopes.now types.now around arm.now self.old) }
        ensures after { OnOk result (self.new ≡ spec.arm_passed scopes.now types.now around arm.now self.old) }
    {
        let cond = self.exp(alloc, scopes, types, &arm.cond)?;
        let body = self.block(alloc, scopes, types, around, &arm.body)?;
        Ok(KArm { cond, body })
    }

    #[cycle(statements)]
    #[tactic(auto, using(crate::proofs::Forms::forms, crate::proofs::Lists::lists, crate::proofs::Sizes::sizes))]
    fn arms(
        &mut self,
        alloc: Global,
        scopes: &Scopes,
        types: &Types,
        around: Around,
        arms: &[Arm],
    ) -> Result<Seq<KArm>, AllocError>
        ensures arms { IfOk result (λ x. x ≡ gathered (spec.arm_written scopes.now types.now around) (spec.arm_passed scopes.now types.now around) arms.now self.old) }
        ensures after { OnOk result (self.new ≡ each (spec.arm_passed scopes.now types.now around) arms.now self.old) }
    {
        let mut made = Seq::new(alloc);
        for arm in arms {
            made.push(self.arm(alloc, scopes, types, around, arm)?)?;
        }
        Ok(made)
    }

    #[cycle(statements)]
    #[tactic(auto, using(crate::proofs::Forms::forms, crate::proofs::Lists::lists, crate::proofs::Sizes::sizes))]
    fn last(
        &mut self,
        alloc: Global,
        scopes: &Scopes,
        types: &Types,
        around: Around,
        last: &Option<Block>,
    ) -> Result<KBlock, AllocError>
        ensures block { IfOk result (λ x. x ≡ spec.if_block_written scopes.now types.now around last.now self.old) }
        ensures after { OnOk result (self.new ≡ spec.if_block_passed scopes.now types.now around last.now self.old) }
    {
        match last {
            None => self.empty(alloc),
            Some(body) => self.block(alloc, scopes, types, around, body),
        }
    }

    #[cycle(statements)]
    #[tactic(auto, using(crate::proofs::Forms::forms, crate::proofs::Lists::lists, crate::proofs::Sizes::sizes))]
    fn blocks(
        &mut self,
        alloc: Global,
        scopes: &Scopes,
        types: &Types,
        around: Around,
        blocks: &[Block],
    ) -> Result<Seq<KBlock>, AllocError>
        ensures blocks { IfOk result (λ x. x ≡ gathered (spec.block_written scopes.now types.now around) (spec.block_passed scopes.now types.now around) blocks.now self.old) }
        ensures after { OnOk result (self.new ≡ each (spec.block_passed scopes.now types.now around) blocks.now self.old) }
    {
        let mut made = Seq::new(alloc);
        for block in blocks {
            made.push(self.block(alloc, scopes, types, around, block)?)?;
        }
        Ok(made)
    }

    #[tactic(auto, unfolding(crate::specs::Expansion::turns_written, crate::specs::Expansion::turns_passed))]
    fn turns(&mut self, limit: Option<u32>) -> Result<KLoop, AllocError>
        ensures turns { IfOk result (λ x. x ≡ spec.turns_written limit self.old) }
        ensures after { OnOk result (self.new ≡ spec.turns_passed limit self.old) }
    {
        match limit {
            None => Ok(KLoop::Free),
            Some(n) => Ok(KLoop::Times(self.hide(1)?, n)),
        }
    }

    #[tactic(auto, unfolding(crate::specs::Expansion::range_written, crate::specs::Expansion::range_passed, crate::specs::Draft::hidden))]
    fn range_turns(
        &mut self,
        alloc: Global,
        scopes: &Scopes,
        types: &Types,
        open_a: bool,
        a: &Exp,
        b: &Exp,
        open_b: bool,
    ) -> Result<KLoop, AllocError>
        ensures turns { IfOk result (λ x. x ≡ spec.range_written scopes.now types.now open_a a.now b.now open_b self.old) }
        ensures after { OnOk result (self.new ≡ spec.range_passed a.now b.now self.old) }
    {
        let variable = self.hide(1)?;
        let next = self.hide(1)?;
        let end = self.hide(1)?;
        let a = self.exp(alloc, scopes, types, a)?;
        let b = self.exp(alloc, scopes, types, b)?;
        self.stand(variable)?;
        Ok(KLoop::Range(variable, next, end, open_a, a, b, open_b))
    }

    #[cycle(statements)]
    #[tactic(auto, using(crate::proofs::Forms::forms, crate::proofs::Lists::lists, crate::proofs::Sizes::sizes))]
    fn range(
        &mut self,
        alloc: Global,
        scopes: &Scopes,
        types: &Types,
        around: Around,
        pos: Pos,
        range: &Range,
    ) -> Result<(), AllocError>
        ensures { OnOk result (self.new ≡ spec.ranged scopes.now types.now around pos range.now self.old) }
    {
        let node = self.begin()?;
        let turns = self.range_turns(
            alloc,
            scopes,
            types,
            range.open_a,
            &range.a,
            &range.b,
            range.open_b,
        )?;
        let body = self.block(alloc, scopes, types, around.in_loop(node), &range.body)?;
        self.place(node, pos, KStmt::Loop(turns, body))
    }

    /// `loop do await X; S end`
    #[cycle(statements)]
    #[tactic(auto, using(crate::proofs::Forms::forms, crate::proofs::Lists::lists, crate::proofs::Sizes::sizes))]
    fn every(
        &mut self,
        alloc: Global,
        scopes: &Scopes,
        types: &Types,
        around: Around,
        pos: Pos,
        x: &Option<Ident>,
        target: &Target,
        body: &Block,
    ) -> Result<(), AllocError>
        ensures { OnOk result (self.new ≡ spec.stmt_written scopes.now types.now around pos (Stmt.Every x.now target.now body.now) self.old) }
    {
        let nodes = body.list.items();
        let node = self.begin()?;
        let outside = self.open(alloc, declared_in(nodes)?)?;
        let into = self.every_variable(scopes, x)?;
        self.target_await(alloc, scopes, types, pos, into, target)?;
        self.nodes(alloc, scopes, types, around.in_loop(node), nodes)?;
        let body = self.close(outside);
        self.place(node, pos, KStmt::Loop(KLoop::Free, body))
    }

    fn waiting(
        &mut self,
        alloc: Global,
        scopes: &Scopes,
        types: &Types,
        pos: Pos,
        target: &Target,
    ) -> Result<KBlock, AllocError>
        ensures block { IfOk result (λ x. x ≡ block_of 0 (target_awaited scopes.now types.now pos None target.now) self.old) }
        ensures after { OnOk result (self.new ≡ around_block 0 (target_awaited scopes.now types.now pos None target.now) self.old) }
    {
        let outside = self.open(alloc, 0)?;
        self.target_await(alloc, scopes, types, pos, None, target)?;
        Ok(self.close(outside))
    }

    /// Code begins, with its parameters. What the block around it has so far.
    #[tactic(auto, unfolding(crate::specs::Expansion::code_begun, crate::specs::Draft::standing))]
    fn begin_code(&mut self, alloc: Global, params: &[Param]) -> Result<Parts, AllocError>
        ensures outside { IfOk result (λ o. o ≡ self.old.parts) }
        ensures after { OnOk result (self.new ≡ spec.code_begun params.now self.old) }
    {
        let code = count_of(self.codes.items().len())?;
        self.stand(code)?;
        let outside = self.enter(alloc, count_of(params.len())?)?;
        self.params(alloc, params)?;
        Ok(outside)
    }

    /// What stands around the body of the code that comes next.
    #[tactic(auto, unfolding(crate::specs::Expansion::code_around))]
    fn around_code(&self) -> Result<Around, AllocError>
        ensures { IfOk result (λ a. a ≡ spec.code_around self.now) }
    {
        let code = count_of(self.codes.items().len())?;
        Ok(Around::of_code(self.node, code))
    }

    /// Code ends, which has this body.
    #[tactic(auto, unfolding(crate::specs::Expansion::code_ended))]
    fn end_code(
        &mut self,
        alloc: Global,
        x: &Ident,
        ty: Ty,
        body: KBlock,
        outside: Parts,
    ) -> Result<(), AllocError>
        ensures { OnOk result (self.new ≡ spec.code_ended x.now ty body outside self.old) }
    {
        let name = Name::new(alloc, x.name.text())?;
        let params = self.leave(outside);
        self.code(KCode {
            name,
            params,
            result: ty,
            body,
        })
    }

    /// The program's text.
    pub fn program(
        &mut self,
        alloc: Global,
        scopes: &Scopes,
        types: &Types,
        body: &Block,
    ) -> Result<KBlock, AllocError>
        ensures block { IfOk result (λ x. x ≡ spec.block_written scopes.now types.now of_program body.now self.old) }
        ensures after { OnOk result (self.new ≡ spec.block_passed scopes.now types.now of_program body.now self.old) }
    {
        self.block(alloc, scopes, types, Around::of_program(), body)
    }
}
