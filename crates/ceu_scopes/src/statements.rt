ghost use Rattle.std.specs.Prelude.{◌≡◌};
ghost use Rattle.ceu_tree.specs.declared.source.Item.{back-Item-value};
ghost use Rattle.ceu_scopes.specs.Answers.{Walks};
ghost use Rattle.ceu_scopes.specs.Names as spec;
ghost use Rattle.ceu_scopes.specs.Parts as parts;
ghost use Rattle.ceu_scopes.specs.Walk.{each};

use crate::known::Role;
use crate::scope::Border;
use crate::walk::Walk;
use ceu_base::{CheckError, Rule, Ty};
use ceu_tree::{Arm, Block, Class, Do, Exp, Ident, Item, Node, Range, Source, Stmt};
use std::alloc::Global;

fn value_broken(value: &Option<Source>) -> Option<Rule>
    ensures { result ≡ spec.value_broken (back-Item-value value.now) }
{
    match value {
        None => None,
        Some(source) => match source {
            Source::Start(_) => Some(Rule::N3),
            Source::Value(_) => None,
            Source::Wait(_) => None,
            Source::Done(_) => None,
        },
    }
}

#[tactic(auto, using(crate::proofs::Laws::steps, crate::proofs::StmtLaws::statements, crate::proofs::Sizes::sizes))]
impl Walk {
    fn emit(&mut self, name: &Ident, e: &Option<Exp>) -> Result<(), CheckError>
        ensures { Walks result self.new (spec.emit_walked name.now e.now self.old) }
    {
        self.named(Role::Emitted, name)?;
        self.if_exp(e)
    }

    fn leave(&mut self, label: &Option<Ident>, e: &Option<Exp>) -> Result<(), CheckError>
        ensures { Walks result self.new (spec.leave_walked label.now e.now self.old) }
    {
        self.escape(label)?;
        self.if_exp(e)
    }

    #[cycle(statements)]
    fn stmt(&mut self, alloc: Global, stmt: &Stmt) -> Result<(), CheckError>
        ensures { Walks result self.new (spec.stmt_walked stmt.now self.old) }
    {
        match stmt {
            Stmt::Nothing => Ok(()),
            Stmt::Break => Ok(()),
            Stmt::Continue => Ok(()),
            Stmt::Vars(ty, items) => self.items(alloc, *ty, items.items()),
            Stmt::AliasDecl(code, name, start) => self.alias(alloc, code, name, start),
            Stmt::Events(ty, names) => self.events(alloc, *ty, names.items()),
            Stmt::Inputs(ty, names) => self.ports(alloc, Class::Input, *ty, names.items()),
            Stmt::Outputs(ty, names) => self.ports(alloc, Class::Output, *ty, names.items()),
            Stmt::Pool(_, code, name) => self.pool(alloc, code, name),
            Stmt::Code(name, params, ty, body) => {
                let known = self.code_head(alloc, name, params.items(), *ty)?;
                self.block(alloc, body, Border::Plain)?;
                self.close();
                self.show(alloc, name, known)
            }
            Stmt::Assign(name, source) => {
                self.assigned(name, source)?;
                self.source(alloc, source)
            }
            Stmt::Emit(name, e) => self.emit(name, e),
            Stmt::Await(awaited) => self.awaited(awaited),
            Stmt::Spawn(spawn) => self.spawn(spawn),
            Stmt::Kill(name) => self.named(Role::Alias, name),
            Stmt::Escape(label, e) => self.leave(label, e),
            Stmt::Do(body) => self.do_block(alloc, body),
            Stmt::Finalize(body) => self.block(alloc, body, Border::Plain),
            Stmt::If(arms, last) => {
                self.arms(alloc, arms.items())?;
                match last {
                    None => Ok(()),
                    Some(body) => self.block(alloc, body, Border::Plain),
                }
            }
            Stmt::Loop(_, body) => self.block(alloc, body, Border::Plain),
            Stmt::Range(range) => self.range(alloc, range),
            Stmt::Every(name, target, body) => {
                self.every_head(name, target)?;
                self.block(alloc, body, Border::Plain)
            }
            Stmt::Watching(target, body) => {
                self.target(target)?;
                self.block(alloc, body, Border::Plain)
            }
            Stmt::Par(_, branches) => self.branches(alloc, branches.items()),
            Stmt::Async(names, body) => {
                let listed = self.list(alloc, names.items())?;
                self.block(alloc, body, Border::Async(listed))
            }
        }
    }

    /// A block behind this border.
    #[cycle(statements)]
    pub fn block(&mut self, alloc: Global, block: &Block, border: Border) -> Result<(), CheckError>
        ensures { Walks result self.new (spec.block_walked block.now border self.old) }
    {
        self.open(alloc, border)?;
        self.nodes(alloc, block.list.items())?;
        self.close();
        Ok(())
    }

    #[cycle(statements)]
    fn nodes(&mut self, alloc: Global, nodes: &[Node]) -> Result<(), CheckError>
        ensures { Walks result self.new (each parts.statement_walked nodes.now self.old) }
    {
        for node in nodes {
            self.stmt(alloc, &node.stmt)?;
        }
        Ok(())
    }

    #[cycle(statements)]
    fn items(&mut self, alloc: Global, ty: Ty, items: &[Item]) -> Result<(), CheckError>
        ensures { Walks result self.new (each (parts.item_walked ty) items.now self.old) }
    {
        for item in items {
            self.item(alloc, ty, item)?;
        }
        Ok(())
    }

    #[cycle(statements)]
    fn item(&mut self, alloc: Global, ty: Ty, item: &Item) -> Result<(), CheckError>
        ensures { Walks result self.new (parts.item_walked ty item.now self.old) }
    {
        let known = self.fresh(Class::Var, 0)?;
        self.declare(alloc, Class::Var, ty, value_broken(&item.value), &item.name)?;
        self.value(alloc, &item.value)?;
        self.show(alloc, &item.name, known)
    }

    #[cycle(statements)]
    fn value(&mut self, alloc: Global, value: &Option<Source>) -> Result<(), CheckError>
        ensures { Walks result self.new (spec.value_walked (back-Item-value value.now) self.old) }
    {
        match value {
            None => Ok(()),
            Some(source) => self.source(alloc, source),
        }
    }

    #[cycle(statements)]
    fn source(&mut self, alloc: Global, source: &Source) -> Result<(), CheckError>
        ensures { Walks result self.new (spec.source_walked source.now self.old) }
    {
        match source {
            Source::Value(e) => self.exp(e),
            Source::Wait(awaited) => self.awaited(awaited),
            Source::Start(spawn) => self.spawn(spawn),
            Source::Done(body) => self.do_block(alloc, body),
        }
    }

    #[cycle(statements)]
    fn do_block(&mut self, alloc: Global, body: &Do) -> Result<(), CheckError>
        ensures { Walks result self.new (spec.do_walked body.now self.old) }
    {
        self.label(alloc, &body.label)?;
        self.block(alloc, &body.body, Border::Plain)?;
        self.unlabel(&body.label);
        Ok(())
    }

    #[cycle(statements)]
    fn arms(&mut self, alloc: Global, arms: &[Arm]) -> Result<(), CheckError>
        ensures { Walks result self.new (each spec.arm_walked arms.now self.old) }
    {
        for arm in arms {
            self.arm(alloc, arm)?;
        }
        Ok(())
    }

    #[cycle(statements)]
    fn arm(&mut self, alloc: Global, arm: &Arm) -> Result<(), CheckError>
        ensures { Walks result self.new (spec.arm_walked arm.now self.old) }
    {
        self.exp(&arm.cond)?;
        self.block(alloc, &arm.body, Border::Plain)
    }

    #[cycle(statements)]
    fn range(&mut self, alloc: Global, range: &Range) -> Result<(), CheckError>
        ensures { Walks result self.new (spec.range_walked range.now self.old) }
    {
        self.exp(&range.a)?;
        self.exp(&range.b)?;
        self.range_variable(alloc, &range.name)?;
        self.block(alloc, &range.body, Border::Plain)?;
        self.close();
        Ok(())
    }

    #[cycle(statements)]
    fn branches(&mut self, alloc: Global, branches: &[Block]) -> Result<(), CheckError>
        ensures { Walks result self.new (each parts.branch_walked branches.now self.old) }
    {
        for branch in branches {
            self.block(alloc, branch, Border::Plain)?;
        }
        Ok(())
    }
}
