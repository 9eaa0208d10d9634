ghost use Rattle.std.specs.Prelude.{◌≡◌, OnOk, fold};
ghost use Rattle.ceu_types.specs.Statements as spec;

use crate::around::Around;
use crate::expressions::{condition, given};
use crate::found::Found;
use crate::parts::{
    async_begun, async_ended, await_found, await_type, emit_found, escape_found, every_begun,
    every_ended, finalizer_begun, finalizer_ended, if_spawn_found, params_found, spawn_found,
    target_found,
};
use ceu_base::{Rule, Ty};
use ceu_scopes::Scopes;
use ceu_tree::{Arm, Block, Do, Item, Node, Source, Stmt};
use std::alloc::{AllocError, Global};

#[cycle(statements)]
#[tactic(auto, using(crate::proofs::StmtForms::forms, crate::proofs::StmtSizes::stmt_sizes))]
fn stmt_found(
    found: &mut Found,
    alloc: Global,
    scopes: &Scopes,
    around: Around,
    stmt: &Stmt,
) -> Result<(), AllocError>
    ensures { OnOk result (found.new ≡ spec.stmt_found scopes.now around stmt.now found.old) }
{
    match stmt {
        Stmt::Nothing => Ok(()),
        Stmt::Break => {
            found.not_in_finalizer();
            found.jumps(around);
            Ok(())
        }
        Stmt::Continue => {
            found.not_in_finalizer();
            found.jumps(around);
            Ok(())
        }
        Stmt::Vars(ty, items) => {
            found.not_in_finalizer();
            items_found(found, alloc, scopes, around, *ty, items.items())
        }
        Stmt::AliasDecl(_, _, start) => {
            found.acts();
            found.passes(scopes);
            if_spawn_found(found, scopes, start)
        }
        Stmt::Events(_, _) => {
            found.acts();
            Ok(())
        }
        Stmt::Inputs(_, _) => {
            found.acts();
            Ok(())
        }
        Stmt::Outputs(_, _) => {
            found.acts();
            Ok(())
        }
        Stmt::Pool(_, _, _) => {
            found.acts();
            found.passes(scopes);
            Ok(())
        }
        Stmt::Code(name, params, ty, body) => {
            params_found(found, name, params.items());
            block_found(found, alloc, scopes, Around::code(*ty), body)
        }
        Stmt::Assign(_, value) => {
            let ty = found.use_type(scopes);
            found.passes(scopes);
            source_found(found, alloc, scopes, around, ty, value)
        }
        Stmt::Emit(_, value) => emit_found(found, scopes, value),
        Stmt::Await(wait) => {
            found.waits();
            await_found(found, scopes, wait)
        }
        Stmt::Spawn(start) => spawn_found(found, scopes, start),
        Stmt::Kill(_) => {
            found.acts();
            found.passes(scopes);
            Ok(())
        }
        Stmt::Escape(label, value) => escape_found(found, scopes, around, label, value),
        Stmt::Do(body) => {
            found.not_in_finalizer();
            do_found(found, alloc, scopes, around, Ty::None, body)
        }
        Stmt::Finalize(body) => {
            finalizer_begun(found);
            block_found(found, alloc, scopes, around, body)?;
            finalizer_ended(found);
            Ok(())
        }
        Stmt::If(arms, last) => {
            found.not_in_finalizer();
            arms_found(found, alloc, scopes, around, arms.items())?;
            last_found(found, alloc, scopes, around, last)
        }
        Stmt::Loop(_, body) => {
            found.not_in_finalizer();
            block_found(found, alloc, scopes, around.of_loop(), body)
        }
        Stmt::Range(range) => {
            found.not_in_finalizer();
            given(found, scopes, &range.a, Ty::S32)?;
            given(found, scopes, &range.b, Ty::S32)?;
            block_found(found, alloc, scopes, around.of_loop(), &range.body)
        }
        Stmt::Every(variable, target, body) => {
            every_begun(found, scopes, variable, target)?;
            block_found(found, alloc, scopes, around.of_loop(), body)?;
            every_ended(found);
            Ok(())
        }
        Stmt::Watching(target, body) => {
            found.waits();
            target_found(found, scopes, target)?;
            block_found(found, alloc, scopes, around, body)
        }
        Stmt::Par(_, branches) => {
            found.waits();
            blocks_found(found, alloc, scopes, around, branches.items())
        }
        Stmt::Async(listed, body) => {
            let labels = async_begun(found, alloc, scopes, listed.items());
            block_found(found, alloc, scopes, Around::of_async(), body)?;
            async_ended(found, labels);
            Ok(())
        }
    }
}

/// The value of a variable of this type, or of an alias.
#[cycle(statements)]
#[tactic(auto, using(crate::proofs::StmtForms::forms, crate::proofs::StmtSizes::stmt_sizes))]
fn source_found(
    found: &mut Found,
    alloc: Global,
    scopes: &Scopes,
    around: Around,
    ty: Ty,
    value: &Source,
) -> Result<(), AllocError>
    ensures { OnOk result (found.new ≡ spec.source_found scopes.now around ty value.now found.old) }
{
    match value {
        Source::Value(exp) => given(found, scopes, exp, ty),
        Source::Wait(wait) => {
            let value = await_type(scopes, wait, found.names);
            found.waits();
            found.takes(ty, value);
            await_found(found, scopes, wait)
        }
        Source::Start(start) => spawn_found(found, scopes, start),
        Source::Done(body) => {
            found.acts();
            do_found(found, alloc, scopes, around, ty, body)
        }
    }
}

/// A `do` that takes a value of this type.
#[cycle(statements)]
#[tactic(auto, using(crate::proofs::StmtForms::forms, crate::proofs::StmtSizes::stmt_sizes))]
fn do_found(
    found: &mut Found,
    alloc: Global,
    scopes: &Scopes,
    around: Around,
    ty: Ty,
    body: &Do,
) -> Result<(), AllocError>
    ensures { OnOk result (found.new ≡ spec.do_found scopes.now around ty body.now found.old) }
{
    found.labelled(alloc, &body.label, ty)?;
    block_found(
        found,
        alloc,
        scopes,
        around.of_do(&body.label, ty),
        &body.body,
    )?;
    found.unlabelled(&body.label);
    Ok(())
}

#[cycle(statements)]
#[tactic(auto, using(crate::proofs::StmtForms::forms, crate::proofs::StmtSizes::stmt_sizes))]
pub fn block_found(
    found: &mut Found,
    alloc: Global,
    scopes: &Scopes,
    around: Around,
    block: &Block,
) -> Result<(), AllocError>
    ensures { OnOk result (found.new ≡ spec.block_found scopes.now around block.now found.old) }
{
    for node in block.list.items() {
        node_found(found, alloc, scopes, around, node)?;
    }
    Ok(())
}

#[cycle(statements)]
#[tactic(auto, using(crate::proofs::StmtForms::forms, crate::proofs::StmtSizes::stmt_sizes))]
fn node_found(
    found: &mut Found,
    alloc: Global,
    scopes: &Scopes,
    around: Around,
    node: &Node,
) -> Result<(), AllocError>
    ensures { OnOk result (found.new ≡ spec.node_stepped scopes.now around found.old node.now) }
{
    let own = found.own;
    let broken = found.broken;
    found.begins();
    stmt_found(found, alloc, scopes, around, &node.stmt)?;
    found.ends(node.pos, own, broken);
    Ok(())
}

#[cycle(statements)]
#[tactic(auto, using(crate::proofs::StmtForms::forms, crate::proofs::StmtSizes::stmt_sizes))]
fn items_found(
    found: &mut Found,
    alloc: Global,
    scopes: &Scopes,
    around: Around,
    ty: Ty,
    items: &[Item],
) -> Result<(), AllocError>
    ensures { OnOk result (found.new ≡ fold (spec.item_stepped scopes.now around ty) found.old items.now) }
{
    for item in items {
        item_found(found, alloc, scopes, around, ty, item)?;
    }
    Ok(())
}

#[cycle(statements)]
#[tactic(auto, using(crate::proofs::StmtForms::forms, crate::proofs::StmtSizes::stmt_sizes))]
fn item_found(
    found: &mut Found,
    alloc: Global,
    scopes: &Scopes,
    around: Around,
    ty: Ty,
    item: &Item,
) -> Result<(), AllocError>
    ensures { OnOk result (found.new ≡ spec.item_stepped scopes.now around ty found.old item.now) }
{
    found.types_name(ty, &item.name);
    match &item.value {
        Some(value) => source_found(found, alloc, scopes, around, ty, value),
        None => Ok(()),
    }
}

#[cycle(statements)]
#[tactic(auto, using(crate::proofs::StmtForms::forms, crate::proofs::StmtSizes::stmt_sizes))]
fn arms_found(
    found: &mut Found,
    alloc: Global,
    scopes: &Scopes,
    around: Around,
    arms: &[Arm],
) -> Result<(), AllocError>
    ensures { OnOk result (found.new ≡ fold (spec.arm_stepped scopes.now around) found.old arms.now) }
{
    for arm in arms {
        condition(found, scopes, &arm.cond)?;
        block_found(found, alloc, scopes, around, &arm.body)?;
    }
    Ok(())
}

#[cycle(statements)]
#[tactic(auto, using(crate::proofs::StmtForms::forms, crate::proofs::StmtSizes::stmt_sizes))]
fn last_found(
    found: &mut Found,
    alloc: Global,
    scopes: &Scopes,
    around: Around,
    last: &Option<Block>,
) -> Result<(), AllocError>
    ensures { OnOk result (found.new ≡ spec.if_block_found scopes.now around last.now found.old) }
{
    match last {
        Some(body) => block_found(found, alloc, scopes, around, body),
        None => Ok(()),
    }
}

#[cycle(statements)]
#[tactic(auto, using(crate::proofs::StmtForms::forms, crate::proofs::StmtSizes::stmt_sizes))]
fn blocks_found(
    found: &mut Found,
    alloc: Global,
    scopes: &Scopes,
    around: Around,
    blocks: &[Block],
) -> Result<(), AllocError>
    ensures { OnOk result (found.new ≡ fold (spec.block_stepped scopes.now around) found.old blocks.now) }
{
    for block in blocks {
        block_found(found, alloc, scopes, around, block)?;
    }
    Ok(())
}
