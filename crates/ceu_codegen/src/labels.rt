// The labels of a statement: its own, the one that it goes to, and those of its parts.
ghost use Rattle.std.specs.Prelude.{◌≡◌, ℕ, ◌+◌, ◌*◌, ◌<◌, ◌≤◌, ◌++◌, [], ◌∷◌, length, OnOk, IfOk};
ghost use Rattle.ceu_shape.specs.Shape as spec;
ghost use Rattle.ceu_low_flow.specs.Conditions.{StmtFits};
ghost use Rattle.ceu_low_par.specs.Conditions.{AreNodes, nodes_of};
ghost use Rattle.ceu_codegen.specs.Conditions as conditions;
ghost use Rattle.ceu_codegen.specs.Lists as lists;
ghost use Rattle.ceu_codegen.specs.Lists.{nodes_of_arms};

use crate::words::{end_label, own_label};
use ceu_asm::Labels;
use ceu_base::Seq;
use ceu_tree::{KArm, KBlock, KExp, KLoop, KNode, KStmt};
use std::alloc::{AllocError, Global};

fn count_if(exp: &Option<KExp>) -> usize
    ensures { result ≡ spec.count_if exp.now }
{
    match exp {
        None => 0,
        Some(_) => 1,
    }
}

fn ends_count(kind: &KLoop) -> usize
    ensures value { result ≡ spec.ends_count kind.now }
    ensures small { result ≤ 2 }
{
    match kind {
        KLoop::Free => 0,
        KLoop::Times(_, _) => 0,
        KLoop::Range(_, _, _, _, _, _, _) => 2,
    }
}

/// How many of its parts are expressions.
pub fn expression_count(stmt: &KStmt) -> usize
    ensures { result ≡ spec.expression_count stmt.now }
{
    match stmt {
        KStmt::Assign(_, _) => 1,
        KStmt::Out(_, exp) => count_if(exp),
        KStmt::Emit(_, exp) => count_if(exp),
        KStmt::AwaitTime(_, _, _) => 1,
        KStmt::AwaitCode(_, arguments, _, _) => arguments.items().len(),
        KStmt::Spawn(_, arguments, _, _) => arguments.items().len(),
        KStmt::Escape(_, exp) => count_if(exp),
        KStmt::If(arms, _) => arms.items().len(),
        KStmt::Loop(kind, _) => ends_count(kind),
        KStmt::Nothing => 0,
        KStmt::AwaitIn(_, _) => 0,
        KStmt::AwaitEvent(_, _) => 0,
        KStmt::Forever => 0,
        KStmt::Kill(_) => 0,
        KStmt::Unset(_) => 0,
        KStmt::Async(_) => 0,
        KStmt::Finalize(_) => 0,
        KStmt::Do(_, _) => 0,
        KStmt::Break(_) => 0,
        KStmt::Continue(_) => 0,
        KStmt::Par(_, _, _) => 0,
    }
}

// ---- the labels of parts

fn add_pair(parts: &mut Seq<u32>, begin: u32, end: u32) -> Result<(), AllocError>
    ensures { OnOk result (parts.new ≡ parts.old ++ (begin ∷ end ∷ [])) }
{
    parts.push(begin)?;
    parts.push(end)
}

fn add_expressions(parts: &mut Seq<u32>, count: usize, fresh: u32) -> Result<(), AllocError>
    requires { fresh + 2 * count < 4294967296 }
    ensures { OnOk result (parts.new ≡ parts.old ++ spec.expression_labels count fresh) }
{
    for k in 0..count {
        let begin = fresh + 2 * k as u32;
        add_pair(parts, begin, begin + 1)?;
    }
    Ok(())
}

fn add_block(parts: &mut Seq<u32>, block: &KBlock) -> Result<(), AllocError>
    requires { AreNodes 65536 (nodes_of (block.now ∷ [])) }
    ensures { OnOk result (parts.new ≡ parts.old ++ spec.block_labels block.now) }
{
    add_pair(parts, own_label(block.node), end_label(block.node))
}

fn add_arms(parts: &mut Seq<u32>, arms: &[KArm], fresh: u32) -> Result<(), AllocError>
    requires nodes { AreNodes 65536 (nodes_of_arms arms.now) }
    requires labels { fresh + 2 * length arms.now < 4294967296 }
    ensures { OnOk result (parts.new ≡ parts.old ++ lists.arm_list_labels fresh arms.now) }
{
    let mut begin = fresh;
    for arm in arms {
        add_pair(parts, begin, begin + 1)?;
        add_block(parts, &arm.body)?;
        begin += 2;
    }
    Ok(())
}

fn add_branches(parts: &mut Seq<u32>, branches: &[KBlock]) -> Result<(), AllocError>
    requires { AreNodes 65536 (nodes_of branches.now) }
    ensures { OnOk result (parts.new ≡ parts.old ++ lists.block_list_labels branches.now) }
{
    for branch in branches {
        add_block(parts, branch)?;
    }
    Ok(())
}

fn add_parts(parts: &mut Seq<u32>, stmt: &KStmt, fresh: u32) -> Result<(), AllocError>
    requires nodes { AreNodes 65536 (conditions.part_nodes stmt.now) }
    requires labels { fresh + 2 * spec.expression_count stmt.now < 4294967296 }
    ensures { OnOk result (parts.new ≡ parts.old ++ spec.part_labels fresh stmt.now) }
{
    match stmt {
        KStmt::Async(body) => add_block(parts, body),
        KStmt::Finalize(body) => add_block(parts, body),
        KStmt::Do(_, body) => add_block(parts, body),
        KStmt::If(arms, last) => {
            add_arms(parts, arms.items(), fresh)?;
            add_block(parts, last)
        }
        KStmt::Loop(kind, body) => {
            add_expressions(parts, ends_count(kind), fresh)?;
            add_block(parts, body)
        }
        KStmt::Par(_, _, branches) => add_branches(parts, branches.items()),
        KStmt::Assign(_, _) => add_expressions(parts, 1, fresh),
        KStmt::Out(_, exp) => add_expressions(parts, count_if(exp), fresh),
        KStmt::Emit(_, exp) => add_expressions(parts, count_if(exp), fresh),
        KStmt::AwaitTime(_, _, _) => add_expressions(parts, 1, fresh),
        KStmt::AwaitCode(_, arguments, _, _) => add_expressions(
            parts,
            arguments.items().len(),
            fresh,
        ),
        KStmt::Spawn(_, arguments, _, _) => add_expressions(parts, arguments.items().len(), fresh),
        KStmt::Escape(_, exp) => add_expressions(parts, count_if(exp), fresh),
        KStmt::Nothing => add_expressions(parts, 0, fresh),
        KStmt::AwaitIn(_, _) => add_expressions(parts, 0, fresh),
        KStmt::AwaitEvent(_, _) => add_expressions(parts, 0, fresh),
        KStmt::Forever => add_expressions(parts, 0, fresh),
        KStmt::Kill(_) => add_expressions(parts, 0, fresh),
        KStmt::Unset(_) => add_expressions(parts, 0, fresh),
        KStmt::Break(_) => add_expressions(parts, 0, fresh),
        KStmt::Continue(_) => add_expressions(parts, 0, fresh),
    }
}

// Behind the statement; behind what it leaves; of a continue the end of the loop's body.
fn next_label(stmt: &KStmt, node: u32) -> u32
    requires own { node ≤ 65535 }
    requires left { conditions.LeavesBelow 65536 stmt.now }
    ensures { result ≡ spec.next_label node stmt.now }
{
    match stmt {
        KStmt::Escape(left, _) => end_label(*left),
        KStmt::Break(left) => end_label(*left),
        KStmt::Continue(left) => end_label(*left + 1),
        KStmt::Assign(_, _) => end_label(node),
        KStmt::Out(_, _) => end_label(node),
        KStmt::Emit(_, _) => end_label(node),
        KStmt::AwaitTime(_, _, _) => end_label(node),
        KStmt::AwaitCode(_, _, _, _) => end_label(node),
        KStmt::Spawn(_, _, _, _) => end_label(node),
        KStmt::If(_, _) => end_label(node),
        KStmt::Loop(_, _) => end_label(node),
        KStmt::Nothing => end_label(node),
        KStmt::AwaitIn(_, _) => end_label(node),
        KStmt::AwaitEvent(_, _) => end_label(node),
        KStmt::Forever => end_label(node),
        KStmt::Kill(_) => end_label(node),
        KStmt::Unset(_) => end_label(node),
        KStmt::Async(_) => end_label(node),
        KStmt::Finalize(_) => end_label(node),
        KStmt::Do(_, _) => end_label(node),
        KStmt::Par(_, _, _) => end_label(node),
    }
}

/// The labels of a statement, whose expressions have those from `fresh` on.
pub fn labels_of(alloc: Global, fresh: u32, node: &KNode) -> Result<Labels, AllocError>
    requires own { node.now.node ≤ 65535 }
    requires left { conditions.LeavesBelow 65536 node.now.stmt }
    requires nodes { AreNodes 65536 (conditions.part_nodes node.now.stmt) }
    requires labels { fresh + 2 * spec.expression_count node.now.stmt < 4294967296 }
    ensures { IfOk result (λ labels. labels ≡ spec.labels_of fresh node.now.node node.now.stmt) }
{
    let mut parts = Seq::new(alloc);
    add_parts(&mut parts, &node.stmt, fresh)?;
    Ok(Labels {
        own: own_label(node.node),
        next: next_label(&node.stmt, node.node),
        parts,
    })
}
