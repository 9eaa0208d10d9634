// The first statement whose form doesn't run.
ghost use Rattle.std.specs.Prelude.{◌≡◌};
ghost use Rattle.ceu_single.specs.Single.{is_variable};
ghost use Rattle.ceu_forms.specs.Forms as spec;
ghost use Rattle.ceu_forms.specs.Forms.{first_in, other_decl, other_node, other_in_arm};

use ceu_base::Pos;
use ceu_trace::has_short_names;
use ceu_tree::{KArm, KBlock, KCode, KDecl, KKind, KNode, KStmt, Kernel};

const TEXT_START: Pos = Pos { line: 1, col: 1 };

fn is_variable(kind: KKind) -> bool
    ensures { result ≡ is_variable kind }
{
    match kind {
        KKind::Var(_) => true,
        KKind::Alias(_) => false,
        KKind::Pool(_, _) => false,
    }
}

fn other_decl(decls: &[KDecl]) -> Option<Pos>
    ensures { result ≡ first_in other_decl decls.now }
{
    for decl in decls {
        if !is_variable(decl.kind) {
            return Some(decl.pos);
        }
    }
    None
}

#[cycle(find)]
#[tactic(auto, using(crate::proofs::FormLaws::forms, ceu_tree::proofs::Sizes::sizes))]
fn other_stmt(pos: Pos, stmt: &KStmt) -> Option<Pos>
    ensures { result ≡ spec.other_stmt pos stmt.now }
{
    match stmt {
        KStmt::Nothing => None,
        KStmt::Assign(_, _) => None,
        KStmt::Out(_, _) => None,
        KStmt::AwaitIn(_, _) => None,
        KStmt::AwaitTime(_, _, _) => None,
        KStmt::Forever => None,
        KStmt::Escape(_, _) => None,
        KStmt::Break(_) => None,
        KStmt::Continue(_) => None,
        KStmt::Do(_, body) => other_in_block(body),
        KStmt::If(arms, last) => match other_in_arms(arms.items()) {
            Some(pos) => Some(pos),
            None => other_in_block(last),
        },
        KStmt::Loop(_, body) => other_in_block(body),
        KStmt::Emit(_, _) => Some(pos),
        KStmt::AwaitEvent(_, _) => Some(pos),
        KStmt::AwaitCode(_, _, _, _) => Some(pos),
        KStmt::Spawn(_, _, _, _) => Some(pos),
        KStmt::Kill(_) => Some(pos),
        KStmt::Unset(_) => Some(pos),
        KStmt::Async(_) => Some(pos),
        KStmt::Finalize(_) => Some(pos),
        KStmt::Par(_, _, _) => Some(pos),
    }
}

#[cycle(find)]
#[tactic(auto, using(crate::proofs::FormLaws::forms, ceu_tree::proofs::Sizes::sizes))]
fn other_in_block(block: &KBlock) -> Option<Pos>
    ensures { result ≡ spec.other_in_block block.now }
{
    match other_in_nodes(block.list.items()) {
        Some(pos) => Some(pos),
        None => other_decl(block.decls.items()),
    }
}

#[cycle(find)]
#[tactic(auto, using(crate::proofs::FormLaws::forms, ceu_tree::proofs::Sizes::sizes))]
fn other_in_nodes(nodes: &[KNode]) -> Option<Pos>
    ensures { result ≡ first_in other_node nodes.now }
{
    for node in nodes {
        if let Some(pos) = other_stmt(node.pos, &node.stmt) {
            return Some(pos);
        }
    }
    None
}

#[cycle(find)]
#[tactic(auto, using(crate::proofs::FormLaws::forms, ceu_tree::proofs::Sizes::sizes))]
fn other_in_arm(arm: &KArm) -> Option<Pos>
    ensures { result ≡ other_in_arm arm.now }
{
    other_in_block(&arm.body)
}

#[cycle(find)]
#[tactic(auto, using(crate::proofs::FormLaws::forms, ceu_tree::proofs::Sizes::sizes))]
fn other_in_arms(arms: &[KArm]) -> Option<Pos>
    ensures { result ≡ first_in other_in_arm arms.now }
{
    for arm in arms {
        if let Some(pos) = other_in_arm(arm) {
            return Some(pos);
        }
    }
    None
}

fn first_statement(nodes: &[KNode]) -> Pos
    ensures { result ≡ spec.first_statement nodes.now }
{
    match nodes {
        [] => TEXT_START,
        [first, ..] => first.pos,
    }
}

fn other_code(codes: &[KCode]) -> Option<Pos>
    ensures { result ≡ spec.other_code codes.now }
{
    match codes {
        [] => None,
        [first, ..] => Some(first_statement(first.body.list.items())),
    }
}

fn other_port(kernel: &Kernel) -> Option<Pos>
    ensures { result ≡ spec.other_port (spec.has_small_ports kernel.now) }
{
    if has_short_names(&kernel.outputs) && kernel.inputs.items().len() <= 65_535 {
        None
    } else {
        Some(TEXT_START)
    }
}

/// The place of the first statement of the program whose form doesn't run; where there is none but codes, of the first code's first one.
#[tactic(auto, unfolding(crate::specs::Forms::first_unbuilt))]
pub fn first_unbuilt(kernel: &Kernel) -> Option<Pos>
    ensures { result ≡ spec.first_unbuilt kernel.now }
{
    match other_in_block(&kernel.body) {
        Some(pos) => Some(pos),
        None => match other_code(kernel.codes.items()) {
            Some(pos) => Some(pos),
            None => other_port(kernel),
        },
    }
}
