// Tokens between statements.
#![tactic(none)]

ghost use Rattle.std.specs.Prelude.{◌≡◌, [], ◌∷◌, ◌++◌, List, Some};
ghost use Rattle.ceu_syntax.specs.declared.machine.Frame.{Frame};
ghost use Rattle.ceu_syntax.specs.declared.machine.Frame.TheVariants as framed;
ghost use Rattle.ceu_syntax.specs.declared.machine.Body.TheVariants as open_body;
ghost use Rattle.ceu_syntax.specs.Trees as tree;
ghost use Rattle.ceu_grammar.specs.Moves.{Moves};
ghost use Rattle.ceu_syntax.specs.Steps as spec;

use crate::ends::{ended, gathered};
use crate::stack::Stack;
use crate::steps::{appended, exhaust, give_up, pushed, refuse};
use crate::stop::Stop;
use crate::tables::head;
use crate::trees::ident;
use ceu_base::{Pos, Seq};
use ceu_syntax::{Acting, Body, Frame, Kind, Mode, Opening, Owner};
use ceu_tree::{Arm, Block, Exp, Node, ParKind, Stmt};
use std::alloc::Global;

/// Opens a block.
pub fn opened(alloc: Global, stack: &mut Stack, body: Body) -> Result<Mode, Stop>
    ensures { Moves result stack.new (spec.opened body stack.old) }
{
    pushed(stack, Frame::Body(body), Mode::In(Seq::new(alloc)))
}

fn branch_on(
    alloc: Global,
    stack: &mut Stack,
    kind: ParKind,
    blocks: Seq<Block>,
    list: Seq<Node>,
) -> Result<Mode, Stop>
    ensures { Moves result stack.new (spec.opened (open_body.Branch kind (blocks ++ tree.block list ∷ [])) stack.old) }
{
    match appended(blocks, Block { list }) {
        Ok(blocks) => opened(alloc, stack, Body::Branch(kind, blocks)),
        Err(_) => Err(Stop::Memory),
    }
}

/// Goes on behind a block at its `with`.
fn branched(alloc: Global, stack: &mut Stack, closing: Body, list: Seq<Node>) -> Result<Mode, Stop>
    ensures { Moves result stack.new (spec.of_with list (framed.Body closing ∷ stack.old)) }
{
    match closing {
        Body::FirstBranch(kind) => branch_on(alloc, stack, kind, Seq::new(alloc), list),
        Body::Branch(kind, blocks) => branch_on(alloc, stack, kind, blocks, list),
        closing => refuse((closing, list)),
    }
}

fn another_under(
    alloc: Global,
    stack: &mut Stack,
    frame: Frame,
    list: Seq<Node>,
) -> Result<Mode, Stop>
    ensures { Moves result stack.new (spec.of_with list (frame ∷ stack.old)) }
{
    match frame {
        Frame::Body(closing) => branched(alloc, stack, closing, list),
        frame => refuse((frame, list)),
    }
}

/// Takes a `with`.
fn another(alloc: Global, stack: &mut Stack, list: Seq<Node>) -> Result<Mode, Stop>
    ensures { Moves result stack.new (spec.of_with list stack.old) }
{
    match stack.pop() {
        Some(frame) => another_under(alloc, stack, frame, list),
        None => refuse(list),
    }
}

fn arm_on(arms: Seq<Arm>, cond: Exp, list: Seq<Node>) -> Result<Mode, Stop>
    ensures { (K : List Frame) → Moves result K (spec.of_else list (framed.Body (open_body.Arm arms cond) ∷ K)) }
{
    match appended(
        arms,
        Arm {
            cond,
            body: Block { list },
        },
    ) {
        Ok(arms) => Ok(Mode::Opening(Opening::Else(arms))),
        Err(_) => Err(Stop::Memory),
    }
}

/// Goes on behind a block at its `else`.
fn alternated(closing: Body, list: Seq<Node>) -> Result<Mode, Stop>
    ensures { (K : List Frame) → Moves result K (spec.of_else list (framed.Body closing ∷ K)) }
{
    match closing {
        Body::Arm(arms, cond) => arm_on(arms, cond, list),
        closing => refuse((closing, list)),
    }
}

fn other_under(frame: Frame, list: Seq<Node>) -> Result<Mode, Stop>
    ensures { (K : List Frame) → Moves result K (spec.of_else list (frame ∷ K)) }
{
    match frame {
        Frame::Body(closing) => alternated(closing, list),
        frame => refuse((frame, list)),
    }
}

/// Takes an `else`.
fn other(stack: &mut Stack, list: Seq<Node>) -> Result<Mode, Stop>
    ensures { Moves result stack.new (spec.of_else list stack.old) }
{
    match stack.pop() {
        Some(frame) => other_under(frame, list),
        None => refuse(list),
    }
}

/// Takes the first token of a statement.
fn begins(stack: &mut Stack, kind: Kind, pos: Pos, nodes: Seq<Node>) -> Result<Mode, Stop>
    ensures { Moves result stack.new (spec.headed (spec.head kind) pos nodes stack.old) }
{
    match head(&kind) {
        Some(mode) => {
            give_up(kind);
            pushed(stack, Frame::Begun(nodes, pos), mode)
        }
        None => refuse((kind, nodes)),
    }
}

/// Begins a statement with a frame on top.
fn begun(
    stack: &mut Stack,
    nodes: Seq<Node>,
    pos: Pos,
    frame: Frame,
    mode: Mode,
) -> Result<Mode, Stop>
    ensures { Moves result stack.new (Some (spec.state (frame ∷ framed.Begun nodes pos ∷ stack.old) mode)) }
{
    match stack.push(Frame::Begun(nodes, pos)) {
        Ok(()) => pushed(stack, frame, mode),
        Err(_) => exhaust((frame, mode)),
    }
}

/// Takes a token where a statement or the end of a block is to come.
pub fn in_block(
    alloc: Global,
    stack: &mut Stack,
    kind: Kind,
    pos: Pos,
    nodes: Seq<Node>,
) -> Result<Mode, Stop>
    ensures { Moves result stack.new (spec.of_block kind pos nodes stack.old) }
{
    match kind {
        Kind::Semicolon => Ok(Mode::In(nodes)),
        Kind::Lower(name) => pushed(
            stack,
            Frame::Begun(nodes, pos),
            Mode::Acting(Acting::Assign(ident(name, pos))),
        ),
        Kind::End => ended(stack, nodes),
        Kind::With => another(alloc, stack, nodes),
        Kind::Else => other(stack, nodes),
        Kind::Outer => pushed(
            stack,
            Frame::Begun(nodes, pos),
            Mode::Outer(Owner::Store, pos),
        ),
        Kind::Spawn => begun(
            stack,
            nodes,
            pos,
            Frame::Spawn(pos),
            Mode::Acting(Acting::Spawn),
        ),
        Kind::If => begun(
            stack,
            nodes,
            pos,
            Frame::Condition(Seq::new(alloc)),
            Mode::Start,
        ),
        Kind::Watching => begun(
            stack,
            nodes,
            pos,
            Frame::Watching,
            Mode::Acting(Acting::Target),
        ),
        kind => begins(stack, kind, pos, nodes),
    }
}

/// Takes the token behind a statement that ended with `end` and may go on.
pub fn item_end(
    alloc: Global,
    stack: &mut Stack,
    kind: Kind,
    pos: Pos,
    stmt: Stmt,
) -> Result<Mode, Stop>
    ensures { Moves result stack.new (spec.item_end kind pos stmt stack.old) }
{
    match gathered(stack, stmt) {
        Ok(nodes) => in_block(alloc, stack, kind, pos, nodes),
        Err(stop) => {
            give_up(kind);
            Err(stop)
        }
    }
}
