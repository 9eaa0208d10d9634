// What the end of a part makes of what is open around it.
#![tactic(none)]

ghost use Rattle.std.specs.Prelude.{◌≡◌, [], ◌∷◌, ◌++◌, List, Some, IfOk};
ghost use Rattle.ceu_syntax.specs.Trees as tree;
ghost use Rattle.ceu_syntax.specs.declared.machine.Body.TheVariants as open_body;
ghost use Rattle.ceu_syntax.specs.declared.machine.Declaring.TheVariants as declaring;
ghost use Rattle.ceu_syntax.specs.declared.machine.Frame.{Frame};
ghost use Rattle.ceu_syntax.specs.declared.machine.Frame.TheVariants as framed;
ghost use Rattle.ceu_syntax.specs.declared.machine.Mode.TheVariants as mode;
ghost use Rattle.ceu_tree.specs.declared.source.Stmt as stmt;
ghost use Rattle.ceu_grammar.specs.Moves.{Gathers, Moves};
ghost use Rattle.ceu_syntax.specs.Steps as spec;

use crate::stack::Stack;
use crate::steps::{appended, pushed, refuse, wrong};
use crate::stop::Stop;
use crate::trees::variable;
use ceu_base::{Pos, Seq, Ty};
use ceu_syntax::{Act, Acting, Body, Declaring, Frame, Looping, Mode, Opening, Owner};
use ceu_tree::{
    Arm, Await, Block, Call, Do, Exp, Ident, Item, Node, ParKind, Range, Source, Stmt, Target,
};

fn begun_gathered(nodes: Seq<Node>, pos: Pos, stmt: Stmt) -> Result<Seq<Node>, Stop>
    ensures { (K : List Frame) → Gathers result K (spec.gathered stmt (framed.Begun nodes pos ∷ K)) }
{
    match appended(nodes, Node { pos, stmt }) {
        Ok(nodes) => Ok(nodes),
        Err(_) => Err(Stop::Memory),
    }
}

fn gathered_under(frame: Frame, stmt: Stmt) -> Result<Seq<Node>, Stop>
    ensures { (K : List Frame) → Gathers result K (spec.gathered stmt (frame ∷ K)) }
{
    match frame {
        Frame::Begun(nodes, pos) => begun_gathered(nodes, pos, stmt),
        frame => Err(wrong((frame, stmt))),
    }
}

/// The statements of a block with the one that ends.
pub fn gathered(stack: &mut Stack, stmt: Stmt) -> Result<Seq<Node>, Stop>
    ensures { Gathers result stack.new (spec.gathered stmt stack.old) }
{
    match stack.pop() {
        Some(frame) => gathered_under(frame, stmt),
        None => Err(wrong(stmt)),
    }
}

fn begun_closed(nodes: Seq<Node>, pos: Pos, stmt: Stmt) -> Result<Mode, Stop>
    ensures { (K : List Frame) → Moves result K (spec.closed stmt (framed.Begun nodes pos ∷ K)) }
{
    match appended(nodes, Node { pos, stmt }) {
        Ok(nodes) => Ok(Mode::In(nodes)),
        Err(_) => Err(Stop::Memory),
    }
}

fn closed_under(frame: Frame, stmt: Stmt) -> Result<Mode, Stop>
    ensures { (K : List Frame) → Moves result K (spec.closed stmt (frame ∷ K)) }
{
    match frame {
        Frame::Begun(nodes, pos) => begun_closed(nodes, pos, stmt),
        frame => refuse((frame, stmt)),
    }
}

/// Of a statement.
pub fn closed(stack: &mut Stack, stmt: Stmt) -> Result<Mode, Stop>
    ensures { Moves result stack.new (spec.closed stmt stack.old) }
{
    match stack.pop() {
        Some(frame) => closed_under(frame, stmt),
        None => refuse(stmt),
    }
}

/// Of a declaration of variables, at its last item.
pub fn items_closed(
    stack: &mut Stack,
    ty: Ty,
    items: Seq<Item>,
    name: Ident,
    value: Option<Source>,
) -> Result<Mode, Stop>
    ensures { Moves result stack.new (spec.closed (stmt.Vars ty (items ++ tree.item name value ∷ [])) stack.old) }
{
    match appended(items, Item { name, value }) {
        Ok(items) => closed(stack, Stmt::Vars(ty, items)),
        Err(_) => Err(Stop::Memory),
    }
}

/// Of an item, at the `,` behind it.
pub fn items_on(ty: Ty, items: Seq<Item>, name: Ident, value: Option<Source>) -> Result<Mode, Stop>
    ensures { (K : List Frame) → Moves result K (Some (spec.state K (mode.Declaring (declaring.Item ty (items ++ tree.item name value ∷ []))))) }
{
    match appended(items, Item { name, value }) {
        Ok(items) => Ok(Mode::Declaring(Declaring::Item(ty, items))),
        Err(_) => Err(Stop::Memory),
    }
}

/// Of an item that ended with `end`.
fn items_ended(ty: Ty, items: Seq<Item>, name: Ident, value: Option<Source>) -> Result<Mode, Stop>
    ensures { (K : List Frame) → Moves result K (Some (spec.state K (mode.Declaring (declaring.ItemEnd ty (items ++ tree.item name value ∷ []))))) }
{
    match appended(items, Item { name, value }) {
        Ok(items) => Ok(Mode::Declaring(Declaring::ItemEnd(ty, items))),
        Err(_) => Err(Stop::Memory),
    }
}

/// Of a source under this frame, at a `;`.
pub fn source_semicolon(stack: &mut Stack, frame: Frame, source: Source) -> Result<Mode, Stop>
    ensures { Moves result stack.new (spec.source_semicolon source (frame ∷ stack.old)) }
{
    match frame {
        Frame::Store(x) => closed(stack, Stmt::Assign(x, source)),
        Frame::Initial(ty, items, name) => items_closed(stack, ty, items, name, Some(source)),
        frame => refuse((frame, source)),
    }
}

/// Of a source under this frame, at a `,`.
pub fn source_comma(frame: Frame, source: Source) -> Result<Mode, Stop>
    ensures { (K : List Frame) → Moves result K (spec.source_comma source (frame ∷ K)) }
{
    match frame {
        Frame::Initial(ty, items, name) => items_on(ty, items, name, Some(source)),
        frame => refuse((frame, source)),
    }
}

pub fn source_of(act: Act) -> Source
    ensures { result ≡ spec.source_of act }
{
    match act {
        Act::Wait(wait) => Source::Wait(wait),
        Act::Start(spawn) => Source::Start(spawn),
    }
}

fn statement_of(act: Act) -> Stmt
    ensures { result ≡ spec.statement_of act }
{
    match act {
        Act::Wait(wait) => Stmt::Await(wait),
        Act::Start(spawn) => Stmt::Spawn(spawn),
    }
}

fn alias_semicolon(stack: &mut Stack, act: Act, code: Ident, name: Ident) -> Result<Mode, Stop>
    ensures { Moves result stack.new (spec.alias_semicolon act code name stack.old) }
{
    match act {
        Act::Start(spawn) => closed(stack, Stmt::AliasDecl(code, name, Some(spawn))),
        act => refuse((act, code, name)),
    }
}

fn act_semicolon_under(stack: &mut Stack, frame: Frame, act: Act) -> Result<Mode, Stop>
    ensures { Moves result stack.new (spec.act_semicolon act (frame ∷ stack.old)) }
{
    match frame {
        Frame::Begun(nodes, pos) => begun_closed(nodes, pos, statement_of(act)),
        Frame::Alias(code, name) => alias_semicolon(stack, act, code, name),
        frame => source_semicolon(stack, frame, source_of(act)),
    }
}

/// Of an await or a spawn, at a `;`.
pub fn act_semicolon(stack: &mut Stack, act: Act) -> Result<Mode, Stop>
    ensures { Moves result stack.new (spec.act_semicolon act stack.old) }
{
    match stack.pop() {
        Some(frame) => act_semicolon_under(stack, frame, act),
        None => refuse(act),
    }
}

/// Of an await or a spawn, at a `,`.
pub fn act_comma(stack: &mut Stack, source: Source) -> Result<Mode, Stop>
    ensures { Moves result stack.new (spec.source_comma source stack.old) }
{
    match stack.pop() {
        Some(frame) => source_comma(frame, source),
        None => refuse(source),
    }
}

fn do_end_under(stack: &mut Stack, frame: Frame, done: Do) -> Result<Mode, Stop>
    ensures { Moves result stack.new (spec.do_end done (frame ∷ stack.old)) }
{
    match frame {
        Frame::Begun(nodes, pos) => begun_closed(nodes, pos, Stmt::Do(done)),
        Frame::Store(x) => closed(stack, Stmt::Assign(x, Source::Done(done))),
        Frame::Initial(ty, items, name) => items_ended(ty, items, name, Some(Source::Done(done))),
        frame => refuse((frame, done)),
    }
}

/// Of a do.
fn do_end(stack: &mut Stack, done: Do) -> Result<Mode, Stop>
    ensures { Moves result stack.new (spec.do_end done stack.old) }
{
    match stack.pop() {
        Some(frame) => do_end_under(stack, frame, done),
        None => refuse(done),
    }
}

fn awaited_call(code: Ident, args: Seq<Exp>) -> Mode
    ensures { result ≡ spec.awaited_call code args }
{
    Mode::Acting(Acting::ActEnd(Act::Wait(Await::Code(Call { code, args }))))
}

fn called_under(stack: &mut Stack, frame: Frame, code: Ident, args: Seq<Exp>) -> Result<Mode, Stop>
    ensures { Moves result stack.new (spec.called code args (frame ∷ stack.old)) }
{
    match frame {
        Frame::Spawn(pos) => Ok(Mode::Acting(Acting::SpawnIn(pos, Call { code, args }))),
        frame => pushed(stack, frame, awaited_call(code, args)),
    }
}

/// Of a call.
pub fn called(stack: &mut Stack, code: Ident, args: Seq<Exp>) -> Result<Mode, Stop>
    ensures { Moves result stack.new (spec.called code args stack.old) }
{
    match stack.pop() {
        Some(frame) => called_under(stack, frame, code, args),
        None => Ok(awaited_call(code, args)),
    }
}

fn aimed_under(stack: &mut Stack, frame: Frame, target: Target) -> Result<Mode, Stop>
    ensures { Moves result stack.new (spec.aimed target (frame ∷ stack.old)) }
{
    match frame {
        Frame::Every(x) => Ok(Mode::Looping(Looping::EveryDo(x, target))),
        Frame::Watching => Ok(Mode::Opening(Opening::WatchingDo(target))),
        frame => pushed(stack, frame, Mode::Acting(Acting::AwaitEnd(target))),
    }
}

/// Of a target.
pub fn aimed(stack: &mut Stack, target: Target) -> Result<Mode, Stop>
    ensures { Moves result stack.new (spec.aimed target stack.old) }
{
    match stack.pop() {
        Some(frame) => aimed_under(stack, frame, target),
        None => Ok(Mode::Acting(Acting::AwaitEnd(target))),
    }
}

/// Of a location.
pub fn located(stack: &mut Stack, owner: Owner, x: Ident) -> Result<Mode, Stop>
    ensures { Moves result stack.new (spec.located owner x stack.old) }
{
    match owner {
        Owner::Operand => Ok(Mode::After(variable(x))),
        Owner::Store => Ok(Mode::Acting(Acting::Assign(x))),
        Owner::Emit => Ok(Mode::Acting(Acting::EmitOpen(x))),
        Owner::Target => aimed(stack, Target::Event(x)),
        Owner::Every => Ok(Mode::Looping(Looping::EveryIn(x))),
    }
}

fn arm_closed(stack: &mut Stack, arms: Seq<Arm>, cond: Exp, body: Block) -> Result<Mode, Stop>
    ensures { Moves result stack.new (spec.body_end (open_body.Arm arms cond) body stack.old) }
{
    match appended(arms, Arm { cond, body }) {
        Ok(arms) => closed(stack, Stmt::If(arms, None)),
        Err(_) => Err(Stop::Memory),
    }
}

fn branch_closed(
    stack: &mut Stack,
    kind: ParKind,
    blocks: Seq<Block>,
    body: Block,
) -> Result<Mode, Stop>
    ensures { Moves result stack.new (spec.body_end (open_body.Branch kind blocks) body stack.old) }
{
    match appended(blocks, body) {
        Ok(blocks) => closed(stack, Stmt::Par(kind, blocks)),
        Err(_) => Err(Stop::Memory),
    }
}

/// Of a block, at its `end`.
fn body_end(stack: &mut Stack, closing: Body, body: Block) -> Result<Mode, Stop>
    ensures { Moves result stack.new (spec.body_end closing body stack.old) }
{
    match closing {
        Body::Do(label) => do_end(stack, Do { label, body }),
        Body::Finalize => closed(stack, Stmt::Finalize(body)),
        Body::Arm(arms, cond) => arm_closed(stack, arms, cond, body),
        Body::Else(arms) => closed(stack, Stmt::If(arms, Some(body))),
        Body::Loop(count) => closed(stack, Stmt::Loop(count, body)),
        Body::Range(name, open_a, a, b, open_b) => {
            closed(
                stack,
                Stmt::Range(Range {
                    name,
                    open_a,
                    a,
                    b,
                    open_b,
                    body,
                }),
            )
        }
        Body::Every(x, target) => closed(stack, Stmt::Every(x, target, body)),
        Body::Watching(target) => closed(stack, Stmt::Watching(target, body)),
        Body::Branch(kind, blocks) => branch_closed(stack, kind, blocks, body),
        Body::Async(names) => closed(stack, Stmt::Async(names, body)),
        Body::Code(code, params, ty) => closed(stack, Stmt::Code(code, params, ty, body)),
        Body::FirstBranch(_) => refuse(body),
    }
}

fn ended_under(stack: &mut Stack, frame: Frame, list: Seq<Node>) -> Result<Mode, Stop>
    ensures { Moves result stack.new (spec.of_end list (frame ∷ stack.old)) }
{
    match frame {
        Frame::Body(closing) => body_end(stack, closing, Block { list }),
        frame => refuse((frame, list)),
    }
}

/// Takes an `end`.
pub fn ended(stack: &mut Stack, list: Seq<Node>) -> Result<Mode, Stop>
    ensures { Moves result stack.new (spec.of_end list stack.old) }
{
    match stack.pop() {
        Some(frame) => ended_under(stack, frame, list),
        None => refuse(list),
    }
}
