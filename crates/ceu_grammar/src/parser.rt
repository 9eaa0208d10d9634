// The tree of a list of tokens.
ghost use Rattle.std.specs.Prelude.{◌≡◌, [], ◌<◌, ◌≤◌, ℕ, List, All, Err, Some, length, IfOk, OnOk};
ghost use Rattle.ceu_base.specs.declared.kinds.Pos.{Pos};
ghost use Rattle.ceu_base.specs.declared.kinds.Rule.{Rule};
ghost use Rattle.ceu_syntax.specs.Grammar.{Derives};
ghost use Rattle.ceu_syntax.specs.Limits.{FirstBroken, WithinLimits, operator_count};
ghost use Rattle.ceu_syntax.specs.Terminals.{terminals};
ghost use Rattle.ceu_grammar.specs.Spelling.{IsSpelled};
ghost use Rattle.ceu_lex.specs.Texts.{Reads};
ghost use Rattle.ceu_grammar.specs.declared.parser.ParseError.TheVariants as parse_error;
ghost use Rattle.ceu_grammar.specs.declared.parser.ParseError.TheVariants.{Refused};
ghost use Rattle.ceu_grammar.specs.Moves.{Finishes};
ghost use Rattle.ceu_grammar.specs.Answers.{IsRefused, PlaceOf, Takes};
ghost use Rattle.ceu_grammar.specs.Answers as answers;
ghost use Rattle.ceu_syntax.specs.Runs as run;
ghost use Rattle.ceu_grammar.specs.Moves.{Moves};
ghost use Rattle.ceu_syntax.specs.Steps as spec;
ghost use Rattle.ceu_syntax.specs.declared.machine.Frame.{Frame};
ghost use Rattle.ceu_syntax.specs.declared.machine.Mode.TheVariants as m;
ghost use Rattle.ceu_syntax.specs.declared.machine.Declaring.TheVariants as d;

use crate::actions::acted;
use crate::blocks::in_block;
use crate::declarations::{coded, declared};
use crate::ends::{closed, gathered, located};
use crate::expressions::{casts, ends, follows, named, starts};
use crate::limits::{counted, goes_on_finalize, is_deep, is_long, where_open};
use crate::openings::{looping, opening};
use crate::stack::Stack;
use crate::steps::{give_up, refuse, wrong};
use crate::stop::Stop;
use crate::terminal::{end_of, terminal_of};
use crate::trees::outer;
use ceu_base::{Pos, Rule, Seq, Ty};
use ceu_lex::Token;
use ceu_syntax::{Declaring, Frame, Kind, Mode, Owner, Terminal};
use ceu_tree::{Block, Item, Node, Stmt, Tree};
use std::alloc::{AllocError, Global};
use thiserror::Error;

/// Takes the `.` behind an `outer`.
#[tactic(none)]
fn of_outer(kind: Kind, owner: Owner, pos: Pos) -> Result<Mode, Stop>
    ensures { (K : List Frame) → Moves result K (spec.of_outer kind owner pos K) }
{
    match kind {
        Kind::Dot => Ok(Mode::OuterName(owner, pos)),
        kind => refuse(kind),
    }
}

/// Takes the name behind an `outer`.
#[tactic(none)]
fn of_outer_name(stack: &mut Stack, kind: Kind, owner: Owner, pos: Pos) -> Result<Mode, Stop>
    ensures { Moves result stack.new (spec.of_outer_name kind owner pos stack.old) }
{
    match kind {
        Kind::Lower(name) => located(stack, owner, outer(name, pos)),
        kind => refuse(kind),
    }
}

/// Takes the `;` of a statement.
#[tactic(none)]
fn of_semicolon(stack: &mut Stack, kind: Kind, stmt: Stmt) -> Result<Mode, Stop>
    ensures { Moves result stack.new (spec.of_semicolon kind stmt stack.old) }
{
    match kind {
        Kind::Semicolon => closed(stack, stmt),
        kind => refuse((kind, stmt)),
    }
}

/// Takes one token.
#[tactic(none)]
fn moved(alloc: Global, stack: &mut Stack, mode: Mode, kind: Kind, pos: Pos) -> Result<Mode, Stop>
    ensures { Moves result stack.new (spec.moved kind pos stack.old mode) }
{
    match mode {
        Mode::Start => starts(stack, kind, pos),
        Mode::Named(name, before) => named(alloc, stack, kind, pos, name, before),
        Mode::After(e) => follows(alloc, stack, kind, pos, e),
        Mode::Cast(at, e) => casts(alloc, kind, at, e),
        Mode::Typed(e) => ends(alloc, stack, kind, pos, e),
        Mode::Outer(owner, at) => of_outer(kind, owner, at),
        Mode::OuterName(owner, at) => of_outer_name(stack, kind, owner, at),
        Mode::In(nodes) => in_block(alloc, stack, kind, pos, nodes),
        Mode::Semicolon(stmt) => of_semicolon(stack, kind, stmt),
        Mode::Declaring(mode) => declared(alloc, stack, mode, kind, pos),
        Mode::Coding(mode) => coded(alloc, stack, mode, kind, pos),
        Mode::Acting(mode) => acted(alloc, stack, mode, kind, pos),
        Mode::Opening(mode) => opening(alloc, stack, mode, kind, pos),
        Mode::Looping(mode) => looping(alloc, stack, mode, kind, pos),
    }
}

#[tactic(none)]
fn unless_open(stack: &mut Stack, nodes: Seq<Node>) -> Result<Seq<Node>, Stop>
    ensures { Finishes result (run.whole stack.old (m.In nodes)) }
{
    match stack.pop() {
        None => Ok(nodes),
        Some(frame) => Err(wrong((frame, nodes))),
    }
}

#[tactic(none)]
fn vars_finished(stack: &mut Stack, ty: Ty, items: Seq<Item>) -> Result<Seq<Node>, Stop>
    ensures { Finishes result (run.finish (spec.state stack.old (m.Declaring (d.ItemEnd ty items)))) }
{
    match gathered(stack, Stmt::Vars(ty, items)) {
        Ok(nodes) => unless_open(stack, nodes),
        Err(stop) => Err(stop),
    }
}

#[tactic(none)]
fn declaring_finished(stack: &mut Stack, mode: Declaring) -> Result<Seq<Node>, Stop>
    ensures { Finishes result (run.finish (spec.state stack.old (m.Declaring mode))) }
{
    match mode {
        Declaring::ItemEnd(ty, items) => vars_finished(stack, ty, items),
        mode => Err(wrong(mode)),
    }
}

/// The statements of the program, where it may end.
#[tactic(none)]
fn finished(stack: &mut Stack, mode: Mode) -> Result<Seq<Node>, Stop>
    ensures { Finishes result (run.finish (spec.state stack.old mode)) }
{
    match mode {
        Mode::In(nodes) => unless_open(stack, nodes),
        Mode::Declaring(mode) => declaring_finished(stack, mode),
        mode => Err(wrong(mode)),
    }
}

/// Why no tree is derived: the rule that is broken first, its place and the number of tokens before it, or want of memory.
#[derive(Clone, Copy, Debug, PartialEq, Eq, Error)]
pub enum ParseError {
    #[error("{0:?} at {line}:{col}", line = .1.line, col = .1.col)]
    Refused(Rule, Pos, usize),
    #[error("out of memory")]
    Memory,
}

impl From<AllocError> for ParseError {
    ghost from_gives = { λ _ e. e ≡ parse_error.Memory };

    fn from(_: AllocError) -> Self {
        ParseError::Memory
    }
}

/// Why a token is refused: by a rule, or for want of memory.
#[derive(Clone, Copy, Debug)]
enum Refusal {
    Broken(Rule),
    Memory,
}

/// Asks the limits behind a token that was taken, with the operators of the expression that is open.
#[tactic(none)]
fn judged(stack: &Stack, operators: u32, next: Mode, finalize: bool) -> Result<Mode, Refusal>
    requires { operators ≡ operator_count (spec.state stack.now next) }
    ensures { Takes result stack.now operators finalize (Some (spec.state stack.now next)) }
{
    if is_deep(stack, &next, finalize) {
        give_up(next);
        Err(Refusal::Broken(Rule::G2))
    } else if is_long(operators) {
        give_up(next);
        Err(Refusal::Broken(Rule::G3))
    } else {
        Ok(next)
    }
}

/// Takes one token within the limits, where `finalize` says whether that word follows it.
#[tactic(none)]
fn taken(
    alloc: Global,
    stack: &mut Stack,
    operators: &mut u32,
    mode: Mode,
    terminal: Terminal,
    finalize: bool,
) -> Result<Mode, Refusal>
    requires counted { operators.old ≡ operator_count (spec.state stack.old mode) }
    requires few { operators.old ≤ 256 }
    ensures { Takes result stack.new operators.new finalize (spec.moved terminal.kind terminal.pos stack.old mode) }
{
    let inside = counted(*operators, &terminal.kind);
    match moved(alloc, stack, mode, terminal.kind, terminal.pos) {
        Ok(next) => {
            *operators = where_open(&next, inside);
            judged(stack, *operators, next, finalize)
        }
        Err(Stop::Memory) => Err(Refusal::Memory),
        Err(Stop::Wrong) => Err(Refusal::Broken(Rule::G1)),
    }
}

fn refused(refusal: Refusal, tokens: &[Token], k: usize) -> ParseError
    requires { k < length tokens.now }
    ensures { IsRefused refusal result tokens.now k }
{
    match refusal {
        Refusal::Broken(rule) => ParseError::Refused(rule, tokens[k].pos, k),
        Refusal::Memory => ParseError::Memory,
    }
}

/// The statements of the program behind the last token.
fn ended(
    stack: &mut Stack,
    mode: Mode,
    text: &[u8],
    tokens: &[Token],
) -> Result<Seq<Node>, ParseError>
    requires text { length text.now ≤ 1048576 }
    ensures { answers.EndsAs result (run.finish (spec.state stack.old mode)) text.now tokens.now }
{
    match finished(stack, mode) {
        Ok(nodes) => Ok(nodes),
        Err(Stop::Memory) => Err(ParseError::Memory),
        Err(Stop::Wrong) => Err(ParseError::Refused(Rule::G1, end_of(text), tokens.len())),
    }
}

/// Takes all tokens.
fn all_taken(
    alloc: Global,
    stack: &mut Stack,
    text: &[u8],
    tokens: &[Token],
) -> Result<Seq<Node>, ParseError>
    requires open { stack.old ≡ [] }
    requires text { length text.now ≤ 1048576 }
    requires names { All (IsSpelled text.now) tokens.now }
    ensures { answers.Answers result text.now tokens.now }
{
    let mut mode = Mode::In(Seq::new(alloc));
    let mut operators = 0;
    for k in 0..tokens.len() {
        let token = tokens[k];
        let finalize = goes_on_finalize(&tokens[k + 1..]);
        match terminal_of(alloc, text, token) {
            Ok(terminal) => match taken(alloc, stack, &mut operators, mode, terminal, finalize) {
                Ok(next) => mode = next,
                Err(refusal) => return Err(refused(refusal, tokens, k)),
            },
            Err(_) => {
                give_up(mode);
                return Err(ParseError::Memory);
            }
        }
    }
    ended(stack, mode, text, tokens)
}

/// The tree of the tokens of a text of at most 1,048,576 bytes, of at most 64 levels and 256 operators in an expression. Linear in their number.
pub fn parse(alloc: Global, text: &[u8], tokens: &Seq<Token>) -> Result<Tree, ParseError>
    requires text { length text.now ≤ 1048576 }
    requires reads { Reads text.now tokens.now }
    // The tokens derive the tree that is found, within the limits.
    ensures derives { IfOk result (λ tree. Derives text.now tokens.now tree) }
    ensures within { OnOk result (WithinLimits (terminals text.now tokens.now)) }
    // A refusal names the rule of grammar that is broken first, its place, and how many tokens are before it.
    ensures refused { (rule : Rule) (pos : Pos) (k : ℕ) → result ≡ Err (Refused rule pos k) → FirstBroken (terminals text.now tokens.now) rule k × PlaceOf text.now tokens.now k pos }
{
    let mut stack = Stack::new(alloc);
    let answer = all_taken(alloc, &mut stack, text, tokens.items());
    give_up(stack);
    match answer {
        Ok(list) => Ok(Tree {
            body: Block { list },
        }),
        Err(e) => Err(e),
    }
}
