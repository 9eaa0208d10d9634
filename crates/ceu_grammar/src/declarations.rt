// Tokens of declarations.
#![tactic(none)]

ghost use Rattle.std.specs.Prelude.{◌≡◌, [], ◌∷◌, ◌++◌, List, Some};
ghost use Rattle.ceu_syntax.specs.Trees as tree;
ghost use Rattle.ceu_syntax.specs.declared.machine.Coding.TheVariants as coding;
ghost use Rattle.ceu_syntax.specs.declared.machine.Mode.TheVariants as m;
ghost use Rattle.ceu_grammar.specs.Moves.{Moves};
ghost use Rattle.ceu_syntax.specs.Steps as spec;
ghost use Rattle.ceu_syntax.specs.declared.machine.Frame.{Frame};

use crate::blocks::{item_end, opened};
use crate::ends::{closed, items_closed, items_on};
use crate::stack::Stack;
use crate::steps::{appended, exhaust, pushed, refuse};
use crate::stop::Stop;
use crate::tables::saturated;
use crate::trees::ident;
use ceu_base::{Pos, Seq, Ty};
use ceu_syntax::{Acting, Body, Case, Coding, Declaring, Frame, Kind, Listed, Mode, Opening};
use ceu_tree::{Ident, Item, Param, Stmt};
use std::alloc::Global;

fn case_of(listed: Listed) -> Case
    ensures { result ≡ spec.case_of listed }
{
    match listed {
        Listed::Events(_) => Case::Lower,
        Listed::Inputs(_) => Case::Upper,
        Listed::Outputs(_) => Case::Upper,
        Listed::Shared => Case::Lower,
    }
}

fn declares(stack: &mut Stack, listed: Listed, names: Seq<Ident>) -> Result<Mode, Stop>
    ensures { Moves result stack.new (spec.declares listed names stack.old) }
{
    match listed {
        Listed::Events(ty) => closed(stack, Stmt::Events(ty, names)),
        Listed::Inputs(ty) => closed(stack, Stmt::Inputs(ty, names)),
        Listed::Outputs(ty) => closed(stack, Stmt::Outputs(ty, names)),
        Listed::Shared => refuse(names),
    }
}

fn shares(listed: Listed, names: Seq<Ident>) -> Result<Mode, Stop>
    ensures { (K : List Frame) → Moves result K (spec.shares listed names K) }
{
    match listed {
        Listed::Shared => Ok(Mode::Opening(Opening::AsyncDo(names))),
        _ => refuse(names),
    }
}

fn listed_name(name: Ident, listed: Listed, names: Seq<Ident>) -> Result<Mode, Stop>
    ensures { (K : List Frame) → Moves result K (spec.listed_name name listed names K) }
{
    match appended(names, name) {
        Ok(names) => Ok(Mode::Declaring(Declaring::NameEnd(listed, names))),
        Err(_) => Err(Stop::Memory),
    }
}

fn of_name(
    case: Case,
    kind: Kind,
    pos: Pos,
    listed: Listed,
    names: Seq<Ident>,
) -> Result<Mode, Stop>
    ensures { (K : List Frame) → Moves result K (spec.of_name case kind pos listed names K) }
{
    match case {
        Case::Lower => match kind {
            Kind::Lower(name) => listed_name(ident(name, pos), listed, names),
            kind => refuse((kind, names)),
        },
        Case::Upper => match kind {
            Kind::Ext(name) => listed_name(ident(name, pos), listed, names),
            kind => refuse((kind, names)),
        },
    }
}

fn name_end(stack: &mut Stack, kind: Kind, listed: Listed, names: Seq<Ident>) -> Result<Mode, Stop>
    ensures { Moves result stack.new (spec.of_name_end kind listed names stack.old) }
{
    match kind {
        Kind::Comma => Ok(Mode::Declaring(Declaring::Name(listed, names))),
        Kind::Semicolon => declares(stack, listed, names),
        Kind::CloseParen => shares(listed, names),
        kind => refuse((kind, names)),
    }
}

/// Takes a token of a declaration.
pub fn declared(
    alloc: Global,
    stack: &mut Stack,
    mode: Declaring,
    kind: Kind,
    pos: Pos,
) -> Result<Mode, Stop>
    ensures { Moves result stack.new (spec.declared mode kind pos stack.old) }
{
    match mode {
        Declaring::Var => match kind {
            Kind::Type(ty) => Ok(Mode::Declaring(Declaring::Item(ty, Seq::new(alloc)))),
            Kind::Ampersand => Ok(Mode::Declaring(Declaring::AliasMark)),
            kind => refuse(kind),
        },
        Declaring::AliasMark => match kind {
            Kind::Question => Ok(Mode::Declaring(Declaring::AliasCode)),
            kind => refuse(kind),
        },
        Declaring::AliasCode => match kind {
            Kind::Abs(name) => Ok(Mode::Declaring(Declaring::AliasName(ident(name, pos)))),
            kind => refuse(kind),
        },
        Declaring::AliasName(code) => match kind {
            Kind::Lower(name) => {
                Ok(Mode::Declaring(Declaring::AliasValue(code, ident(name, pos))))
            }
            kind => refuse((kind, code)),
        },
        Declaring::AliasValue(code, x) => match kind {
            Kind::Semicolon => { closed(stack, Stmt::AliasDecl(code, x, None)) }
            Kind::Assign => pushed(
                stack,
                Frame::Alias(code, x),
                Mode::Declaring(Declaring::AliasSpawn),
            ),
            kind => refuse((kind, code, x)),
        },
        Declaring::AliasSpawn => match kind {
            Kind::Spawn => pushed(stack, Frame::Spawn(pos), Mode::Acting(Acting::Spawn)),
            kind => refuse(kind),
        },
        Declaring::Item(ty, items) => match kind {
            Kind::Lower(name) => {
                Ok(Mode::Declaring(Declaring::ItemValue(ty, items, ident(name, pos))))
            }
            kind => refuse((kind, items)),
        },
        Declaring::ItemValue(ty, items, x) => item_value(stack, kind, ty, items, x),
        Declaring::ItemEnd(ty, items) => match kind {
            Kind::Comma => Ok(Mode::Declaring(Declaring::Item(ty, items))),
            kind => item_end(alloc, stack, kind, pos, Stmt::Vars(ty, items)),
        },
        Declaring::EventType => match kind {
            Kind::Type(ty) => Ok(Mode::Declaring(Declaring::Name(
                Listed::Events(ty),
                Seq::new(alloc),
            ))),
            kind => refuse(kind),
        },
        Declaring::InputType => match kind {
            Kind::Type(ty) => Ok(Mode::Declaring(Declaring::Name(
                Listed::Inputs(ty),
                Seq::new(alloc),
            ))),
            kind => refuse(kind),
        },
        Declaring::OutputType => match kind {
            Kind::Type(ty) => Ok(Mode::Declaring(Declaring::Name(
                Listed::Outputs(ty),
                Seq::new(alloc),
            ))),
            kind => refuse(kind),
        },
        Declaring::Name(listed, names) => of_name(case_of(listed), kind, pos, listed, names),
        Declaring::NameEnd(listed, names) => name_end(stack, kind, listed, names),
        Declaring::Pool => match kind {
            Kind::OpenBracket => Ok(Mode::Declaring(Declaring::PoolCount)),
            kind => refuse(kind),
        },
        Declaring::PoolCount => match kind {
            Kind::Number(n) => Ok(Mode::Declaring(Declaring::PoolClose(saturated(n)))),
            kind => refuse(kind),
        },
        Declaring::PoolClose(n) => match kind {
            Kind::CloseBracket => Ok(Mode::Declaring(Declaring::PoolCode(n))),
            kind => refuse(kind),
        },
        Declaring::PoolCode(n) => match kind {
            Kind::Abs(name) => Ok(Mode::Declaring(Declaring::PoolName(n, ident(name, pos)))),
            kind => refuse(kind),
        },
        Declaring::PoolName(n, code) => match kind {
            Kind::Lower(name) => { Ok(Mode::Semicolon(Stmt::Pool(n, code, ident(name, pos)))) }
            kind => refuse((kind, code)),
        },
    }
}

fn item_value(
    stack: &mut Stack,
    kind: Kind,
    ty: Ty,
    items: Seq<Item>,
    x: Ident,
) -> Result<Mode, Stop>
    ensures { Moves result stack.new (spec.item_value kind ty items x stack.old) }
{
    match kind {
        Kind::Assign => pushed(
            stack,
            Frame::Initial(ty, items, x),
            Mode::Acting(Acting::Source),
        ),
        Kind::Comma => items_on(ty, items, x, None),
        Kind::Semicolon => items_closed(stack, ty, items, x, None),
        kind => refuse((kind, items, x)),
    }
}

fn param_on(code: Ident, params: Seq<Param>, ty: Ty, name: Ident) -> Result<Mode, Stop>
    ensures { (K : List Frame) → Moves result K (Some (spec.state K (m.Coding (coding.ParamEnd code (params ++ tree.param ty name ∷ []))))) }
{
    match appended(params, Param { ty, name }) {
        Ok(params) => Ok(Mode::Coding(Coding::ParamEnd(code, params))),
        Err(_) => exhaust(code),
    }
}

/// Takes a token of the head of a code.
pub fn coded(
    alloc: Global,
    stack: &mut Stack,
    mode: Coding,
    kind: Kind,
    pos: Pos,
) -> Result<Mode, Stop>
    ensures { Moves result stack.new (spec.coded mode kind pos stack.old) }
{
    match mode {
        Coding::Slash => match kind {
            Kind::Slash => Ok(Mode::Coding(Coding::Await)),
            kind => refuse(kind),
        },
        Coding::Await => match kind {
            Kind::Await => Ok(Mode::Coding(Coding::Name)),
            kind => refuse(kind),
        },
        Coding::Name => match kind {
            Kind::Abs(name) => Ok(Mode::Coding(Coding::Open(ident(name, pos)))),
            kind => refuse(kind),
        },
        Coding::Open(code) => match kind {
            Kind::OpenParen => Ok(Mode::Coding(Coding::Params(code))),
            kind => refuse((kind, code)),
        },
        Coding::Params(code) => params(alloc, kind, code),
        Coding::NoParams(code) => match kind {
            Kind::CloseParen => Ok(Mode::Coding(Coding::Arrow(code, Seq::new(alloc)))),
            kind => refuse((kind, code)),
        },
        Coding::Param(code, params) => match kind {
            Kind::Var => Ok(Mode::Coding(Coding::ParamType(code, params))),
            kind => refuse((kind, code, params)),
        },
        Coding::ParamType(code, params) => match kind {
            Kind::Type(ty) => Ok(Mode::Coding(Coding::ParamName(code, params, ty))),
            kind => refuse((kind, code, params)),
        },
        Coding::ParamName(code, params, ty) => match kind {
            Kind::Lower(name) => param_on(code, params, ty, ident(name, pos)),
            kind => refuse((kind, code, params)),
        },
        Coding::ParamEnd(code, params) => match kind {
            Kind::Comma => Ok(Mode::Coding(Coding::Param(code, params))),
            Kind::CloseParen => Ok(Mode::Coding(Coding::Arrow(code, params))),
            kind => refuse((kind, code, params)),
        },
        Coding::Arrow(code, params) => match kind {
            Kind::Arrow => Ok(Mode::Coding(Coding::Result(code, params))),
            kind => refuse((kind, code, params)),
        },
        Coding::Result(code, params) => match kind {
            Kind::Type(ty) => Ok(Mode::Coding(Coding::Do(code, params, ty))),
            kind => refuse((kind, code, params)),
        },
        Coding::Do(code, params, ty) => match kind {
            Kind::Do => opened(alloc, stack, Body::Code(code, params, ty)),
            kind => refuse((kind, code, params)),
        },
    }
}

fn no_params(ty: Ty, code: Ident) -> Result<Mode, Stop>
    ensures { (K : List Frame) → Moves result K (spec.no_params_of ty code K) }
{
    match ty {
        Ty::None => Ok(Mode::Coding(Coding::NoParams(code))),
        _ => refuse(code),
    }
}

fn params(alloc: Global, kind: Kind, code: Ident) -> Result<Mode, Stop>
    ensures { (K : List Frame) → Moves result K (spec.of_params kind code K) }
{
    match kind {
        Kind::CloseParen => Ok(Mode::Coding(Coding::Arrow(code, Seq::new(alloc)))),
        Kind::Type(ty) => no_params(ty, code),
        Kind::Var => Ok(Mode::Coding(Coding::ParamType(code, Seq::new(alloc)))),
        kind => refuse((kind, code)),
    }
}
