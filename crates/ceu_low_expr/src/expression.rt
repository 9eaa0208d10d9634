// The lines of an expression, which push its value: operands from left to right, then the operator.
ghost use Rattle.std.specs.Prelude.{◌≡◌, ◌+◌, ◌<◌, ◌++◌, ◌∷◌, [], pos, OnOk};
ghost use Rattle.ceu_base.specs.declared.kinds.Ty.TheVariants as ty;
ghost use Rattle.ceu_code.specs.declared.instr.Instr.TheVariants as instr;
ghost use Rattle.ceu_tree.specs.Weight.{exp_count};
ghost use Rattle.ceu_shape.specs.Expressions.{exp_draft, and_draft, or_draft, binary_draft, two_draft};
ghost use Rattle.ceu_shape.specs.Pieces.{Added, both, text, placed};
ghost use Rattle.ceu_shape.specs.Words.{goto, goto_if_false, load, mark, plain};
ghost use Rattle.ceu_low_expr.specs.Conditions.{HasRoom, NamesBelow};

use crate::types::operator_ty;
use ceu_asm::{Line, Sheet};
use ceu_base::{Op2, Pos, Ty};
use ceu_code::Instr;
use ceu_slots::Places;
use ceu_tree::{KExp, KExpNode, Loc};
use std::alloc::AllocError;

fn push_line(ty: Ty, value: &i128) -> Line
    ensures { result ≡ plain (instr.Push ty value.now) }
{
    Line::Plain(Instr::Push(ty, *value))
}

fn load_line<P: Places>(places: &P, loc: Loc) -> Line
    requires { loc.slot < (P.planned places.now).slot_count }
    ensures { result ≡ load (P.planned places.now).offset loc }
{
    let offset = places.offset(loc.slot);
    if loc.outer {
        Line::Plain(Instr::LoadOuter(loc.ty, offset))
    } else {
        Line::Plain(Instr::Load(loc.ty, offset))
    }
}

// The two labels of `and` and of `or`.
fn two_labels(sheet: &mut Sheet) -> u32
    requires { sheet.old.labels + 2 < 4294967296 }
    ensures first { result ≡ sheet.old.labels }
    ensures given { sheet.new ≡ record sheet.old { labels = sheet.old.labels + 2 } }
{
    let first = sheet.label();
    sheet.label();
    first
}

// Behind the right operand of `and`: where the left one is false the value is false.
fn end_and(sheet: &mut Sheet, no: u32) -> Result<(), AllocError>
    requires { no + 1 < 4294967296 }
    ensures { OnOk result (sheet.new ≡ record sheet.old { lines = sheet.old.lines ++ (goto (no + 1) ∷ mark no ∷ plain (instr.Push ty.Bool (pos 0)) ∷ mark (no + 1) ∷ []) }) }
{
    sheet.add(Line::Jump(Instr::Jump(0), no + 1))?;
    sheet.add(Line::Mark(no))?;
    sheet.add(Line::Plain(Instr::Push(Ty::Bool, 0)))?;
    sheet.add(Line::Mark(no + 1))
}

// In front of the right operand of `or`: where the left one is true the value is true.
fn begin_or(sheet: &mut Sheet, no: u32) -> Result<(), AllocError>
    requires { no + 1 < 4294967296 }
    ensures { OnOk result (sheet.new ≡ record sheet.old { lines = sheet.old.lines ++ (goto_if_false no ∷ plain (instr.Push ty.Bool (pos 1)) ∷ goto (no + 1) ∷ mark no ∷ []) }) }
{
    sheet.add(Line::Jump(Instr::JumpIfFalse(0), no))?;
    sheet.add(Line::Plain(Instr::Push(Ty::Bool, 1)))?;
    sheet.add(Line::Jump(Instr::Jump(0), no + 1))?;
    sheet.add(Line::Mark(no))
}

#[cycle(lowering)]
fn lower_and<P: Places>(
    sheet: &mut Sheet,
    places: &P,
    left: &KExp,
    right: &KExp,
) -> Result<(), AllocError>
    requires names { NamesBelow (P.planned places.now).slot_count left.now × NamesBelow (P.planned places.now).slot_count right.now }
    requires room { HasRoom sheet.old (1 + exp_count left.now + exp_count right.now) }
    ensures { OnOk result (Added sheet.old sheet.new (and_draft (exp_draft (P.planned places.now).offset left.now) (exp_draft (P.planned places.now).offset right.now))) }
{
    let no = two_labels(sheet);
    lower_exp(sheet, places, left)?;
    sheet.add(Line::Jump(Instr::JumpIfFalse(0), no))?;
    lower_exp(sheet, places, right)?;
    end_and(sheet, no)
}

#[cycle(lowering)]
fn lower_or<P: Places>(
    sheet: &mut Sheet,
    places: &P,
    left: &KExp,
    right: &KExp,
) -> Result<(), AllocError>
    requires names { NamesBelow (P.planned places.now).slot_count left.now × NamesBelow (P.planned places.now).slot_count right.now }
    requires room { HasRoom sheet.old (1 + exp_count left.now + exp_count right.now) }
    ensures { OnOk result (Added sheet.old sheet.new (or_draft (exp_draft (P.planned places.now).offset left.now) (exp_draft (P.planned places.now).offset right.now))) }
{
    let no = two_labels(sheet);
    lower_exp(sheet, places, left)?;
    begin_or(sheet, no)?;
    lower_exp(sheet, places, right)?;
    sheet.add(Line::Mark(no + 1))
}

// An operator on two operands that are both evaluated.
#[cycle(lowering)]
fn lower_binary<P: Places>(
    sheet: &mut Sheet,
    places: &P,
    op: Op2,
    ty: Ty,
    place: Pos,
    left: &KExp,
    right: &KExp,
) -> Result<(), AllocError>
    requires names { NamesBelow (P.planned places.now).slot_count left.now × NamesBelow (P.planned places.now).slot_count right.now }
    requires room { HasRoom sheet.old (1 + exp_count left.now + exp_count right.now) }
    ensures { OnOk result (Added sheet.old sheet.new (binary_draft op ty place (exp_draft (P.planned places.now).offset left.now) (exp_draft (P.planned places.now).offset right.now))) }
{
    lower_exp(sheet, places, left)?;
    lower_exp(sheet, places, right)?;
    let number = sheet.place(place)?;
    sheet.add(Line::Plain(Instr::Binary(op, ty, number)))
}

#[cycle(lowering)]
fn lower_two<P: Places>(
    sheet: &mut Sheet,
    places: &P,
    op: Op2,
    ty: Ty,
    place: Pos,
    left: &KExp,
    right: &KExp,
) -> Result<(), AllocError>
    requires names { NamesBelow (P.planned places.now).slot_count left.now × NamesBelow (P.planned places.now).slot_count right.now }
    requires room { HasRoom sheet.old (1 + exp_count left.now + exp_count right.now) }
    ensures { OnOk result (Added sheet.old sheet.new (two_draft op ty left.now.ty right.now.ty place (exp_draft (P.planned places.now).offset left.now) (exp_draft (P.planned places.now).offset right.now))) }
{
    match op {
        Op2::And => lower_and(sheet, places, left, right),
        Op2::Or => lower_or(sheet, places, left, right),
        _ => {
            let shared = operator_ty(op, ty, left.ty, right.ty);
            lower_binary(sheet, places, op, shared, place, left, right)
        }
    }
}

/// Adds the lines of an expression, which push its value. The sheet must have room for two labels and one position a node.
#[cycle(lowering)]
pub fn lower_exp<P: Places>(sheet: &mut Sheet, places: &P, exp: &KExp) -> Result<(), AllocError>
    requires names { NamesBelow (P.planned places.now).slot_count exp.now }
    requires room { HasRoom sheet.old (exp_count exp.now) }
    ensures { OnOk result (Added sheet.old sheet.new (exp_draft (P.planned places.now).offset exp.now)) }
{
    match &exp.node {
        KExpNode::Const(value) => sheet.add(push_line(exp.ty, value)),
        KExpNode::Read(loc) => sheet.add(load_line(places, *loc)),
        KExpNode::Alive(slot) => sheet.add(Line::Plain(Instr::Alive(places.offset(*slot)))),
        KExpNode::One(op, a) => {
            lower_exp(sheet, places, a.get())?;
            let number = sheet.place(exp.pos)?;
            sheet.add(Line::Plain(Instr::Prefix(*op, exp.ty, number)))
        }
        KExpNode::Two(op, a, b) => {
            lower_two(sheet, places, *op, exp.ty, exp.pos, a.get(), b.get())
        }
        KExpNode::As(a) => {
            lower_exp(sheet, places, a.get())?;
            sheet.add(Line::Plain(Instr::Convert(a.get().ty, exp.ty)))
        }
    }
}
