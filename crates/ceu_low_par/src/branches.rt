// What each branch of a par adds, in the order of the branches.
ghost use Rattle.std.specs.Prelude.{◌≡◌, ◌+◌, ◌*◌, ◌^◌, ◌<◌, ◌≤◌, ◌++◌, [], ◌∷◌, pos, length, slice_index, OnOk};
ghost use Rattle.ceu_base.specs.declared.kinds.Ty.TheVariants as ty;
ghost use Rattle.ceu_code.specs.declared.instr.Instr.TheVariants as instr;
ghost use Rattle.ceu_asm.specs.declared.line.Line.TheVariants as line;
ghost use Rattle.ceu_shape.specs.Par as spec;
ghost use Rattle.ceu_shape.specs.Words.{begin_of, end_of, goto, goto_if_false, mark, plain};
ghost use Rattle.ceu_low_par.specs.Conditions.{AreNodes, HasParts, nodes_of, planned};

use crate::words::{add_all, begin, end, goto, move_to};
use ceu_asm::{Labels, Line, Sheet};
use ceu_base::Ty;
use ceu_code::Instr;
use ceu_gates::GatePlan;
use ceu_slots::Places;
use ceu_tree::KBlock;
use std::alloc::AllocError;

// ---- all kinds: the branches behind the first can run at the level of the par

fn add_fork(
    sheet: &mut Sheet,
    gates: &GatePlan,
    labels: &Labels,
    part: usize,
    node: u32,
) -> Result<(), AllocError>
    requires node { node < length gates.now.first }
    requires parts { 2 * part + 1 < length labels.now.parts }
    ensures { OnOk result (sheet.new ≡ record sheet.old { lines = sheet.old.lines ++ line.Jump (instr.Fork (slice_index gates.now.first node) 0) (begin_of labels.now part) ∷ [] }) }
{
    let first = gates.first.items()[node as usize];
    sheet.add(Line::Jump(Instr::Fork(first, 0), begin(labels, part)))
}

pub fn add_forks<P: Places>(
    sheet: &mut Sheet,
    places: &P,
    gates: &GatePlan,
    labels: &Labels,
    branches: &[KBlock],
) -> Result<(), AllocError>
    requires nodes { AreNodes (length gates.now.first) (nodes_of branches.now) }
    requires parts { HasParts labels.now (length branches.now) }
    ensures { let plan = planned (P.planned places.now) gates.now in OnOk result (sheet.new ≡ record sheet.old { lines = sheet.old.lines ++ spec.forks plan labels.now 1 (spec.rest plan labels.now (nodes_of branches.now)) }) }
{
    for k in 1..branches.len() {
        add_fork(sheet, gates, labels, k, branches[k].node)?;
    }
    Ok(())
}

// ---- par: an ended branch waits for ever, at its first gate

fn add_waiting_end(
    sheet: &mut Sheet,
    gates: &GatePlan,
    labels: &Labels,
    part: usize,
    node: u32,
) -> Result<(), AllocError>
    requires node { node < length gates.now.first }
    requires parts { 2 * part + 1 < length labels.now.parts }
    ensures { OnOk result (sheet.new ≡ record sheet.old { lines = sheet.old.lines ++ (mark (end_of labels.now part) ∷ plain (instr.Move (slice_index gates.now.first node)) ∷ plain instr.WaitForever ∷ []) }) }
{
    let lines = [
        Line::Mark(end(labels, part)),
        move_to(gates, node),
        Line::Plain(Instr::WaitForever),
    ];
    add_all(sheet, &lines)
}

pub fn add_waiting_ends<P: Places>(
    sheet: &mut Sheet,
    places: &P,
    gates: &GatePlan,
    labels: &Labels,
    branches: &[KBlock],
) -> Result<(), AllocError>
    requires nodes { AreNodes (length gates.now.first) (nodes_of branches.now) }
    requires parts { HasParts labels.now (length branches.now) }
    ensures { let plan = planned (P.planned places.now) gates.now in OnOk result (sheet.new ≡ record sheet.old { lines = sheet.old.lines ++ spec.waiting_ends plan labels.now 0 (nodes_of branches.now) }) }
{
    for k in 0..branches.len() {
        add_waiting_end(sheet, gates, labels, k, branches[k].node)?;
    }
    Ok(())
}

// ---- par/or: each branch ends at the same place

pub fn add_ends<P: Places>(
    sheet: &mut Sheet,
    places: &P,
    gates: &GatePlan,
    labels: &Labels,
    branches: &[KBlock],
) -> Result<(), AllocError>
    requires { HasParts labels.now (length branches.now) }
    ensures { let plan = planned (P.planned places.now) gates.now in OnOk result (sheet.new ≡ record sheet.old { lines = sheet.old.lines ++ spec.ends plan labels.now 0 (nodes_of branches.now) }) }
{
    for k in 0..branches.len() {
        sheet.add(Line::Mark(end(labels, k)))?;
    }
    Ok(())
}

// ---- par/and: a byte for each branch says that it has ended

fn add_clear<P: Places>(sheet: &mut Sheet, places: &P, slot: u32) -> Result<(), AllocError>
    requires { slot < (P.planned places.now).slot_count }
    ensures { OnOk result (sheet.new ≡ record sheet.old { lines = sheet.old.lines ++ (plain (instr.Push ty.Bool (pos 0)) ∷ plain (instr.Store ty.Bool ((P.planned places.now).offset slot)) ∷ []) }) }
{
    let lines = [
        Line::Plain(Instr::Push(Ty::Bool, 0)),
        Line::Plain(Instr::Store(Ty::Bool, places.offset(slot))),
    ];
    add_all(sheet, &lines)
}

pub fn add_cleared<P: Places>(
    sheet: &mut Sheet,
    places: &P,
    gates: &GatePlan,
    labels: &Labels,
    branches: &[KBlock],
    slot: u32,
) -> Result<(), AllocError>
    requires there { slot + length branches.now ≤ (P.planned places.now).slot_count }
    requires few { (P.planned places.now).slot_count < 2 ^ 32 }
    ensures { let plan = planned (P.planned places.now) gates.now in OnOk result (sheet.new ≡ record sheet.old { lines = sheet.old.lines ++ spec.cleared plan labels.now slot (nodes_of branches.now) }) }
{
    for k in 0..branches.len() {
        add_clear(sheet, places, slot + k as u32)?;
    }
    Ok(())
}

fn add_set_end<P: Places>(
    sheet: &mut Sheet,
    places: &P,
    labels: &Labels,
    part: usize,
    slot: u32,
    join: u32,
) -> Result<(), AllocError>
    requires slot { slot < (P.planned places.now).slot_count }
    requires parts { 2 * part + 1 < length labels.now.parts }
    ensures { OnOk result (sheet.new ≡ record sheet.old { lines = sheet.old.lines ++ (mark (end_of labels.now part) ∷ plain (instr.Push ty.Bool (pos 1)) ∷ plain (instr.Store ty.Bool ((P.planned places.now).offset slot)) ∷ goto join ∷ []) }) }
{
    let lines = [
        Line::Mark(end(labels, part)),
        Line::Plain(Instr::Push(Ty::Bool, 1)),
        Line::Plain(Instr::Store(Ty::Bool, places.offset(slot))),
        goto(join),
    ];
    add_all(sheet, &lines)
}

pub fn add_set_ends<P: Places>(
    sheet: &mut Sheet,
    places: &P,
    gates: &GatePlan,
    labels: &Labels,
    branches: &[KBlock],
    slot: u32,
    join: u32,
) -> Result<(), AllocError>
    requires there { slot + length branches.now ≤ (P.planned places.now).slot_count }
    requires few { (P.planned places.now).slot_count < 2 ^ 32 }
    requires parts { HasParts labels.now (length branches.now) }
    ensures { let plan = planned (P.planned places.now) gates.now in OnOk result (sheet.new ≡ record sheet.old { lines = sheet.old.lines ++ spec.set_ends plan labels.now 0 slot join (nodes_of branches.now) }) }
{
    for k in 0..branches.len() {
        add_set_end(sheet, places, labels, k, slot + k as u32, join)?;
    }
    Ok(())
}

fn add_test<P: Places>(
    sheet: &mut Sheet,
    places: &P,
    slot: u32,
    halt: u32,
) -> Result<(), AllocError>
    requires { slot < (P.planned places.now).slot_count }
    ensures { OnOk result (sheet.new ≡ record sheet.old { lines = sheet.old.lines ++ (plain (instr.Load ty.Bool ((P.planned places.now).offset slot)) ∷ goto_if_false halt ∷ []) }) }
{
    let lines = [
        Line::Plain(Instr::Load(Ty::Bool, places.offset(slot))),
        Line::Jump(Instr::JumpIfFalse(0), halt),
    ];
    add_all(sheet, &lines)
}

/// Where some branch hasn't ended, the trail halts.
pub fn add_tests<P: Places>(
    sheet: &mut Sheet,
    places: &P,
    gates: &GatePlan,
    labels: &Labels,
    branches: &[KBlock],
    slot: u32,
    halt: u32,
) -> Result<(), AllocError>
    requires there { slot + length branches.now ≤ (P.planned places.now).slot_count }
    requires few { (P.planned places.now).slot_count < 2 ^ 32 }
    ensures { let plan = planned (P.planned places.now) gates.now in OnOk result (sheet.new ≡ record sheet.old { lines = sheet.old.lines ++ spec.tests plan labels.now slot halt (nodes_of branches.now) }) }
{
    for k in 0..branches.len() {
        add_test(sheet, places, slot + k as u32, halt)?;
    }
    Ok(())
}
