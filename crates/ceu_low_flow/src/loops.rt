// Loops, whose head is a label that they take, and if.
ghost use Rattle.std.specs.Prelude.{◌≡◌, ◌+◌, ◌-◌, ◌*◌, ◌^◌, ◌<◌, ◌≤◌, ◌++◌, length, OnOk};
ghost use Rattle.ceu_shape.specs.Flow as spec;
ghost use Rattle.ceu_shape.specs.Pieces.{Added};
ghost use Rattle.ceu_shape.specs.Shape.{ends_count};
ghost use Rattle.ceu_low_flow.specs.Conditions.{HasParts, HasRoom, LoopFits};

use crate::words::{add_all, add_part, begin, end, goto};
use ceu_asm::{Labels, Line, Sheet};
use ceu_base::{Pos, Ty};
use ceu_code::Instr;
use ceu_slots::Places;
use ceu_tree::KLoop;
use std::alloc::AllocError;

/// The body, and behind it to the head.
fn lower_turn(
    sheet: &mut Sheet,
    yields: bool,
    body: usize,
    labels: &Labels,
    head: u32,
) -> Result<(), AllocError>
    requires { 2 * body + 1 < length labels.now.parts }
    ensures { OnOk result (sheet.new ≡ record sheet.old { lines = sheet.old.lines ++ spec.turn_lines yields body labels.now head }) }
{
    add_part(sheet, labels, body)?;
    if yields {
        sheet.add(Line::Plain(Instr::YieldAsync))?;
    }
    sheet.add(goto(head))
}

fn lower_free(sheet: &mut Sheet, yields: bool, labels: &Labels, head: u32) -> Result<(), AllocError>
    requires { HasParts labels.now 1 }
    ensures { OnOk result (sheet.new ≡ record sheet.old { lines = sheet.old.lines ++ spec.free_lines yields labels.now head }) }
{
    add_all(sheet, &[Line::Mark(labels.own), Line::Mark(head)])?;
    lower_turn(sheet, yields, 0, labels, head)
}

// Counts its turns at a slot, of which it may have so many.
fn lower_times<P: Places>(
    sheet: &mut Sheet,
    places: &P,
    yields: bool,
    slot: u32,
    limit: u32,
    position: u16,
    labels: &Labels,
    head: u32,
) -> Result<(), AllocError>
    requires slot { slot < (P.planned places.now).slot_count }
    requires parts { HasParts labels.now 1 }
    ensures { OnOk result (sheet.new ≡ record sheet.old { lines = sheet.old.lines ++ spec.times_lines (P.planned places.now).offset yields slot limit position labels.now head }) }
{
    let offset = places.offset(slot);
    let start = [
        Line::Mark(labels.own),
        Line::Plain(Instr::Push(Ty::U32, 0)),
        Line::Plain(Instr::Store(Ty::U32, offset)),
        Line::Mark(head),
        Line::Plain(Instr::Limit(offset, limit, position)),
    ];
    add_all(sheet, &start)?;
    lower_turn(sheet, yields, 0, labels, head)
}

fn one_if(test: bool) -> u8
    ensures value { result ≡ spec.one_if test }
    ensures small { result ≤ 1 }
{
    if test { 1 } else { 0 }
}

// From the first to the last number of a range.
fn lower_range<P: Places>(
    sheet: &mut Sheet,
    places: &P,
    yields: bool,
    slots: (u32, u32, u32),
    opens: (bool, bool),
    labels: &Labels,
    head: u32,
) -> Result<(), AllocError>
    requires variable { slots.0 < (P.planned places.now).slot_count }
    requires next { slots.1 < (P.planned places.now).slot_count }
    requires last { slots.2 < (P.planned places.now).slot_count }
    requires parts { HasParts labels.now 3 }
    ensures { OnOk result (sheet.new ≡ record sheet.old { lines = sheet.old.lines ++ spec.range_lines (P.planned places.now).offset yields slots.0 slots.1 slots.2 opens.0 opens.1 labels.now head }) }
{
    let variable = places.offset(slots.0);
    let next = places.offset(slots.1);
    let last = places.offset(slots.2);
    sheet.add(Line::Mark(labels.own))?;
    add_part(sheet, labels, 0)?;
    sheet.add(Line::Plain(Instr::RangeBound(next, 1 + one_if(opens.0))))?;
    add_part(sheet, labels, 1)?;
    let start = [
        Line::Plain(Instr::RangeBound(last, 1 - one_if(opens.1))),
        Line::Mark(head),
        Line::Jump(Instr::RangeNext(next, variable, 0), labels.next),
    ];
    add_all(sheet, &start)?;
    lower_turn(sheet, yields, 2, labels, head)
}

/// A loop, which takes a label for its head, and where it counts its turns notes its position.
pub fn lower_loop<P: Places>(
    sheet: &mut Sheet,
    places: &P,
    yields: bool,
    node: u32,
    place: Pos,
    kind: &KLoop,
    labels: &Labels,
) -> Result<(), AllocError>
    requires fits { LoopFits (P.planned places.now).slot_count kind.now }
    requires parts { HasParts labels.now (ends_count kind.now + 1) }
    requires room { HasRoom sheet.old 1 }
    ensures { OnOk result (Added sheet.old sheet.new (spec.loop_draft (P.planned places.now).offset yields node place kind.now labels.now)) }
{
    let head = sheet.label();
    match kind {
        KLoop::Free => lower_free(sheet, yields, labels, head),
        KLoop::Times(slot, limit) => {
            let number = sheet.place(place)?;
            lower_times(sheet, places, yields, *slot, *limit, number, labels, head)
        }
        KLoop::Range(variable, next, last, open_a, _, _, open_b) => {
            let slots = (*variable, *next, *last);
            lower_range(
                sheet,
                places,
                yields,
                slots,
                (*open_a, *open_b),
                labels,
                head,
            )
        }
    }
}

// ---- if

// Each arm: its condition, and where it is true its body, else the next test, at a label.
fn lower_arms(sheet: &mut Sheet, arms: usize, labels: &Labels, first: u32) -> Result<(), AllocError>
    requires parts { 4 * arms ≤ length labels.now.parts }
    requires labels { first + arms < 2 ^ 32 }
    ensures { OnOk result (sheet.new ≡ record sheet.old { lines = sheet.old.lines ++ spec.arms_lines labels.now 0 first arms }) }
{
    for arm in 0..arms {
        let over = first + arm as u32;
        add_part(sheet, labels, 2 * arm)?;
        let jumps = [
            Line::Jump(Instr::JumpIfFalse(0), over),
            goto(begin(labels, 2 * arm + 1)),
            Line::Mark(over),
        ];
        add_all(sheet, &jumps)?;
    }
    Ok(())
}

fn lower_ends(sheet: &mut Sheet, arms: usize, labels: &Labels) -> Result<(), AllocError>
    requires parts { 4 * arms ≤ length labels.now.parts }
    requires few { arms < 2 ^ 32 }
    ensures { OnOk result (sheet.new ≡ record sheet.old { lines = sheet.old.lines ++ spec.arm_ends labels.now 0 arms }) }
{
    for arm in 0..arms {
        sheet.add(Line::Mark(end(labels, 2 * arm + 1)))?;
    }
    Ok(())
}

// So many labels, of which this is the first.
fn take_labels(sheet: &mut Sheet, count: usize) -> u32
    requires some { 0 < count }
    requires room { sheet.old.labels + count < 2 ^ 32 }
    ensures first { result ≡ sheet.old.labels }
    ensures given { sheet.new ≡ record sheet.old { labels = sheet.old.labels + count } }
{
    let first = sheet.label();
    for _taken in 1..count {
        sheet.label();
    }
    first
}

fn add_tests(sheet: &mut Sheet, arms: usize, labels: &Labels, first: u32) -> Result<(), AllocError>
    requires parts { HasParts labels.now (2 * arms + 1) }
    requires labels { first + arms < 2 ^ 32 }
    ensures { OnOk result (sheet.new ≡ record sheet.old { lines = sheet.old.lines ++ spec.if_lines arms labels.now first }) }
{
    sheet.add(Line::Mark(labels.own))?;
    lower_arms(sheet, arms, labels, first)?;
    sheet.add(goto(begin(labels, 2 * arms)))?;
    lower_ends(sheet, arms, labels)?;
    add_all(
        sheet,
        &[Line::Mark(end(labels, 2 * arms)), goto(labels.next)],
    )
}

/// An if with so many arms, each of which takes a label.
pub fn lower_if(sheet: &mut Sheet, arms: usize, labels: &Labels) -> Result<(), AllocError>
    requires parts { HasParts labels.now (2 * arms + 1) }
    requires room { HasRoom sheet.old arms }
    ensures { OnOk result (Added sheet.old sheet.new (spec.if_draft arms labels.now)) }
{
    if arms == 0 {
        return add_tests(sheet, 0, labels, 0);
    }
    let first = take_labels(sheet, arms);
    add_tests(sheet, arms, labels, first)
}
