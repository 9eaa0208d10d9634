// Expressions between their labels.
ghost use Rattle.std.specs.Prelude.{◌≡◌, ◌+◌, ◌*◌, ◌<◌, ◌≤◌, ◌++◌, length, OnOk};
ghost use Rattle.ceu_tree.specs.Greatest.{total};
ghost use Rattle.ceu_tree.specs.Weight.{exp_count};
ghost use Rattle.ceu_shape.specs.Pieces.{Added};
ghost use Rattle.ceu_shape.specs.Shape as spec;
ghost use Rattle.ceu_low_expr.specs.Conditions.{HasRoom, NamesBelow};
ghost use Rattle.ceu_codegen.specs.Conditions.{AllName, NamesIf, TurnsName, planned};
ghost use Rattle.ceu_codegen.specs.Rooms.{room_if, turns_room};

use crate::words::goto;
use ceu_asm::{Line, Sheet};
use ceu_gates::GatePlan;
use ceu_low_expr::lower_exp;
use ceu_slots::Places;
use ceu_tree::{KExp, KLoop, Kernel};
use std::alloc::AllocError;

/// An expression that begins at this label, and goes to the one behind it.
pub fn lower_part<P: Places>(
    sheet: &mut Sheet,
    kernel: &Kernel,
    places: &P,
    gates: &GatePlan,
    exp: &KExp,
    begin: u32,
) -> Result<(), AllocError>
    requires names { NamesBelow (P.planned places.now).slot_count exp.now }
    requires room { HasRoom sheet.old (exp_count exp.now) }
    requires labels { begin + 2 < 4294967296 }
    ensures { OnOk result (Added sheet.old sheet.new (spec.exp_part (planned (P.planned places.now) gates.now) kernel.now begin exp.now)) }
{
    sheet.add(Line::Mark(begin))?;
    lower_exp(sheet, places, exp)?;
    sheet.add(goto(begin + 1))
}

pub fn lower_part_if<P: Places>(
    sheet: &mut Sheet,
    kernel: &Kernel,
    places: &P,
    gates: &GatePlan,
    exp: &Option<KExp>,
    begin: u32,
) -> Result<(), AllocError>
    requires names { NamesIf (P.planned places.now).slot_count exp.now }
    requires room { HasRoom sheet.old (room_if exp.now) }
    requires labels { begin + 2 * spec.count_if exp.now < 4294967296 }
    ensures { OnOk result (Added sheet.old sheet.new (spec.exp_part_if (planned (P.planned places.now) gates.now) kernel.now begin exp.now)) }
{
    match exp {
        None => Ok(()),
        Some(exp) => lower_part(sheet, kernel, places, gates, exp, begin),
    }
}

pub fn lower_all<P: Places>(
    sheet: &mut Sheet,
    kernel: &Kernel,
    places: &P,
    gates: &GatePlan,
    exps: &[KExp],
    begin: u32,
) -> Result<(), AllocError>
    requires names { AllName (P.planned places.now).slot_count exps.now }
    requires room { HasRoom sheet.old (total exp_count exps.now) }
    requires labels { begin + 2 * length exps.now < 4294967296 }
    ensures { OnOk result (Added sheet.old sheet.new (spec.exp_parts (planned (P.planned places.now) gates.now) kernel.now begin exps.now)) }
{
    let mut at = begin;
    for exp in exps {
        lower_part(sheet, kernel, places, gates, exp, at)?;
        at += 2;
    }
    Ok(())
}

/// The ends of a range.
pub fn lower_turns<P: Places>(
    sheet: &mut Sheet,
    kernel: &Kernel,
    places: &P,
    gates: &GatePlan,
    kind: &KLoop,
    begin: u32,
) -> Result<(), AllocError>
    requires names { TurnsName (P.planned places.now).slot_count kind.now }
    requires room { HasRoom sheet.old (turns_room kind.now) }
    requires labels { begin + 2 * spec.ends_count kind.now < 4294967296 }
    ensures { OnOk result (Added sheet.old sheet.new (spec.turn_parts (planned (P.planned places.now) gates.now) kernel.now begin kind.now)) }
{
    match kind {
        KLoop::Free => Ok(()),
        KLoop::Times(_, _) => Ok(()),
        KLoop::Range(_, _, _, _, from, to, _) => {
            lower_part(sheet, kernel, places, gates, from, begin)?;
            lower_part(sheet, kernel, places, gates, to, begin + 2)
        }
    }
}
