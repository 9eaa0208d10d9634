// An async, whose body begins in the turn in which it is served first.
ghost use Rattle.std.specs.Prelude.{◌≡◌, ◌+◌, ◌*◌, ◌<◌, ◌++◌, length, OnOk};
ghost use Rattle.ceu_shape.specs.Pieces.{Added};
ghost use Rattle.ceu_shape.specs.Plans.{plan_of};
ghost use Rattle.ceu_shape.specs.Shape.{node_draft};
ghost use Rattle.ceu_low_async.specs.Conditions.{HasParts, IsAsync};

use ceu_asm::{Labels, Line, Sheet};
use ceu_code::Instr;
use ceu_gates::GatePlan;
use ceu_slots::Places;
use ceu_tree::{KNode, Kernel};
use std::alloc::AllocError;

fn add_all(sheet: &mut Sheet, lines: &[Line]) -> Result<(), AllocError>
    ensures { OnOk result (sheet.new ≡ record sheet.old { lines = sheet.old.lines ++ lines.now }) }
{
    for line in lines {
        sheet.add(*line)?;
    }
    Ok(())
}

/// Adds the lines of an async, without those of its body: the trail moves to the async's own gate, where it is left to be served; the body
/// begins there, and from its end it goes on to the next label.
pub fn lower_async<P: Places>(
    sheet: &mut Sheet,
    kernel: &Kernel,
    places: &P,
    gates: &GatePlan,
    node: &KNode,
    labels: &Labels,
) -> Result<(), AllocError>
    requires kind { IsAsync node.now.stmt }
    requires node { node.now.node < length gates.now.first }
    requires parts { HasParts labels.now 1 }
    ensures { let plan = plan_of (P.planned places.now).offset (P.planned places.now).frame (P.planned places.now).total gates.now.first gates.now.count in OnOk result (Added sheet.old sheet.new (node_draft plan kernel.now node.now.node node.now.pos node.now.stmt labels.now)) }
{
    let first = gates.first.items()[node.node as usize];
    let parts = labels.parts.items();
    let lines = [
        Line::Mark(labels.own),
        Line::Plain(Instr::Move(first)),
        Line::Plain(Instr::StartAsync),
        Line::Jump(Instr::Jump(0), parts[0]),
        Line::Mark(parts[1]),
        Line::Plain(Instr::EndAsync),
        Line::Jump(Instr::Jump(0), labels.next),
    ];
    add_all(sheet, &lines)
}
