// The three kinds of par. The trail goes on as the first branch.
ghost use Rattle.std.specs.Prelude.{◌≡◌, ◌+◌, ◌*◌, ◌^◌, ◌<◌, ◌≤◌, ◌++◌, [], ◌∷◌, length, OnOk};
ghost use Rattle.ceu_code.specs.declared.instr.Instr.TheVariants as instr;
ghost use Rattle.ceu_shape.specs.Par as spec;
ghost use Rattle.ceu_shape.specs.Pieces.{Added};
ghost use Rattle.ceu_shape.specs.Words as words;
ghost use Rattle.ceu_shape.specs.Words.{mark, plain};
ghost use Rattle.ceu_low_par.specs.Conditions.{AreNodes, HasParts, HasRoom, ParFits, kind_labels, nodes_of, planned};

use crate::branches::{
    add_cleared, add_ends, add_forks, add_set_ends, add_tests, add_waiting_ends,
};
use crate::words::{abort, add_all, begin, goto, move_to};
use ceu_asm::{Labels, Line, Sheet};
use ceu_code::Instr;
use ceu_gates::GatePlan;
use ceu_slots::Places;
use ceu_tree::{KBlock, ParKind};
use std::alloc::AllocError;

// The trail moves to the gate of the first branch.
fn add_start<P: Places>(
    sheet: &mut Sheet,
    places: &P,
    gates: &GatePlan,
    labels: &Labels,
    branches: &[KBlock],
) -> Result<(), AllocError>
    requires some { 0 < length branches.now }
    requires nodes { AreNodes (length gates.now.first) (nodes_of branches.now) }
    ensures { let plan = planned (P.planned places.now) gates.now in OnOk result (sheet.new ≡ record sheet.old { lines = sheet.old.lines ++ (mark labels.now.own ∷ spec.move_to_first plan labels.now (nodes_of branches.now)) }) }
{
    add_all(
        sheet,
        &[Line::Mark(labels.own), move_to(gates, branches[0].node)],
    )
}

// The other branches come behind the first.
fn add_forked<P: Places>(
    sheet: &mut Sheet,
    places: &P,
    gates: &GatePlan,
    labels: &Labels,
    branches: &[KBlock],
) -> Result<(), AllocError>
    requires some { 0 < length branches.now }
    requires nodes { AreNodes (length gates.now.first) (nodes_of branches.now) }
    requires parts { HasParts labels.now (length branches.now) }
    ensures { let plan = planned (P.planned places.now) gates.now in OnOk result (sheet.new ≡ record sheet.old { lines = sheet.old.lines ++ spec.forked plan labels.now (nodes_of branches.now) }) }
{
    add_forks(sheet, places, gates, labels, branches)?;
    sheet.add(goto(begin(labels, 0)))
}

fn lower_never<P: Places>(
    sheet: &mut Sheet,
    places: &P,
    gates: &GatePlan,
    labels: &Labels,
    branches: &[KBlock],
) -> Result<(), AllocError>
    requires some { 0 < length branches.now }
    requires nodes { AreNodes (length gates.now.first) (nodes_of branches.now) }
    requires parts { HasParts labels.now (length branches.now) }
    ensures { let plan = planned (P.planned places.now) gates.now in OnOk result (sheet.new ≡ record sheet.old { lines = sheet.old.lines ++ spec.never_lines plan labels.now (nodes_of branches.now) }) }
{
    add_start(sheet, places, gates, labels, branches)?;
    add_forked(sheet, places, gates, labels, branches)?;
    add_waiting_ends(sheet, places, gates, labels, branches)
}

// The branch that ends aborts the others.
fn lower_or<P: Places>(
    sheet: &mut Sheet,
    places: &P,
    gates: &GatePlan,
    labels: &Labels,
    node: u32,
    branches: &[KBlock],
) -> Result<(), AllocError>
    requires some { 0 < length branches.now }
    requires node { node < length gates.now.first }
    requires counted { length gates.now.count ≡ length gates.now.first }
    requires nodes { AreNodes (length gates.now.first) (nodes_of branches.now) }
    requires parts { HasParts labels.now (length branches.now) }
    ensures { let plan = planned (P.planned places.now) gates.now in OnOk result (sheet.new ≡ record sheet.old { lines = sheet.old.lines ++ spec.or_lines plan labels.now node (nodes_of branches.now) }) }
{
    add_start(sheet, places, gates, labels, branches)?;
    add_forked(sheet, places, gates, labels, branches)?;
    add_ends(sheet, places, gates, labels, branches)?;
    add_all(sheet, &[abort(gates, node), goto(labels.next)])
}

// Where all branches have ended the last of them goes on; until then each halts.
fn add_join<P: Places>(
    sheet: &mut Sheet,
    places: &P,
    gates: &GatePlan,
    labels: &Labels,
    branches: &[KBlock],
    slot: u32,
    join: u32,
) -> Result<(), AllocError>
    requires there { slot + length branches.now ≤ (P.planned places.now).slot_count }
    requires few { (P.planned places.now).slot_count < 2 ^ 32 }
    requires labels { join + 1 < 2 ^ 32 }
    ensures { let plan = planned (P.planned places.now) gates.now in OnOk result (sheet.new ≡ record sheet.old { lines = sheet.old.lines ++ ((mark join ∷ spec.tests plan labels.now slot (join + 1) (nodes_of branches.now)) ++ (words.goto labels.now.next ∷ mark (join + 1) ∷ plain instr.Halt ∷ [])) }) }
{
    sheet.add(Line::Mark(join))?;
    add_tests(sheet, places, gates, labels, branches, slot, join + 1)?;
    let halt = [
        goto(labels.next),
        Line::Mark(join + 1),
        Line::Plain(Instr::Halt),
    ];
    add_all(sheet, &halt)
}

fn add_and<P: Places>(
    sheet: &mut Sheet,
    places: &P,
    gates: &GatePlan,
    labels: &Labels,
    branches: &[KBlock],
    slot: u32,
    join: u32,
) -> Result<(), AllocError>
    requires some { 0 < length branches.now }
    requires nodes { AreNodes (length gates.now.first) (nodes_of branches.now) }
    requires there { slot + length branches.now ≤ (P.planned places.now).slot_count }
    requires few { (P.planned places.now).slot_count < 2 ^ 32 }
    requires parts { HasParts labels.now (length branches.now) }
    requires labels { join + 1 < 2 ^ 32 }
    ensures { let plan = planned (P.planned places.now) gates.now in OnOk result (sheet.new ≡ record sheet.old { lines = sheet.old.lines ++ spec.and_lines plan labels.now slot (nodes_of branches.now) join }) }
{
    add_start(sheet, places, gates, labels, branches)?;
    add_cleared(sheet, places, gates, labels, branches, slot)?;
    add_forked(sheet, places, gates, labels, branches)?;
    add_set_ends(sheet, places, gates, labels, branches, slot, join)?;
    add_join(sheet, places, gates, labels, branches, slot, join)
}

// The labels of the place where the branches join, and of the one where they halt.
fn two_labels(sheet: &mut Sheet) -> u32
    requires { sheet.old.labels + 2 < 2 ^ 32 }
    ensures first { result ≡ sheet.old.labels }
    ensures given { sheet.new ≡ record sheet.old { labels = sheet.old.labels + 2 } }
{
    let first = sheet.label();
    sheet.label();
    first
}

/// A par of any kind. That of par/and has a byte for each branch, from a slot on, which says that the branch has ended.
#[tactic(auto, using(crate::proofs::Adding::nodes_length))]
pub fn lower_kind<P: Places>(
    sheet: &mut Sheet,
    places: &P,
    gates: &GatePlan,
    labels: &Labels,
    node: u32,
    kind: ParKind,
    slot: u32,
    branches: &[KBlock],
) -> Result<(), AllocError>
    requires fits { ParFits (P.planned places.now).slot_count (length gates.now.first) kind slot (nodes_of branches.now) }
    requires few { (P.planned places.now).slot_count < 2 ^ 32 }
    requires node { node < length gates.now.first }
    requires counted { length gates.now.count ≡ length gates.now.first }
    requires parts { HasParts labels.now (length branches.now) }
    requires room { HasRoom sheet.old (kind_labels kind) }
    ensures { let plan = planned (P.planned places.now) gates.now in OnOk result (Added sheet.old sheet.new (spec.par_draft plan labels.now node kind slot (nodes_of branches.now))) }
{
    match kind {
        ParKind::Never => lower_never(sheet, places, gates, labels, branches),
        ParKind::Or => lower_or(sheet, places, gates, labels, node, branches),
        ParKind::And => {
            let join = two_labels(sheet);
            add_and(sheet, places, gates, labels, branches, slot, join)
        }
    }
}
