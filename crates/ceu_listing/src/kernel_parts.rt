// A walk over a kernel that prints what the listing shows of each part.
ghost use Rattle.std.specs.Prelude.{◌≡◌, ◌≤◌, ◌+◌, ◌++◌, [], ◌∷◌, length, OnOk, OnErr};
ghost use Rattle.ceu_io.specs.Bytes.{Appends, AppendsProperFront};
ghost use Rattle.ceu_io.specs.Counts.{HasCause};
ghost use Rattle.ceu_tree.specs.Numbering.{par_slots, range_of};
ghost use Rattle.ceu_tree.specs.Proper.{Proper};
ghost use Rattle.ceu_listing.specs.Lines as spec;
ghost use Rattle.ceu_listing.specs.Lines.{text, listing_text};
ghost use Rattle.ceu_io.specs.Prints.{Prints};
ghost use Rattle.ceu_listing.specs.Rows as rows;
ghost use Rattle.ceu_listing.specs.Rows.{AreNumbered};

use crate::kernel_lines::{code_line, gate_line, slot_line};
use ceu_base::Pos;
use ceu_gates::GatePlan;
use ceu_io::{Failed, Sink};
use ceu_slots::Places;
use ceu_tree::{KArm, KBlock, KCode, KDecl, KLoop, KNode, KStmt, Kernel, ParKind};

#[tactic(auto, using(crate::proofs::RowLaws::shown, ceu_tree::proofs::Sizes::sizes, crate::proofs::Texts::texts, ceu_io::proofs::Written::prints))]
fn print_slot<P: Places, O: Sink>(
    places: &P,
    gates: &GatePlan,
    slot: u32,
    name: &[u8],
    place: Pos,
    going: bool,
    out: &mut O,
) -> bool
    requires { AreNumbered (P.planned places.now).slot_count (P.planned places.now).code_count (rows.SlotRow slot name.now place ∷ []) }
    ensures { Prints (text (P.planned places.now) gates.now (rows.SlotRow slot name.now place ∷ [])) going result (O.held out.old) (O.held out.new) (O.faults out.old) (O.faults out.new) }
{
    slot_line(places, slot, name, place, going, out)
}

#[tactic(auto, using(crate::proofs::RowLaws::shown, ceu_tree::proofs::Sizes::sizes, crate::proofs::Texts::texts, ceu_io::proofs::Written::prints))]
fn print_gate<P: Places, O: Sink>(
    places: &P,
    gates: &GatePlan,
    node: u32,
    place: Pos,
    going: bool,
    out: &mut O,
) -> bool
    requires { AreNumbered (P.planned places.now).slot_count (P.planned places.now).code_count (rows.GateRow node place ∷ []) }
    ensures { Prints (text (P.planned places.now) gates.now (rows.GateRow node place ∷ [])) going result (O.held out.old) (O.held out.new) (O.faults out.old) (O.faults out.new) }
{
    gate_line(gates, node, place, going, out)
}

#[tactic(auto, using(crate::proofs::RowLaws::shown, ceu_tree::proofs::Sizes::sizes, crate::proofs::Texts::texts, ceu_io::proofs::Written::prints))]
fn print_decls<P: Places, O: Sink>(
    places: &P,
    gates: &GatePlan,
    decls: &[KDecl],
    going: bool,
    out: &mut O,
) -> bool
    requires { AreNumbered (P.planned places.now).slot_count (P.planned places.now).code_count (rows.decl_rows decls.now) }
    ensures { Prints (text (P.planned places.now) gates.now (rows.decl_rows decls.now)) going result (O.held out.old) (O.held out.new) (O.faults out.old) (O.faults out.new) }
{
    let mut goes = going;
    for decl in decls {
        let name = decl.name.text().as_bytes();
        goes = print_slot(places, gates, decl.slot, name, decl.pos, goes, out);
    }
    goes
}

#[tactic(auto, using(crate::proofs::RowLaws::shown, ceu_tree::proofs::Sizes::sizes, crate::proofs::Texts::texts, ceu_io::proofs::Written::prints))]
fn print_turns<P: Places, O: Sink>(
    places: &P,
    gates: &GatePlan,
    place: Pos,
    kind: &KLoop,
    going: bool,
    out: &mut O,
) -> bool
    requires { AreNumbered (P.planned places.now).slot_count (P.planned places.now).code_count (rows.turn_rows place kind.now) }
    ensures { Prints (text (P.planned places.now) gates.now (rows.turn_rows place kind.now)) going result (O.held out.old) (O.held out.new) (O.faults out.old) (O.faults out.new) }
{
    match kind {
        KLoop::Free => going,
        KLoop::Times(count, _) => print_slot(places, gates, *count, b".count", place, going, out),
        KLoop::Range(variable, next, end, _, _, _, _) => {
            let first = print_slot(places, gates, *variable, b".var", place, going, out);
            let second = print_slot(places, gates, *next, b".next", place, first, out);
            print_slot(places, gates, *end, b".end", place, second, out)
        }
    }
}

#[tactic(auto, using(crate::proofs::RowLaws::shown, ceu_tree::proofs::Sizes::sizes, crate::proofs::Texts::texts, ceu_io::proofs::Written::prints))]
fn print_bytes<P: Places, O: Sink>(
    places: &P,
    gates: &GatePlan,
    place: Pos,
    slot: u32,
    count: usize,
    going: bool,
    out: &mut O,
) -> bool
    requires { AreNumbered (P.planned places.now).slot_count (P.planned places.now).code_count (rows.byte_rows place (range_of slot count)) }
    ensures { Prints (text (P.planned places.now) gates.now (rows.byte_rows place (range_of slot count))) going result (O.held out.old) (O.held out.new) (O.faults out.old) (O.faults out.new) }
{
    let mut goes = going;
    for k in 0..count {
        goes = print_slot(places, gates, slot + k as u32, b".and", place, goes, out);
    }
    goes
}

#[tactic(auto, using(crate::proofs::RowLaws::shown, ceu_tree::proofs::Sizes::sizes, crate::proofs::Texts::texts, ceu_io::proofs::Written::prints))]
fn print_par_bytes<P: Places, O: Sink>(
    places: &P,
    gates: &GatePlan,
    place: Pos,
    kind: ParKind,
    slot: u32,
    count: usize,
    going: bool,
    out: &mut O,
) -> bool
    requires { AreNumbered (P.planned places.now).slot_count (P.planned places.now).code_count (rows.byte_rows place (par_slots kind slot count)) }
    ensures { Prints (text (P.planned places.now) gates.now (rows.byte_rows place (par_slots kind slot count))) going result (O.held out.old) (O.held out.new) (O.faults out.old) (O.faults out.new) }
{
    match kind {
        ParKind::And => print_bytes(places, gates, place, slot, count, going, out),
        ParKind::Or | ParKind::Never => going,
    }
}

#[cycle(listing)]
#[tactic(auto, using(crate::proofs::RowLaws::shown, ceu_tree::proofs::Sizes::sizes, crate::proofs::Texts::texts, ceu_io::proofs::Written::prints))]
fn print_stmt<P: Places, O: Sink>(
    places: &P,
    gates: &GatePlan,
    node: u32,
    place: Pos,
    stmt: &KStmt,
    going: bool,
    out: &mut O,
) -> bool
    requires { AreNumbered (P.planned places.now).slot_count (P.planned places.now).code_count (rows.stmt_rows node place stmt.now) }
    ensures { Prints (text (P.planned places.now) gates.now (rows.stmt_rows node place stmt.now)) going result (O.held out.old) (O.held out.new) (O.faults out.old) (O.faults out.new) }
{
    match stmt {
        KStmt::AwaitIn(_, _) => print_gate(places, gates, node, place, going, out),
        KStmt::AwaitTime(_, _, _) => print_gate(places, gates, node, place, going, out),
        KStmt::AwaitEvent(_, _) => print_gate(places, gates, node, place, going, out),
        KStmt::Forever => print_gate(places, gates, node, place, going, out),
        KStmt::Emit(_, _) => print_gate(places, gates, node, place, going, out),
        KStmt::Spawn(_, _, _, _) => print_gate(places, gates, node, place, going, out),
        KStmt::AwaitCode(_, _, frame, _) => {
            print_slot(places, gates, *frame, b".frame", place, going, out)
        }
        KStmt::Async(body) => print_gated(places, gates, node, place, body, going, out),
        KStmt::Finalize(body) => print_gated(places, gates, node, place, body, going, out),
        KStmt::Do(_, body) => print_block(places, gates, body, going, out),
        KStmt::If(arms, last) => print_if(places, gates, arms.items(), last, going, out),
        KStmt::Loop(kind, body) => print_loop(places, gates, place, kind, body, going, out),
        KStmt::Par(kind, slot, branches) => {
            print_par(
                places,
                gates,
                place,
                *kind,
                *slot,
                branches.items(),
                going,
                out,
            )
        }
        KStmt::Nothing => going,
        KStmt::Assign(_, _) => going,
        KStmt::Out(_, _) => going,
        KStmt::Kill(_) => going,
        KStmt::Unset(_) => going,
        KStmt::Escape(_, _) => going,
        KStmt::Break(_) => going,
        KStmt::Continue(_) => going,
    }
}

#[cycle(listing)]
#[tactic(auto, using(crate::proofs::RowLaws::shown, ceu_tree::proofs::Sizes::sizes, crate::proofs::Texts::texts, ceu_io::proofs::Written::prints))]
fn print_gated<P: Places, O: Sink>(
    places: &P,
    gates: &GatePlan,
    node: u32,
    place: Pos,
    body: &KBlock,
    going: bool,
    out: &mut O,
) -> bool
    requires { AreNumbered (P.planned places.now).slot_count (P.planned places.now).code_count ((rows.GateRow node place ∷ []) ++ rows.block_rows body.now) }
    ensures { Prints (text (P.planned places.now) gates.now ((rows.GateRow node place ∷ []) ++ rows.block_rows body.now)) going result (O.held out.old) (O.held out.new) (O.faults out.old) (O.faults out.new) }
{
    let goes = print_gate(places, gates, node, place, going, out);
    print_block(places, gates, body, goes, out)
}

#[cycle(listing)]
#[tactic(auto, using(crate::proofs::RowLaws::shown, ceu_tree::proofs::Sizes::sizes, crate::proofs::Texts::texts, ceu_io::proofs::Written::prints))]
fn print_if<P: Places, O: Sink>(
    places: &P,
    gates: &GatePlan,
    arms: &[KArm],
    last: &KBlock,
    going: bool,
    out: &mut O,
) -> bool
    requires { AreNumbered (P.planned places.now).slot_count (P.planned places.now).code_count (rows.list_rows rows.arm_rows arms.now ++ rows.block_rows last.now) }
    ensures { Prints (text (P.planned places.now) gates.now (rows.list_rows rows.arm_rows arms.now ++ rows.block_rows last.now)) going result (O.held out.old) (O.held out.new) (O.faults out.old) (O.faults out.new) }
{
    let goes = print_arms(places, gates, arms, going, out);
    print_block(places, gates, last, goes, out)
}

#[cycle(listing)]
#[tactic(auto, using(crate::proofs::RowLaws::shown, ceu_tree::proofs::Sizes::sizes, crate::proofs::Texts::texts, ceu_io::proofs::Written::prints))]
fn print_loop<P: Places, O: Sink>(
    places: &P,
    gates: &GatePlan,
    place: Pos,
    kind: &KLoop,
    body: &KBlock,
    going: bool,
    out: &mut O,
) -> bool
    requires { AreNumbered (P.planned places.now).slot_count (P.planned places.now).code_count (rows.turn_rows place kind.now ++ rows.block_rows body.now) }
    ensures { Prints (text (P.planned places.now) gates.now (rows.turn_rows place kind.now ++ rows.block_rows body.now)) going result (O.held out.old) (O.held out.new) (O.faults out.old) (O.faults out.new) }
{
    let goes = print_turns(places, gates, place, kind, going, out);
    print_block(places, gates, body, goes, out)
}

#[cycle(listing)]
#[tactic(auto, using(crate::proofs::RowLaws::shown, ceu_tree::proofs::Sizes::sizes, crate::proofs::Texts::texts, ceu_io::proofs::Written::prints))]
fn print_par<P: Places, O: Sink>(
    places: &P,
    gates: &GatePlan,
    place: Pos,
    kind: ParKind,
    slot: u32,
    branches: &[KBlock],
    going: bool,
    out: &mut O,
) -> bool
    requires { AreNumbered (P.planned places.now).slot_count (P.planned places.now).code_count (rows.byte_rows place (par_slots kind slot (length branches.now)) ++ rows.list_rows rows.block_rows branches.now) }
    ensures { Prints (text (P.planned places.now) gates.now (rows.byte_rows place (par_slots kind slot (length branches.now)) ++ rows.list_rows rows.block_rows branches.now)) going result (O.held out.old) (O.held out.new) (O.faults out.old) (O.faults out.new) }
{
    let goes = print_par_bytes(places, gates, place, kind, slot, branches.len(), going, out);
    print_branches(places, gates, branches, goes, out)
}

#[cycle(listing)]
#[tactic(auto, using(crate::proofs::RowLaws::shown, ceu_tree::proofs::Sizes::sizes, crate::proofs::Texts::texts, ceu_io::proofs::Written::prints))]
fn print_block<P: Places, O: Sink>(
    places: &P,
    gates: &GatePlan,
    block: &KBlock,
    going: bool,
    out: &mut O,
) -> bool
    requires { AreNumbered (P.planned places.now).slot_count (P.planned places.now).code_count (rows.block_rows block.now) }
    ensures { Prints (text (P.planned places.now) gates.now (rows.block_rows block.now)) going result (O.held out.old) (O.held out.new) (O.faults out.old) (O.faults out.new) }
{
    let goes = print_decls(places, gates, block.decls.items(), going, out);
    print_nodes(places, gates, block.list.items(), goes, out)
}

#[cycle(listing)]
#[tactic(auto, using(crate::proofs::RowLaws::shown, ceu_tree::proofs::Sizes::sizes, crate::proofs::Texts::texts, ceu_io::proofs::Written::prints))]
fn print_arm<P: Places, O: Sink>(
    places: &P,
    gates: &GatePlan,
    arm: &KArm,
    going: bool,
    out: &mut O,
) -> bool
    requires { AreNumbered (P.planned places.now).slot_count (P.planned places.now).code_count (rows.arm_rows arm.now) }
    ensures { Prints (text (P.planned places.now) gates.now (rows.arm_rows arm.now)) going result (O.held out.old) (O.held out.new) (O.faults out.old) (O.faults out.new) }
{
    print_block(places, gates, &arm.body, going, out)
}

#[cycle(listing)]
#[tactic(auto, using(crate::proofs::RowLaws::shown, ceu_tree::proofs::Sizes::sizes, crate::proofs::Texts::texts, ceu_io::proofs::Written::prints))]
fn print_nodes<P: Places, O: Sink>(
    places: &P,
    gates: &GatePlan,
    nodes: &[KNode],
    going: bool,
    out: &mut O,
) -> bool
    requires { AreNumbered (P.planned places.now).slot_count (P.planned places.now).code_count (rows.list_rows rows.node_rows nodes.now) }
    ensures { Prints (text (P.planned places.now) gates.now (rows.list_rows rows.node_rows nodes.now)) going result (O.held out.old) (O.held out.new) (O.faults out.old) (O.faults out.new) }
{
    let mut goes = going;
    for node in nodes {
        goes = print_stmt(places, gates, node.node, node.pos, &node.stmt, goes, out);
    }
    goes
}

#[cycle(listing)]
#[tactic(auto, using(crate::proofs::RowLaws::shown, ceu_tree::proofs::Sizes::sizes, crate::proofs::Texts::texts, ceu_io::proofs::Written::prints))]
fn print_arms<P: Places, O: Sink>(
    places: &P,
    gates: &GatePlan,
    arms: &[KArm],
    going: bool,
    out: &mut O,
) -> bool
    requires { AreNumbered (P.planned places.now).slot_count (P.planned places.now).code_count (rows.list_rows rows.arm_rows arms.now) }
    ensures { Prints (text (P.planned places.now) gates.now (rows.list_rows rows.arm_rows arms.now)) going result (O.held out.old) (O.held out.new) (O.faults out.old) (O.faults out.new) }
{
    let mut goes = going;
    for arm in arms {
        goes = print_arm(places, gates, arm, goes, out);
    }
    goes
}

#[cycle(listing)]
#[tactic(auto, using(crate::proofs::RowLaws::shown, ceu_tree::proofs::Sizes::sizes, crate::proofs::Texts::texts, ceu_io::proofs::Written::prints))]
fn print_branches<P: Places, O: Sink>(
    places: &P,
    gates: &GatePlan,
    branches: &[KBlock],
    going: bool,
    out: &mut O,
) -> bool
    requires { AreNumbered (P.planned places.now).slot_count (P.planned places.now).code_count (rows.list_rows rows.block_rows branches.now) }
    ensures { Prints (text (P.planned places.now) gates.now (rows.list_rows rows.block_rows branches.now)) going result (O.held out.old) (O.held out.new) (O.faults out.old) (O.faults out.new) }
{
    let mut goes = going;
    for branch in branches {
        goes = print_block(places, gates, branch, goes, out);
    }
    goes
}

#[tactic(auto, using(crate::proofs::RowLaws::shown, ceu_tree::proofs::Sizes::sizes, crate::proofs::Texts::texts, ceu_io::proofs::Written::prints))]
fn print_code<P: Places, O: Sink>(
    places: &P,
    gates: &GatePlan,
    number: u32,
    code: &KCode,
    going: bool,
    out: &mut O,
) -> bool
    requires { AreNumbered (P.planned places.now).slot_count (P.planned places.now).code_count (rows.code_rows number code.now) }
    ensures { Prints (text (P.planned places.now) gates.now (rows.code_rows number code.now)) going result (O.held out.old) (O.held out.new) (O.faults out.old) (O.faults out.new) }
{
    let name = code.name.text().as_bytes();
    let first = code_line(places, gates, number, name, code.body.node, going, out);
    let second = print_decls(places, gates, code.params.items(), first, out);
    print_block(places, gates, &code.body, second, out)
}

#[tactic(auto, using(crate::proofs::RowLaws::shown, ceu_tree::proofs::Sizes::sizes, crate::proofs::Texts::texts, ceu_io::proofs::Written::prints))]
fn print_codes<P: Places, O: Sink>(
    places: &P,
    gates: &GatePlan,
    codes: &[KCode],
    going: bool,
    out: &mut O,
) -> bool
    requires { AreNumbered (P.planned places.now).slot_count (P.planned places.now).code_count (rows.codes_rows 0 codes.now) }
    ensures { Prints (text (P.planned places.now) gates.now (rows.codes_rows 0 codes.now)) going result (O.held out.old) (O.held out.new) (O.faults out.old) (O.faults out.new) }
{
    let mut goes = going;
    for (k, code) in codes.iter().enumerate() {
        goes = print_code(places, gates, k as u32, code, goes, out);
    }
    goes
}

/// Writes the listing of a kernel with its plans.
pub fn listing<P: Places, O: Sink>(
    kernel: &Kernel,
    places: &P,
    gates: &GatePlan,
    out: &mut O,
) -> Result<(), Failed>
    requires proper { Proper kernel.now }
    requires fits { P.fits places.now kernel.now }
    ensures whole { OnOk result (Appends (listing_text (P.planned places.now) gates.now kernel.now) (O.held out.old) (O.held out.new)) }
    // What was written when it failed is a proper prefix.
    ensures front { OnErr result (AppendsProperFront (listing_text (P.planned places.now) gates.now kernel.now) (O.held out.old) (O.held out.new)) }
    ensures cause { HasCause (O.faults out.old) (O.faults out.new) result }
{
    let goes = print_block(places, gates, &kernel.body, true, out);
    if print_codes(places, gates, kernel.codes.items(), goes, out) {
        Ok(())
    } else {
        Err(Failed)
    }
}
