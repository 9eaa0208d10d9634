// The bodies of the program and of its codes, and the whole kernel.
ghost use Rattle.std.specs.Prelude.{◌≡◌, ◌+◌, ◌*◌, ◌<◌, ◌≤◌, ◌++◌, [], ◌∷◌, length, OnOk, IfOk};
ghost use Rattle.ceu_tree.specs.Greatest.{total};
ghost use Rattle.ceu_tree.specs.Weight.{block_weight, code_weight, weight};
ghost use Rattle.ceu_shape.specs.Pieces.{Added};
ghost use Rattle.ceu_shape.specs.Shape as spec;
ghost use Rattle.ceu_shape.specs.Words.{plain};
ghost use Rattle.ceu_low_expr.specs.Conditions.{HasRoom};
ghost use Rattle.ceu_codegen.specs.Conditions as conditions;
ghost use Rattle.ceu_codegen.specs.Conditions.{BlockFits, KernelFits, Ready, planned};

use crate::blocks::lower_block;
use crate::pools::Pool;
use crate::words::{add_all, end_label, take_labels};
use ceu_asm::{Line, Sheet};
use ceu_base::Ty;
use ceu_code::Instr;
use ceu_gates::GatePlan;
use ceu_slots::Places;
use ceu_tree::{KBlock, KCode, Kernel};
use std::alloc::{AllocError, Global};

// A body that ends without an escape gives zero.
fn add_zero<P: Places>(
    sheet: &mut Sheet,
    kernel: &Kernel,
    places: &P,
    gates: &GatePlan,
    ty: Ty,
) -> Result<(), AllocError>
    ensures { OnOk result (sheet.new ≡ record sheet.old { lines = sheet.old.lines ++ spec.zero_given (planned (P.planned places.now) gates.now) kernel.now ty }) }
{
    let lines = [
        Line::Plain(Instr::Push(ty, 0)),
        Line::Plain(Instr::SetValue),
    ];
    match ty {
        Ty::None => Ok(()),
        Ty::Bool => add_all(sheet, &lines),
        Ty::U8 => add_all(sheet, &lines),
        Ty::S8 => add_all(sheet, &lines),
        Ty::U16 => add_all(sheet, &lines),
        Ty::S16 => add_all(sheet, &lines),
        Ty::U32 => add_all(sheet, &lines),
        Ty::S32 => add_all(sheet, &lines),
        Ty::U64 => add_all(sheet, &lines),
        Ty::S64 => add_all(sheet, &lines),
    }
}

// A body with a value of a type, and the instruction that ends it.
fn lower_body<P: Places>(
    sheet: &mut Sheet,
    alloc: Global,
    kernel: &Kernel,
    places: &P,
    gates: &GatePlan,
    pools: &[Pool],
    body: &KBlock,
    ty: Ty,
    end: Instr,
) -> Result<(), AllocError>
    requires ready { Ready (P.planned places.now) gates.now kernel.now pools.now }
    requires fits { BlockFits (P.planned places.now) gates.now kernel.now body.now }
    requires room { HasRoom sheet.old (block_weight body.now) }
    ensures { let plan = planned (P.planned places.now) gates.now in OnOk result (Added sheet.old sheet.new (spec.body_draft plan kernel.now body.now (spec.zero_given plan kernel.now ty) (plain end ∷ []))) }
{
    lower_block(sheet, alloc, kernel, places, gates, pools, body)?;
    add_zero(sheet, kernel, places, gates, ty)?;
    sheet.add(Line::Mark(end_label(body.node)))?;
    sheet.add(Line::Plain(end))
}

fn lower_codes<P: Places>(
    sheet: &mut Sheet,
    alloc: Global,
    kernel: &Kernel,
    places: &P,
    gates: &GatePlan,
    pools: &[Pool],
    codes: &[KCode],
) -> Result<(), AllocError>
    requires ready { Ready (P.planned places.now) gates.now kernel.now pools.now }
    requires fits { conditions.CodesFit (P.planned places.now) gates.now kernel.now codes.now }
    requires room { HasRoom sheet.old (total code_weight codes.now) }
    ensures { OnOk result (Added sheet.old sheet.new (spec.codes_draft (planned (P.planned places.now) gates.now) kernel.now codes.now)) }
{
    for code in codes {
        let body = &code.body;
        lower_body(
            sheet,
            alloc,
            kernel,
            places,
            gates,
            pools,
            body,
            code.result,
            Instr::Return,
        )?;
    }
    Ok(())
}

/// A sheet with the lines of a kernel and the positions that they name: the body of the program comes first, then those of its codes. The
/// labels of all nodes are taken first.
pub fn lower_kernel<P: Places>(
    alloc: Global,
    kernel: &Kernel,
    places: &P,
    gates: &GatePlan,
    pools: &[Pool],
) -> Result<Sheet, AllocError>
    requires ready { Ready (P.planned places.now) gates.now kernel.now pools.now }
    requires fits { KernelFits (P.planned places.now) gates.now kernel.now }
    ensures lines { IfOk result (λ sheet. sheet.lines ≡ spec.shape_lines (planned (P.planned places.now) gates.now) kernel.now) }
    ensures places { IfOk result (λ sheet. sheet.places ≡ spec.shape_positions (planned (P.planned places.now) gates.now) kernel.now) }
{
    let mut sheet = Sheet::new(alloc);
    take_labels(&mut sheet, 2 * gates.first.items().len());
    let body = &kernel.body;
    lower_body(
        &mut sheet,
        alloc,
        kernel,
        places,
        gates,
        pools,
        body,
        Ty::S32,
        Instr::End,
    )?;
    let codes = kernel.codes.items();
    lower_codes(&mut sheet, alloc, kernel, places, gates, pools, codes)?;
    Ok(sheet)
}
