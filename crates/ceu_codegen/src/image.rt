// The image of a kernel: its lines, assembled, and its tables.
ghost use Rattle.std.specs.Prelude.{◌≡◌, ◌+◌, ◌*◌, ◌<◌, ◌≤◌, ◌++◌, [], ◌∷◌, length, map, IfOk};
ghost use Rattle.std.specs.List.{AllByRecursion};
ghost use Rattle.ceu_tree.specs.Depth.{depth};
ghost use Rattle.ceu_tree.specs.Needs as need;
ghost use Rattle.ceu_tree.specs.Proper.{Proper};
ghost use Rattle.ceu_tree.specs.Weight.{weight};
ghost use Rattle.ceu_asm.specs.Lines.{IsWhole};
ghost use Rattle.ceu_gates.specs.Ranges.{IsByNode, first_gate, gate_count};
ghost use Rattle.ceu_shape.specs.Plans.{plan_of};
ghost use Rattle.ceu_shape.specs.Searches.{kernel_pools};
ghost use Rattle.ceu_shape.specs.Shape as spec;
ghost use Rattle.ceu_codegen.specs.Conditions.{planned};
ghost use Rattle.ceu_codegen.specs.Images.{CodesMarked, HasCode};
ghost use Rattle.ceu_codegen.specs.Pools.{as_pool};

use crate::bodies::lower_kernel;
use crate::pools::{Pool, pools_of};
use crate::words::own_label;
use ceu_asm::{Sheet, assemble};
use ceu_base::{Pos, Seq, Ty};
use ceu_bound::Bounds;
use ceu_code::{CodeRow, Image, copy_ports};
use ceu_gates::{GatePlan, gate_need};
use ceu_slots::Places;
use ceu_tree::{KCode, KDecl, KKind, Kernel};
use std::alloc::{AllocError, Global};

fn param_ty(decl: &KDecl) -> Ty
    ensures { result ≡ spec.param_ty decl.now }
{
    match decl.kind {
        KKind::Var(ty) => ty,
        KKind::Alias(_) => Ty::None,
        KKind::Pool(_, _) => Ty::None,
    }
}

fn param_tys(alloc: Global, params: &[KDecl]) -> Result<Seq<Ty>, AllocError>
    ensures { IfOk result (λ tys. tys ≡ map spec.param_ty params.now) }
{
    let mut tys = Seq::new(alloc);
    for param in params {
        tys.push(param_ty(param))?;
    }
    Ok(tys)
}

// Where the body of a code begins, the bytes of its frame, its gates and its parameters.
fn code_row<P: Places>(
    alloc: Global,
    places: &P,
    gates: &GatePlan,
    sheet: &Sheet,
    number: u32,
    code: &KCode,
) -> Result<CodeRow, AllocError>
    requires number { number < (P.planned places.now).code_count }
    requires code { HasCode sheet.now.lines (length gates.now.count) code.now }
    ensures { IfOk result (λ row. row ≡ spec.code_row (planned (P.planned places.now) gates.now) sheet.now.lines number code.now) }
{
    let node = code.body.node;
    let params = param_tys(alloc, code.params.items())?;
    Ok(CodeRow {
        entry: sheet.offset(own_label(node)),
        frame: places.frame(number),
        gates: gates.count.items()[node as usize],
        params,
    })
}

fn code_rows<P: Places>(
    alloc: Global,
    places: &P,
    gates: &GatePlan,
    sheet: &Sheet,
    codes: &[KCode],
) -> Result<Seq<CodeRow>, AllocError>
    requires counted { length codes.now ≤ (P.planned places.now).code_count }
    requires few { length codes.now ≤ 65535 }
    requires codes { CodesMarked sheet.now.lines (length gates.now.count) codes.now }
    ensures { IfOk result (λ rows. rows ≡ spec.code_rows (planned (P.planned places.now) gates.now) sheet.now.lines 0 codes.now) }
{
    let mut rows = Seq::new(alloc);
    let mut number: u32 = 0;
    for code in codes {
        rows.push(code_row(alloc, places, gates, sheet, number, code)?)?;
        number += 1;
    }
    Ok(rows)
}

// The code of each pool.
fn pool_codes(alloc: Global, pools: &[Pool]) -> Result<Seq<u16>, AllocError>
    requires { AllByRecursion (λ pool. pool.code ≤ 65535) pools.now }
    ensures { IfOk result (λ codes. codes ≡ map (λ pool. pool.code) pools.now) }
{
    let mut codes = Seq::new(alloc);
    for pool in pools {
        codes.push(pool.code as u16)?;
    }
    Ok(codes)
}

fn copy_places(alloc: Global, places: &[Pos]) -> Result<Seq<Pos>, AllocError>
    ensures { IfOk result (λ copy. copy ≡ places.now) }
{
    let mut copy = Seq::new(alloc);
    for place in places {
        copy.push(*place)?;
    }
    Ok(copy)
}

// The image of the lines on a sheet.
fn image_of<P: Places>(
    alloc: Global,
    kernel: &Kernel,
    places: &P,
    gates: &GatePlan,
    bounds: &Bounds,
    pools: &[Pool],
    sheet: &Sheet,
) -> Result<Image, AllocError>
    requires pools { pools.now ≡ map as_pool (kernel_pools kernel.now) }
    requires small { AllByRecursion (λ pool. pool.code ≤ 65535) pools.now }
    requires codes { CodesMarked sheet.now.lines (length gates.now.count) kernel.now.codes }
    requires counted { length kernel.now.codes ≤ (P.planned places.now).code_count }
    requires few { length kernel.now.codes ≤ 65535 }
    requires whole { IsWhole sheet.now.lines }
    requires lines { sheet.now.lines ≡ spec.shape_lines (planned (P.planned places.now) gates.now) kernel.now }
    requires places { sheet.now.places ≡ spec.shape_positions (planned (P.planned places.now) gates.now) kernel.now }
    requires depth { depth kernel.now ≤ 65535 }
    requires gates { need.gates kernel.now ≤ 65535 }
    ensures { IfOk result (λ image. image ≡ spec.shape (planned (P.planned places.now) gates.now) kernel.now bounds.now.turns bounds.now.levels) }
{
    Ok(Image {
        turns: bounds.turns,
        levels: bounds.levels,
        depth: ceu_bound::depth(kernel) as u16,
        gates: gate_need(alloc, kernel)? as u16,
        slots: places.total(),
        inputs: copy_ports(alloc, &kernel.inputs)?,
        outputs: copy_ports(alloc, &kernel.outputs)?,
        codes: code_rows(alloc, places, gates, sheet, kernel.codes.items())?,
        pools: pool_codes(alloc, pools)?,
        places: copy_places(alloc, sheet.places().items())?,
        code: assemble(alloc, sheet)?,
    })
}

/// The image of a proper kernel, with a plan of its slots, a plan of its gates and the bounds of its reactions: exactly the one that is defined.
pub fn generate<P: Places>(
    alloc: Global,
    kernel: &Kernel,
    places: &P,
    gates: &GatePlan,
    bounds: &Bounds,
) -> Result<Image, AllocError>
    requires proper { Proper kernel.now }
    requires fits { P.fits places.now kernel.now }
    requires first { IsByNode kernel.now (first_gate kernel.now) gates.now.first }
    requires count { IsByNode kernel.now (gate_count kernel.now) gates.now.count }
    requires weight { weight kernel.now ≤ 65535 }
    requires gates { need.gates kernel.now ≤ 3000 }
    requires memory { 16 + 8 * depth kernel.now + 19 * need.gates kernel.now + (P.planned places.now).total ≤ 65535 }
    ensures { let plan = plan_of (P.planned places.now).offset (P.planned places.now).frame (P.planned places.now).total gates.now.first gates.now.count in IfOk result (λ image. image ≡ spec.shape plan kernel.now bounds.now.turns bounds.now.levels) }
{
    let pools = pools_of(alloc, kernel)?;
    let sheet = lower_kernel(alloc, kernel, places, gates, &pools)?;
    image_of(alloc, kernel, places, gates, bounds, &pools, &sheet)
}
