// From a text to its image.
ghost use Rattle.std.specs.Prelude.{◌≡◌, ◌≤◌, None, length, IfOk, IfErr};
ghost use Rattle.std.specs.List.{AllByRecursion};
ghost use Rattle.ceu_bound.specs.PhaseB.{AreBounds};
ghost use Rattle.ceu_code.specs.Spelling.{HasSpelling, IsPlace};
ghost use Rattle.ceu_compile.specs.Images.{IsImage, IsImageOf};
ghost use Rattle.ceu_compile.specs.Programs.{IsBroken};
ghost use Rattle.ceu_compile.specs.Sizes.{too_large};
ghost use Rattle.ceu_tree.specs.Proper.{Proper};

use crate::errors::CompileError;
use crate::program::{Program, program_of};
use ceu_code::Image;
use ceu_codegen::generate;
use ceu_gates::gate_plan;
use ceu_slots::OverlapPlaces;
use std::alloc::{AllocError, Global};

/// The image of a program.
pub fn image_of_program(alloc: Global, program: &Program) -> Result<Image, AllocError>
    requires proper { Proper program.now.kernel }
    requires small { too_large program.now.kernel ≡ None }
    requires bounds { AreBounds program.now.kernel program.now.bounds }
    ensures { IfOk result (λ i. IsImageOf program.now.kernel i) }
{
    let places = OverlapPlaces::plan(alloc, &program.kernel)?;
    let gates = gate_plan(alloc, &program.kernel)?;
    let image = generate(alloc, &program.kernel, &places, &gates, &program.bounds)?;
    Ok(image)
}

/// The image of a text that breaks no rule, or the first rule that the text breaks. The image has a spelling where the positions that it names are
/// those of a text.
pub fn compile(alloc: Global, text: &[u8]) -> Result<Image, CompileError>
    requires { length text.now ≤ 1048576 }
    ensures image { IfOk result (λ i. IsImage text.now i) }
    ensures spelled { IfOk result (λ i. AllByRecursion IsPlace i.places → HasSpelling i) }
    ensures refused { IfErr result (λ e. IsBroken text.now e) }
{
    match program_of(alloc, text) {
        Ok(program) => match image_of_program(alloc, &program) {
            Ok(image) => Ok(image),
            Err(_) => Err(CompileError::Memory),
        },
        Err(e) => Err(e),
    }
}
