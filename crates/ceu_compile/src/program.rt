// From a text to its kernel and its sizes.
ghost use Rattle.std.specs.Prelude.{◌≡◌, ◌≤◌, Some, None, length, false, IfOk, IfErr};
ghost use Rattle.ceu_bound.specs.PhaseB.{AreBounds};
ghost use Rattle.ceu_compile.specs.Programs.{HasKernel, IsBroken, IsProgram, IsSound, IsTreeBroken};
ghost use Rattle.ceu_tree.specs.Needs.{memory};
ghost use Rattle.ceu_tree.specs.Proper.{Proper};

use crate::errors::{CompileError, check_error};
use crate::front::syntax_of;
use crate::naming::resolved;
use crate::sizes::{Size, size_of};
use ceu_base::Pos;
use ceu_bound::{Bounds, bound};
use ceu_expand::expand;
use ceu_tree::{Kernel, Tree};
use std::alloc::Global;

/// A program that breaks no rule: its kernel, the bytes of its memory, and the turns and levels of its reactions at most.
#[derive(Drop)]
pub struct Program {
    pub kernel: Kernel,
    pub memory: u32,
    pub bounds: Bounds,
}

/// The program of a text, or the first rule that the text breaks.
pub fn program_of(alloc: Global, text: &[u8]) -> Result<Program, CompileError>
    requires { length text.now ≤ 1048576 }
    ensures program { IfOk result (λ p. IsProgram text.now p.kernel) }
    ensures proper { IfOk result (λ p. Proper p.kernel) }
    ensures sized { IfOk result (λ p. p.memory ≡ memory false p.kernel) }
    ensures bounded { IfOk result (λ p. AreBounds p.kernel p.bounds) }
    ensures refused { IfErr result (λ e. IsBroken text.now e) }
{
    match syntax_of(alloc, text) {
        Ok(found) => of_tree(alloc, &found.tree),
        Err(e) => Err(e),
    }
}

// Asks the rules on names, types and sizes.
fn of_tree(alloc: Global, tree: &Tree) -> Result<Program, CompileError>
    ensures sound { IfOk result (λ p. IsSound tree.now p.kernel) }
    ensures sized { IfOk result (λ p. p.memory ≡ memory false p.kernel) }
    ensures bounded { IfOk result (λ p. AreBounds p.kernel p.bounds) }
    ensures refused { IfErr result (λ e. IsTreeBroken tree.now e) }
{
    match resolved(alloc, tree) {
        Ok(names) => match expand(alloc, tree, &names.scopes, &names.types) {
            Ok(kernel) => of_kernel(alloc, tree, kernel),
            Err(_) => Err(CompileError::Memory),
        },
        Err(e) => Err(e),
    }
}

// Asks the rules on bounds and on sizes.
fn of_kernel(alloc: Global, tree: &Tree, kernel: Kernel) -> Result<Program, CompileError>
    requires { HasKernel tree.now kernel }
    ensures sound { IfOk result (λ p. IsSound tree.now p.kernel) }
    ensures sized { IfOk result (λ p. p.memory ≡ memory false p.kernel) }
    ensures bounded { IfOk result (λ p. AreBounds p.kernel p.bounds) }
    ensures refused { IfErr result (λ e. IsTreeBroken tree.now e) }
{
    match bound(alloc, &kernel) {
        Ok(bounds) => of_bounded(alloc, tree, kernel, bounds),
        Err(e) => Err(check_error(e)),
    }
}

// Asks the rules on sizes.
fn of_bounded(
    alloc: Global,
    tree: &Tree,
    kernel: Kernel,
    bounds: Bounds,
) -> Result<Program, CompileError>
    requires kernel { HasKernel tree.now kernel }
    requires bounds { AreBounds kernel bounds }
    ensures sound { IfOk result (λ p. IsSound tree.now p.kernel) }
    ensures sized { IfOk result (λ p. p.memory ≡ memory false p.kernel) }
    ensures bounded { IfOk result (λ p. AreBounds p.kernel p.bounds) }
    ensures refused { IfErr result (λ e. IsTreeBroken tree.now e) }
{
    match size_of(alloc, &kernel) {
        Ok(Size::Memory(memory)) => Ok(Program {
            kernel,
            memory,
            bounds,
        }),
        Ok(Size::Over(rule)) => Err(CompileError::Refused(rule, Pos { line: 1, col: 1 })),
        Err(_) => Err(CompileError::Memory),
    }
}
