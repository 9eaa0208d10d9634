// Why a text is no program.
ghost use Rattle.std.specs.Prelude.{◌≡◌};
ghost use Rattle.ceu_compile.specs.Errors as spec;
ghost use Rattle.ceu_compile.specs.declared.errors.CompileError.TheVariants as error;

use ceu_base::{CheckError, Pos, Rule};
use std::alloc::AllocError;
use thiserror::Error;

/// The rule that a text breaks first, and its place; or no memory was left.
#[derive(Clone, Copy, Debug, PartialEq, Eq, Error)]
pub enum CompileError {
    #[error("{0:?} at {line}:{col}", line = .1.line, col = .1.col)]
    Refused(Rule, Pos),
    #[error("out of memory")]
    Memory,
}

impl From<AllocError> for CompileError {
    ghost from_gives = { λ _ e. e ≡ error.Memory };

    fn from(_: AllocError) -> Self {
        CompileError::Memory
    }
}

pub(crate) fn check_error(error: CheckError) -> CompileError
    ensures { result ≡ spec.of_check error }
{
    match error {
        CheckError::Refused(rule, pos) => CompileError::Refused(rule, pos),
        CheckError::Memory => CompileError::Memory,
    }
}
