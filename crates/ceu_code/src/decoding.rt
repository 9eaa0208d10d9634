ghost use Rattle.std.specs.Prelude.{◌≡◌};
ghost use Rattle.ceu_code.specs.declared.decoding.DecodeError.TheVariants.{Memory};

use std::alloc::AllocError;
use thiserror::Error;

/// Why bytes aren't decoded: they are no image, and the number is the length of their longest beginning that some image has; or
/// want of memory.
#[derive(Clone, Copy, Debug, PartialEq, Eq, Error)]
pub enum DecodeError {
    #[error("no image: byte {0}")]
    Bad(usize),
    #[error("out of memory")]
    Memory,
}

impl From<AllocError> for DecodeError {
    ghost from_gives = { λ _ e. e ≡ Memory };

    fn from(_: AllocError) -> Self {
        DecodeError::Memory
    }
}
