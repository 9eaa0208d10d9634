// Why the parser stops.
ghost use Rattle.std.specs.Prelude.{◌≡◌};
ghost use Rattle.ceu_grammar.specs.declared.stop.Stop.TheVariants.{Memory};

use std::alloc::AllocError;

/// Why a token is not taken.
#[derive(Clone, Copy, Debug)]
pub enum Stop {
    Memory,
    Wrong,
}

impl From<AllocError> for Stop {
    ghost from_gives = { λ _ e. e ≡ Memory };

    fn from(_: AllocError) -> Stop {
        Stop::Memory
    }
}
