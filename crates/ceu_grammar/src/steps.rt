// What most steps do: a frame is opened, a list grows.
ghost use Rattle.std.specs.Prelude.{◌≡◌, [], ◌∷◌, ◌++◌, Some, Err, IfOk};
ghost use Rattle.ceu_grammar.specs.Moves.{Moves};
ghost use Rattle.ceu_grammar.specs.declared.stop.Stop.TheVariants.{Memory, Wrong};
ghost use Rattle.ceu_syntax.specs.Steps as spec;

use crate::stack::Stack;
use crate::stop::Stop;
use ceu_base::Seq;
use ceu_syntax::{Frame, Mode};
use std::alloc::AllocError;

/// No token goes on here. What was read so far is given up.
#[tactic(none)]
pub fn refuse<T: Drop>(_given_up: T) -> Result<Mode, Stop>
    ensures { result ≡ Err Wrong }
{
    Err(Stop::Wrong)
}

/// Memory is wanting. What was read so far is given up.
#[tactic(none)]
pub fn exhaust<T: Drop>(_given_up: T) -> Result<Mode, Stop>
    ensures { result ≡ Err Memory }
{
    Err(Stop::Memory)
}

/// What was read so far is given up, since no token goes on here.
#[tactic(none)]
pub fn wrong<T: Drop>(_given_up: T) -> Stop
    ensures { result ≡ Wrong }
{
    Stop::Wrong
}

/// What was read so far is given up, since memory is wanting.
#[tactic(none)]
pub fn memory<T: Drop>(_given_up: T) -> Stop
    ensures { result ≡ Memory }
{
    Stop::Memory
}

/// Lets go of what isn't needed any more.
#[tactic(none)]
pub fn give_up<T: Drop>(_given_up: T) {}

/// Opens a frame and goes on in this mode.
#[tactic(none)]
pub fn pushed(stack: &mut Stack, frame: Frame, mode: Mode) -> Result<Mode, Stop>
    ensures { Moves result stack.new (Some (spec.state (frame ∷ stack.old) mode)) }
{
    match stack.push(frame) {
        Ok(()) => Ok(mode),
        Err(_) => exhaust(mode),
    }
}

/// A list with one more item.
pub fn appended<T: Drop>(items: Seq<T>, item: T) -> Result<Seq<T>, AllocError>
    ensures { IfOk result (λ all. all ≡ items ++ item ∷ []) }
{
    let mut items = items;
    items.push(item)?;
    Ok(items)
}
