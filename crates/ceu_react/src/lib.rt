//! The machine's reactions: an image that runs over its memory, command by command, exactly as ceu_isa defines it. It takes no memory.
#![tactic(auto)]

mod after;
mod changes;
mod clock;
mod closing;
mod commands;
mod laws;
mod reacting;
mod rounds;
mod session;
#[cfg(test)]
mod tests;

pub use after::{After, State};
pub use laws::{more_turns_change_nothing, next_turn_is_allowed, safe_is_kept};
pub use session::{NewError, Session};
