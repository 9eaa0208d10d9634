//! What the bodies of a program hold: their loops, emissions and uses of code, and the exits that they may take at once.
#![tactic(auto)]

mod calm;
mod emissions;
mod loops;
mod turns;
mod uses;
mod waits;
mod ways;

pub use calm::paced;
pub use emissions::emit_in;
pub use loops::{FoundLoop, find_loops};
pub use turns::{CAP, constant_bound};
pub use uses::{CodeUse, uses_in};
pub use waits::stands_waiting;
pub use ways::{Exit, block_exits, has_exit, passing_codes, stmt_exits};
