//! The lines of the statements of one trail.
#![tactic(auto)]

mod flow;
mod laws;
mod loops;
mod search;
mod waits;
mod words;

pub use flow::lower_flow;
pub use laws::statements_are_short;
