//! Which programs run: those of one trail.
#![tactic(auto)]

mod forms;
mod laws;

pub use forms::first_unbuilt;
pub use laws::{singles_have_one_gate, singles_run, what_runs_is_single};
