//! How many gates a program takes, and which of them each statement and block has.
#![tactic(auto)]

mod laws;
mod needs;
mod plan;
mod ranges;

pub use laws::{block_in_order, branches_in_order, parts_nest};
pub use needs::gate_need;
pub use plan::{GatePlan, gate_plan};
pub use ranges::GateRange;
