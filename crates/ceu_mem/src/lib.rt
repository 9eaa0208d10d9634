//! The machine's memory: one array of bytes, with typed numbers and gates in it.
#![tactic(auto)]

mod gate;
mod laws;
mod memory;
mod numbers;
#[cfg(test)]
mod tests;

pub use gate::Gate;
pub use laws::{gates_stay_apart, numbers_stay_apart};
pub use memory::{Memory, size, with_sign};
