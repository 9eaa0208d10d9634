//! The static bounds of a program: the cells that its expressions take, its weight, and what a reaction costs.
#![tactic(auto)]

mod bounds;
mod cells;
mod codes;
mod cycles;
mod emissions;
mod graph;
mod instances;
mod measures;
mod order;
mod settling;
mod tables;
mod verdict;
mod weights;

pub use bounds::{Bounds, bound};
pub use cells::depth;
pub use weights::weight;

#[cfg(test)]
mod tests;
