//! The machine as a definition: what each instruction does to the memory, and what follows from it for turns, reactions and runs.
#![tactic(auto)]

mod registers;

pub use registers::Registers;
