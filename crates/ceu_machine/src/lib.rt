//! The machine: one turn of an image over its memory, exactly as ceu_isa defines it. It takes no memory.
#![tactic(auto)]

mod after;
mod cells;
mod choosing;
mod emits;
mod fetching;
mod frames;
mod gates;
mod noting;
mod order;
mod outputs;
mod performing;
mod pools;
mod slots;
mod spawns;
mod state;
mod stepping;
mod trails;
mod turning;
mod words;

pub use choosing::{Wanted, pick};
pub use gates::{gate, set_gate};
pub use noting::note;
pub use turning::{Turned, turn};
pub use words::{write_number, write_value};
