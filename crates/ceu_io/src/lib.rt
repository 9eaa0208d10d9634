//! The outside as the program sees it: files by name, a source of bytes and a sink, each with a count of faults, and objects in memory that keep the same promises.
//!
//! Lines that are built in a buffer and offered to a sink as one piece.
#![tactic(auto)]

mod calls;
mod memory_shelf;
mod memory_sink;
mod memory_source;
mod outside;
mod printing;
mod shelves;
#[cfg(test)]
mod tests;
mod whole;

pub use memory_shelf::MemShelf;
pub use memory_sink::MemSink;
pub use memory_source::MemSource;
pub use outside::{Failed, Sink, Source};
pub use printing::{Line, offer, offer_named, push, push_number, push_place};
pub use shelves::{Fetched, Shelf, ShelfError};
pub use whole::write_all;
