//! The lines of statements on code: awaited code, spawns and kills.
#![tactic(auto)]

mod search;
mod statement;
mod words;

pub use statement::lower_pool;
