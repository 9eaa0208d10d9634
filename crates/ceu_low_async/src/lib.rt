//! The lines of an async.
#![tactic(auto)]

mod statement;

pub use statement::lower_async;
