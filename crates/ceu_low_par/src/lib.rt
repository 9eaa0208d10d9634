//! The lines of a par, and of a finalizer.
#![tactic(auto)]

mod branches;
mod kinds;
mod statement;
mod words;

pub use statement::lower_par;
