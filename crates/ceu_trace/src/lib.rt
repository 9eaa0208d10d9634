//! Marks of a run as lines of text.
#![tactic(auto)]

mod lines;
mod marks;
#[cfg(test)]
mod tests;

pub use marks::{TextMarks, has_short_names};
