//! From lines with labels to bytes: a sheet takes lines, gives labels and numbers positions, and `assemble` puts each label's offset
//! into the instructions that name it.
#![tactic(auto)]

mod assembly;
mod laws;
mod line;
mod sheet;
#[cfg(test)]
mod tests;

pub use assembly::assemble;
pub use laws::{instructions_are_of_the_table, instructions_follow_their_label};
pub use line::{Labels, Line};
pub use sheet::Sheet;
