//! Scripts: the commands that a program is given, line by line, from a source that gives their bytes in any pieces.
#![tactic(auto)]

mod content;
mod items;
mod lines;
mod reader;
mod shapes;

pub use items::{BadKind, Item, LineItem};
pub use reader::ScriptReader;
pub use shapes::command_of;

#[cfg(test)]
mod tests;
