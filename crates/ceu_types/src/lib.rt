//! The types of expressions, and the rules on types that a program may break.
#![tactic(auto)]

mod around;
mod expressions;
mod found;
mod kinds;
mod operands;
mod parts;
mod statements;
mod typing;
mod uses;

pub use typing::{Types, type_tree};

#[cfg(test)]
mod tests;
