//! The tree of a list of tokens, or the first broken rule of grammar.
#![tactic(auto)]

mod actions;
mod blocks;
mod declarations;
mod ends;
mod expressions;
mod limits;
mod openings;
mod parser;
mod stack;
mod steps;
mod stop;
mod tables;
mod terminal;
mod trees;

pub use parser::{ParseError, parse};
