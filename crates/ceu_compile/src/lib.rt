//! From a program's text to its kernel, its sizes and its image, or the first rule that the text breaks.
#![tactic(auto)]

mod errors;
mod front;
mod image;
mod laws;
mod naming;
mod program;
mod sizes;

pub use errors::CompileError;
pub use front::{Parsed, syntax_of};
pub use image::{compile, image_of_program};
pub use laws::one_outcome;
pub use program::{Program, program_of};
