//! The flat code that a program becomes: instructions, images, and the one spelling of an image as bytes.
#![tactic(auto)]

mod code;
mod decoder;
mod decoding;
mod encoding;
mod image;
mod instr;
mod laws;
mod listing;
mod number;
mod row;
mod span;
mod spelled;
mod table;
#[cfg(test)]
mod tests;

pub use decoder::decode;
pub use decoding::DecodeError;
pub use encoding::encode;
pub use image::{CodeRow, Image, copy_ports, memory_size};
pub use instr::{Instr, TimeUnit};
pub use laws::one_spelling;
pub use listing::disassemble;
pub use span::Span;
pub use spelled::{put_instruction, size_of_instruction, with_target};
pub use table::{Operand, Row, TABLE};
