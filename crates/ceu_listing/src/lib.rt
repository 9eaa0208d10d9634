//! The listing of a program: its slots and gates, with their places in the text.
//!
//! The listing of an image.
#![tactic(auto)]

mod image_lines;
mod image_parts;
mod kernel_lines;
mod kernel_parts;
#[cfg(test)]
mod tests;

pub use image_parts::show;
pub use kernel_parts::listing;
