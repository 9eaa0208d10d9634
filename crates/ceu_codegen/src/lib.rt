//! From a kernel to its image: the lines of its statements and expressions are put together, and assembled.
#![tactic(auto)]

mod blocks;
mod bodies;
mod expressions;
mod image;
mod labels;
mod own;
mod pools;
mod statement;
mod words;

pub use bodies::lower_kernel;
pub use image::generate;
pub use pools::{Pool, pools_of};
