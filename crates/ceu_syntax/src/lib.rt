//! Which lists of tokens derive which tree, and a machine that takes one token a step and accepts just these lists.
#![tactic(auto)]

mod laws;
mod machine;
mod terminal;

pub use laws::{accepts_programs, ends_at_first_wrong, one_outcome, one_tree};
pub use machine::{
    Act, Acting, Body, Case, Coding, Declaring, Frame, Listed, Looping, Mode, Opening, Owner,
};
pub use terminal::{Kind, Terminal};
