//! The top call: from the words of a command line to the bytes that are written and the status.
#![tactic(auto)]

mod checking;
mod fetch;
mod lines;
mod listing;
mod refusal;
mod running;
mod showing;
mod status;
#[cfg(test)]
mod tests;
mod tidying;
mod top;
mod words;
mod writing;

pub use status::Status;
pub use top::ceu;
pub use words::Mode;
