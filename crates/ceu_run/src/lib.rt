//! Runs a program on a script: each command is done, and what it prints is written, before the next line is looked for.
//!
//! Runs a program on a script behind its memory line.
//!
//! Runs a compiled program of one trail: its image on the machine, command by command, as the reference semantics says.
//!
//! Runs a compiled program of one trail on a script: its image runs behind the memory line.
#![tactic(auto)]

mod answers;
mod commands;
mod compiled;
mod follow;
mod image_runs;
mod lines;
mod memory_line;
mod playing;
mod reactor;
mod reactor_runs;

pub use answers::Played;
pub use compiled::Compiled;
pub use image_runs::run;
pub use memory_line::write_memory;
pub use playing::play;
pub use reactor::{After, Reactor};
pub use reactor_runs::run_reactor;
