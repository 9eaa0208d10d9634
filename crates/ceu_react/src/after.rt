use ceu_base::{Fault, Pos};

/// How a program stands after a command: it waits, it has ended with a value, or it has faulted.
#[derive(Clone, Copy, Debug, PartialEq, Eq)]
pub enum After {
    Waiting,
    Ended(i64),
    Faulted(Fault, Pos),
}

/// How a session's program stands: it wasn't booted yet, it waits, it has ended or faulted, or it was given up since its marks could not
/// be noted.
#[derive(Clone, Copy, Debug, PartialEq, Eq)]
pub enum State {
    Fresh,
    Waiting,
    Ended(i64),
    Faulted(Fault, Pos),
    Broken,
}
