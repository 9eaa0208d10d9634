// What a script has.
use ceu_tree::Command;

/// Why a line is bad.
#[derive(Clone, Copy, Debug, PartialEq, Eq)]
pub enum BadKind {
    /// It has more than 200 bytes.
    Long,
    /// It has no shape of a command.
    Form,
    /// Its name isn't an input of the program.
    Unknown,
    /// Its value is missing, superfluous, unreadable or out of its type.
    Value,
    /// It has no time literal of at most 2^63 - 1 microseconds.
    Time,
    /// It is cut by the limit of 2^40 bytes.
    Budget,
}

/// The next command of a script; or its end; or its first bad line, with its number.
#[derive(Clone, Copy, Debug, PartialEq, Eq)]
pub enum Item {
    Command(Command),
    End,
    Bad(u64, BadKind),
}

/// The next line of a script that isn't skipped; or its end; or a bad line, with its number.
#[derive(Clone, Copy, Debug, PartialEq, Eq)]
pub enum LineItem {
    Line,
    End,
    Bad(u64, BadKind),
}
