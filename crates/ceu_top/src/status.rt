/// How a call of the program ended. Its number is the exit status.
#[derive(Clone, Copy, Debug, PartialEq, Eq)]
pub enum Status {
    /// What the mode prints was written whole.
    Done,
    /// The text breaks a rule, or the bytes are no image, which was written.
    Refused,
    /// The words are no command.
    Words,
    /// A bad line of the script was reached.
    Script,
    /// The run ended in a fault.
    Fault,
    /// The shelf or the input failed.
    Read,
    /// The sink failed.
    Write,
    /// No memory was left.
    Memory,
    /// The shelf has no such file.
    Absent,
    /// The file is over the limit.
    TooLong,
}
