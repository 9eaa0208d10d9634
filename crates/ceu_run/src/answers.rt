/// How a run on a script came to its end.
#[derive(Clone, Copy, Debug, PartialEq, Eq)]
pub enum Played {
    /// The program ended by itself, or waits at the script's end.
    Done,
    /// The program ended in a fault.
    Fault,
    /// A bad line was reached.
    Script,
    /// The source failed.
    Read,
    /// The sink failed.
    Write,
}
