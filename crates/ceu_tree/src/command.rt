/// What the environment does between two reactions.
#[derive(Clone, Copy, Debug, PartialEq, Eq)]
pub enum Command {
    /// An input by its number, with its value (0 for an input of type `none`).
    Input(u16, i128),
    /// The clock goes on by so many microseconds.
    Advance(u64),
    /// So many idle turns.
    Idle(u32),
}
