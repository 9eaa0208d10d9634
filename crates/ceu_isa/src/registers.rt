/// What a trail has beside the memory while it runs: its own gate, the code offset that it has come to, the addresses where its frame
/// and its gates begin, and how many evaluation cells are in use.
#[derive(Clone, Copy, Debug, PartialEq, Eq)]
pub struct Registers {
    pub own: u16,
    pub at: u16,
    pub frame: u16,
    pub base: u16,
    pub depth: u16,
}
