// What the codes and events of a program cost, by number, in one part.

/// A part of a cost: turns of trails, or levels that are opened.
#[derive(Clone, Copy, PartialEq, Eq)]
pub enum Part {
    Turns,
    Levels,
}

/// Which codes an await may pass at once, what an emission of each event costs, and what each code costs from its start and where it
/// stood waiting, each capped at 4,294,967,296.
#[derive(Drop)]
pub struct Tables {
    pub part: Part,
    pub passing: Vec<bool>,
    pub events: Vec<u64>,
    pub entering: Vec<u64>,
    pub staying: Vec<u64>,
}
