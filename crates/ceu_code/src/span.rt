/// The numbers from one to another, both included; none where the first is the greater.
#[derive(Clone, Copy, Debug)]
pub struct Span {
    pub from: u64,
    pub to: u64,
}
