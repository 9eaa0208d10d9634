/// A gate, in 19 bytes. The kind is 0 free, 1 can run, 2 input, 3 time, 4 event, 5 forever, 6 async not served, 7 async served,
/// 8 finalizer; the key is the input, the event or the position, and the value is the delivered value or the remaining time.
#[derive(Clone, Copy, Debug, PartialEq, Eq)]
pub struct Gate {
    pub kind: u8,
    pub level: u16,
    pub code: u16,
    pub frame: u16,
    pub base: u16,
    pub key: u16,
    pub value: u64,
}
