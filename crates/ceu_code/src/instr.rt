use ceu_base::{Op1, Op2, Ty};

/// The unit of an awaited time.
#[derive(Clone, Copy, Debug, PartialEq, Eq)]
pub enum TimeUnit {
    H,
    Min,
    S,
    Ms,
    Us,
}

/// An instruction. Slots are offsets from the frame, gates are counted from the trail's gate base, and code offsets from the
/// begin of the code.
#[derive(Clone, Copy, Debug, PartialEq, Eq)]
pub enum Instr {
    /// Pushes a value of the type.
    Push(Ty, i128),
    /// Pushes the variable at a slot of this frame.
    Load(Ty, u16),
    /// Pushes the variable at a slot of the program's frame.
    LoadOuter(Ty, u16),
    /// Pops into the variable at a slot of this frame.
    Store(Ty, u16),
    /// Pops into the variable at a slot of the program's frame.
    StoreOuter(Ty, u16),
    /// A prefix operator on a value of the type; a fault has the position of this number.
    Prefix(Op1, Ty, u16),
    /// A binary operator on values of the type; a fault has the position of this number.
    Binary(Op2, Ty, u16),
    /// Pops a value of the first type, and pushes it as one of the second.
    Convert(Ty, Ty),
    /// Goes on at a code offset.
    Jump(u16),
    /// Pops, and goes on at a code offset where the value is false.
    JumpIfFalse(u16),
    /// Pushes the value in the header.
    Value(Ty),
    /// Pops into the value in the header.
    SetValue,
    /// Pops (not for `none`), and marks the output.
    Output(u16, Ty),
    /// The program has ended with the value in the header.
    End,
    /// Waits for an input.
    WaitInput(u16),
    /// Pops a number of these units, and waits for that time.
    WaitTime(TimeUnit),
    /// Waits for an internal event.
    WaitEvent(u16),
    /// Waits, and is never woken.
    WaitForever,
    /// Becomes an async that isn't served yet.
    StartAsync,
    /// A turn of an async's loop is completed: it is served until the next round.
    YieldAsync,
    /// An async has ended: its trail can run at level 0.
    EndAsync,
    /// Pops (not for `none`), wakes those that wait for the event, pauses, and opens a level.
    Emit(u16, Ty),
    /// A gate can run from a code offset on at this level.
    Fork(u16, u16),
    /// The trail goes on as another gate.
    Move(u16),
    /// The trail ends.
    Halt,
    /// Aborts a range of gates: the first and how many.
    AbortGates(u16, u16),
    /// Registers a finalizer: its gate, its code offset, its position.
    Register(u16, u16, u16),
    /// A finalizer ends.
    EndFinalizer,
    /// Runs a code row's body: the row, the slot of its frame, by how much the gate base moves.
    Call(u16, u16, u16),
    /// Goes back to the caller, or ends an instance.
    Return,
    /// Makes free places: the slot, how many, the pool row, the first gate.
    MakePool(u16, u16, u16, u16),
    /// Spawns an instance: the code row, the pool's slot, the number of places, the alias's slot (65,535: none), a position.
    Spawn(u16, u16, u16, u16, u16),
    /// Aborts the instance of the alias at a slot.
    Kill(u16),
    /// Pushes whether the instance of the alias at a slot lives.
    Alive(u16),
    /// Pops the end of a range, adds this number less 1 (it is 0, 1 or 2), and stores it at a slot as an s64.
    RangeBound(u16, u8),
    /// Takes the next value of a range: the slot of next and end, the slot of the variable, where to go when it is over.
    RangeNext(u16, u16, u16),
    /// Counts a turn of a loop at a slot; a fault at this position where the count is this number already.
    Limit(u16, u32, u16),
}
