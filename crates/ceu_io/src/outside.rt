// The traits of the outside. `faults` counts an object's failures: it never falls, is at most 2^64 - 1 and stays there once it is reached.
ghost use Rattle.std.specs.Prelude.{◌≡◌, ◌≤◌, ℕ, List, Option, length, take, IfOk, OnErr};
ghost use Rattle.ceu_io.specs.Counts.{HasCause};
ghost use Rattle.ceu_io.specs.Bytes.{Reads, Appends, IsPiece};

/// The answer of a call on the outside that failed.
#[derive(Clone, Copy, Debug, PartialEq, Eq)]
pub struct Failed;

/// Bytes that are read.
pub trait Source {
    /// How many calls have failed so far.
    ghost faults: { Self → ℕ };
    /// The bytes that are still to be read, where the source tells them.
    ghost left: { Self → Option (List ℕ) };

    /// Moves the next bytes into the front of `buf` and answers how many; 0 for a buffer that isn't empty means the end.
    fn read(&mut self, buf: &mut [u8]) -> Result<usize, Failed>
        ensures within { IfOk result (λ n. n ≤ length buf.old) }
        ensures moved { IfOk result (Reads buf.old buf.new (left self.old) (left self.new)) }
        ensures untaken { OnErr result (left self.new ≡ left self.old) }
        ensures cause { HasCause (faults self.old) (faults self.new) result };
}

/// Bytes that are written.
pub trait Sink {
    /// How many calls have failed so far.
    ghost faults: { Self → ℕ };
    /// The bytes written so far, where the sink tells them.
    ghost held: { Self → Option (List ℕ) };

    /// Appends a front of `buf` and answers its length, at least 1 where `buf` isn't empty.
    fn write(&mut self, buf: &[u8]) -> Result<usize, Failed>
        ensures piece { IfOk result (λ n. IsPiece n (length buf.now)) }
        ensures appended { IfOk result (λ n. Appends (take n buf.now) (held self.old) (held self.new)) }
        ensures unchanged { OnErr result (held self.new ≡ held self.old) }
        ensures cause { HasCause (faults self.old) (faults self.new) result };
}
