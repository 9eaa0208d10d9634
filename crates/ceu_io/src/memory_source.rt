// A source in memory. It tells what is left, and fails on the calls that it was told.
ghost use Rattle.std.specs.Prelude.{◌≡◌, ◌<◌};

use crate::calls::is_listed;
use crate::{Failed, Source};
use std::marker::Model;

/// Bytes that are read in pieces of at most `piece`. The calls of `read`, counted from 1, that `fails` lists fail.
#[derive(Drop)]
pub struct MemSource {
    bytes: Vec<u8>,
    at: usize,
    piece: usize,
    calls: u64,
    faults: u64,
    fails: Vec<u32>,
}

impl Model for MemSource {
    ghost use Rattle.std.specs.Prelude.{◌≤◌, ◌<◌, length, drop};
    ghost use Rattle.ceu_io.specs.Memory.{SourceInMemory};

    ghost Value = { SourceInMemory };

    ghost view = { λ s. record { left = drop s.at s.bytes.items; piece = s.piece; calls = s.calls; faults = s.faults; fails = s.fails.items } };

    ghost invariant = { λ s. (s.at ≤ length s.bytes.items) × (0 < s.piece) };
}

impl MemSource {
    pub fn new(bytes: Vec<u8>, piece: usize, fails: Vec<u32>) -> MemSource
        requires { 0 < piece }
        ensures { result ≡ record { left = bytes.items; piece = piece; calls = 0; faults = 0; fails = fails.items } }
    {
        MemSource {
            bytes,
            at: 0,
            piece,
            calls: 0,
            faults: 0,
            fails,
        }
    }
}

impl Source for MemSource {
    ghost use Rattle.std.specs.Prelude.{◌≡◌, ◌≤◌, ◌<◌, ◌↔◌, IfOk, IsErr, IsTrue, OnErr, length, drop, Some};
    ghost use Rattle.ceu_io.specs.Counts.{HasCause};
    ghost use Rattle.ceu_io.specs.Bytes.{Reads};
    ghost use Rattle.ceu_io.specs.Calls.{next_count};
    ghost use Rattle.ceu_io.specs.Memory.{read_fails, read_size};

    ghost faults = { λ s. s.faults };

    ghost left = { λ s. Some s.left };

    fn read(&mut self, buf: &mut [u8]) -> Result<usize, Failed>
        ensures within { IfOk result (λ n. n ≤ length buf.old) }
        ensures moved { IfOk result (Reads buf.old buf.new (Some self.old.left) (Some self.new.left)) }
        ensures untaken { OnErr result (Some self.new.left ≡ Some self.old.left) }
        ensures cause { HasCause self.old.faults self.new.faults result }
        // In memory the answer is determined.
        ensures fails { IsErr result ↔ IsTrue (read_fails self.old) }
        ensures size { IfOk result (λ n. n ≡ read_size self.old (length buf.old)) }
        ensures done { IfOk result (λ n. self.new ≡ record self.old { left = drop n self.old.left; calls = next_count self.old.calls }) }
        ensures failed { OnErr result (self.new ≡ record self.old { calls = next_count self.old.calls; faults = next_count self.old.faults }) }
    {
        self.calls = self.calls.saturating_add(1);
        if is_listed(&self.fails, self.calls) {
            self.faults = self.faults.saturating_add(1);
            return Err(Failed);
        }
        let count = self.piece.min(buf.len()).min(self.bytes.len() - self.at);
        let end = self.at + count;
        buf[..count].copy_from_slice(&self.bytes[self.at..end]);
        self.at = end;
        Ok(count)
    }
}
