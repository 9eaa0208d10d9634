// Marks that are kept in memory.
ghost use Rattle.std.specs.Prelude.{◌≡◌, [], IfOk};

use crate::MarkSink;
use ceu_base::Mark;
use ceu_io::Failed;
use std::alloc::{AllocError, Global};
use std::marker::Model;

/// At most `room` marks, in the order in which they came. Without room left it fails.
#[derive(Drop)]
pub struct KeptMarks {
    marks: Vec<Mark>,
    room: usize,
    faults: u64,
}

impl Model for KeptMarks {
    ghost use Rattle.std.specs.Prelude.{◌≤◌, length, vec_capacity};
    ghost use Rattle.ceu_tree.specs.Marks.{MarksInMemory};

    ghost Value = { MarksInMemory };

    ghost view = { λ s. record { marks = s.marks.items; room = s.room; faults = s.faults } };

    ghost invariant = { λ s. (length s.marks.items ≤ s.room) × (s.room ≤ vec_capacity s.marks) };
}

impl KeptMarks {
    /// Takes the memory for `room` marks, so that `mark` needs none.
    pub fn new(alloc: Global, room: usize) -> Result<KeptMarks, AllocError>
        ensures { IfOk result (λ s. s ≡ record { marks = []; room = room; faults = 0 }) }
    {
        Ok(KeptMarks {
            marks: Vec::with_capacity(alloc, room)?,
            room,
            faults: 0,
        })
    }

    pub fn marks(&self) -> &[Mark]
        ensures { result.now ≡ self.now.marks }
    {
        &self.marks
    }
}

impl MarkSink for KeptMarks {
    ghost use Rattle.ceu_tree.specs.Marks.{Keeps, Refuses};

    ghost faults = { λ s. s.faults };

    ghost notes = { Keeps };

    ghost stops = { Refuses };

    fn mark(&mut self, m: Mark) -> Result<(), Failed> {
        if self.marks.len() == self.room {
            self.faults = self.faults.saturating_add(1);
            return Err(Failed);
        }
        self.marks.push(m).unwrap();
        Ok(())
    }
}
