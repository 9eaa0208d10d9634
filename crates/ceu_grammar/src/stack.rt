// What is open, as a stack of frames that knows how many levels of nesting they make.
ghost use Rattle.std.specs.Prelude.{◌≡◌, [], ◌∷◌, OnOk, OnErr, MatchOption, IsTrue};
ghost use Rattle.ceu_grammar.specs.Levels.{opens_level};
ghost use Rattle.ceu_syntax.specs.Levels as limit;

use ceu_syntax::Frame;
use std::alloc::{AllocError, Global};
use std::marker::Model;

/// A stack of frames. Contracts see it as the list of its items, the top first.
#[derive(Drop)]
pub struct Stack {
    items: Vec<Frame>,
    levels: usize,
}

impl Model for Stack {
    ghost use Rattle.std.specs.Prelude.{List, reverse, ◌≡◌};
    ghost use Rattle.ceu_syntax.specs.declared.machine.Frame.{Frame};
    ghost use Rattle.ceu_grammar.specs.Levels.{level_count};
    ghost use Rattle.ceu_syntax.specs.contracts.machine.Frame as frame;
    ghost use Rattle.std.specs.Coded.{coded_list};

    ghost Value = { List Frame };

    ghost coded = { coded_list frame.the_row.coded };

    ghost view = { λ s. reverse s.items.items };

    ghost invariant = { λ s. s.levels ≡ level_count (reverse s.items.items) };
}

/// Whether a frame is a block or a parenthesis.
fn is_level(frame: &Frame) -> bool
    ensures { result ≡ opens_level frame.now }
{
    match frame {
        Frame::Paren(_) => true,
        Frame::Body(_) => true,
        _ => false,
    }
}

/// Whether a frame is a statement that has begun.
fn is_begun(frame: &Frame) -> bool
    ensures { result ≡ limit.is_begun frame.now }
{
    match frame {
        Frame::Begun(_, _) => true,
        _ => false,
    }
}

impl Stack {
    pub fn new(alloc: Global) -> Stack
        ensures { result ≡ [] }
    {
        Stack {
            items: Vec::new(alloc),
            levels: 0,
        }
    }

    pub fn push(&mut self, frame: Frame) -> Result<(), AllocError>
        ensures ok { OnOk result (self.new ≡ frame ∷ self.old) }
        ensures err { OnErr result (self.new ≡ self.old) }
    {
        let opens = is_level(&frame);
        self.items.push(frame)?;
        if opens {
            self.levels += 1;
        }
        Ok(())
    }

    pub fn pop(&mut self) -> Option<Frame>
        ensures { MatchOption result ((self.old ≡ []) × (self.new ≡ [])) (λ frame. self.old ≡ frame ∷ self.new) }
    {
        let frame = self.items.pop()?;
        if is_level(&frame) {
            self.levels -= 1;
        }
        Some(frame)
    }

    /// How many levels are open.
    pub fn levels(&self) -> usize
        ensures { result ≡ limit.level_count self.now }
    {
        self.levels
    }

    /// Whether a statement has begun, and nothing in it.
    pub fn is_at_statement(&self) -> bool
        ensures { result ≡ limit.is_at_statement self.now }
    {
        match self.items.last() {
            Some(frame) => is_begun(frame),
            None => false,
        }
    }
}
