// How many turns a loop makes, where its text says so.
ghost use Rattle.std.specs.Prelude.{◌≡◌, ◌+◌, ◌-◌, ◌≤◌, ◌+ℤ◌, ◌-ℤ◌, pos, option_map};
ghost use Rattle.ceu_base.specs.Values.{of_test};
ghost use Rattle.ceu_tree.specs.Paths as spec;
ghost use Rattle.ceu_paths.specs.Cap.{cap};
ghost use Rattle.ceu_paths.specs.Turns.{excluded};

use ceu_tree::{KExpNode, KLoop};

/// What numbers are capped at.
pub const CAP: u64 = 0x1_0000_0000;

fn literal(node: &KExpNode) -> Option<i128>
    ensures { result ≡ spec.literal node.now }
{
    match node {
        KExpNode::Const(value) => Some(*value),
        KExpNode::Read(_) => None,
        KExpNode::Alive(_) => None,
        KExpNode::One(_, _) => None,
        KExpNode::Two(_, _, _) => None,
        KExpNode::As(_) => None,
    }
}

fn excluded(left_out: bool) -> u64
    ensures { result ≡ excluded left_out }
{
    if left_out { 1 } else { 0 }
}

// The numbers from one to another that lies so far above it, of which an open end isn't one.
fn shortened(apart: u64, open_a: bool, open_b: bool) -> u64
    requires { apart ≤ 4294967296 }
    ensures { result ≡ cap (apart + 1 - (excluded open_a + excluded open_b)) }
{
    let length = (apart + 1).saturating_sub(excluded(open_a) + excluded(open_b));
    length.min(CAP)
}

// The numbers from a to b, of which an open end isn't one, capped at 4,294,967,296.
fn length_between(a: i128, open_a: bool, b: i128, open_b: bool) -> u64
    ensures { result ≡ cap (spec.length_of ((b -ℤ of_test open_b) -ℤ (a +ℤ of_test open_a) +ℤ pos 1)) }
{
    let Some(apart) = b.checked_sub(a) else {
        return if a < b { CAP } else { 0 };
    };
    if apart < 0 {
        return 0;
    }
    if apart > 0x1_0000_0000 {
        return CAP;
    }
    shortened(apart as u64, open_a, open_b)
}

/// The turns of `loop/N` and of a range with constant ends, capped at 4,294,967,296.
pub fn constant_bound(kind: &KLoop) -> Option<u64>
    ensures { result ≡ option_map cap (spec.constant_bound kind.now) }
{
    match kind {
        KLoop::Free => None,
        KLoop::Times(_, turns) => Some(u64::from(*turns)),
        KLoop::Range(_, _, _, open_a, a, b, open_b) => {
            let a = literal(&a.node)?;
            let b = literal(&b.node)?;
            Some(length_between(a, *open_a, b, *open_b))
        }
    }
}

pub fn is_range(kind: &KLoop) -> bool
    ensures { result ≡ spec.is_range kind.now }
{
    match kind {
        KLoop::Range(_, _, _, _, _, _, _) => true,
        KLoop::Free => false,
        KLoop::Times(_, _) => false,
    }
}
