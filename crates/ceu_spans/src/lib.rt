//! Programs of one trail: loops over a range, step by step. Each law is the contract of a function with an empty body.
#![tactic(auto)]

ghost use Rattle.ceu_spans.specs.Laws.{RangesBegin, RangesTurn};

/// Where a turn of a program of one trail is at a loop over a range, the machine does in few steps what the reference semantics does in one, faults of the
/// ends too: the ends are kept, each one that is open one further in, and the turn goes on at the loop's head.
pub fn ranges_begin()
    ensures { RangesBegin }
{}

/// So too at the head of such a loop: the loop is over and its variable has no value any more, or the variable has the next value and the body begins.
pub fn ranges_turn()
    ensures { RangesTurn }
{}
