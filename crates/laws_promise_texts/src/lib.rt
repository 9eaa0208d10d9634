//! Images of programs of one trail: the image that is made of a kernel is a compiled one.
//!
//! Images of texts: each one of a program of one trail refines its kernel.
//!
//! What the numbers that are printed of a text promise, for every text that breaks no rule: laws, each the contract of a function with an empty body.
#![tactic(auto)]

ghost use Rattle.laws_promise_texts.specs.OutcomesLaws.{TextsHaveOutcomes, TextsStayBounded};

mod images_laws;
mod refines_laws;

pub use images_laws::images_are_compiled;
pub use refines_laws::{images_refine_texts, what_runs_is_refined};

/// The reactions of a text that breaks no rule stay within the turns and levels of its kernel, and each of them ends.
pub fn texts_stay_bounded()
    ensures { TextsStayBounded }
{}

/// Each run of such a text, on any list of commands, has just one outcome.
pub fn texts_have_outcomes()
    ensures { TextsHaveOutcomes }
{}
