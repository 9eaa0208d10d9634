//! The lines of an expression.
#![tactic(auto)]

mod expression;
mod laws;
mod types;

pub use expression::lower_exp;
pub use laws::expressions_are_short;
