//! Programs of one trail: loops and exits, step by step.
#![tactic(auto)]
