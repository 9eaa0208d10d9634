//! Programs of one trail, as a definition.
#![tactic(auto)]
