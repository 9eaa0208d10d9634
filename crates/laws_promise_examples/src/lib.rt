//! Kernels whose code is computed and run by the definition of the machine.
#![tactic(auto)]
