//! A law of the types in the kernel of a program, the contract of a function with an empty body.
#![tactic(auto)]

ghost use Rattle.laws_kernel_types.specs.Laws.{KernelsTyped};

/// In the kernel of a program that breaks no rule on names and types, and whose time literals are in range, each expression has the types that its
/// operators take, once its variables and aliases may be named; each value that is given fits where it goes, also arguments and the values of events,
/// outputs and exits; each variable that takes a value holds all that it may be given; and no variable or parameter is without type.
pub fn kernels_typed()
    ensures { KernelsTyped }
{}
