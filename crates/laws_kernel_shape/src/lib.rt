//! Laws of the kernel of a program, each the contract of a function with an empty body.
//!
//! Laws of the exits in the kernel of a program, each the contract of a function with an empty body.
#![tactic(auto)]

ghost use Rattle.laws_kernel_shape.specs.ExitsLaws.{KernelsExits};
ghost use Rattle.laws_kernel_shape.specs.ProperLaws.{KernelsEvents, KernelsNumbered, KernelsShaped, KernelsSmall};

/// In the kernel of a program that breaks no rule on names, nodes and slots are counted from 0 in pre-order over the program's text
/// and then each code, its parameters before its body.
pub fn kernels_numbered()
    ensures { KernelsNumbered }
{}

/// Where statements, declared names and spawns of a tree have positions, its numbers are in range and each par has two branches at
/// least, so it is in the kernel; a par that isn't `par/and` has the slot 0 there.
pub fn kernels_shaped()
    ensures { KernelsShaped }
{}

/// In the kernel of a program that breaks no rule on names, each event that belongs to code names one of the kernel's codes.
pub fn kernels_events()
    ensures { KernelsEvents }
{}

/// The kernel of a program that breaks no rule on names has at most seven nodes for each statement, variable and block of its tree.
pub fn kernels_small()
    ensures { KernelsSmall }
{}

/// In the kernel of a program that breaks no rule on names and types each escape has its `do` or its body around it, with a value exactly where
/// that takes one, each break and continue its loop; an async and a finalizer have only the statements and declarations that they may have.
pub fn kernels_exits()
    ensures { KernelsExits }
{}
