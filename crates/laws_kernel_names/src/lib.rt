//! Laws of the names in the kernel of a program, each the contract of a function with an empty body.
//!
//! A law of the variables in the kernel of a program, the contract of a function with an empty body.
#![tactic(auto)]

ghost use Rattle.laws_kernel_names.specs.SeenLaws.{KernelsSeen};
ghost use Rattle.laws_kernel_names.specs.VisibleLaws.{KernelsAbove, KernelsPorts};

/// In the kernel of a program that breaks no rule on names, inputs and outputs differ and have names of external events, where the text's have.
pub fn kernels_ports()
    ensures { KernelsPorts }
{}

/// In the kernel of a program that breaks no rule on names, the program's awaits, spawns, pools and aliases name codes of the kernel, those of
/// a code's body codes with lower numbers.
pub fn kernels_above()
    ensures { KernelsAbove }
{}

/// In the kernel of a program that breaks no rule on names, each variable of its own body that a statement or an expression names is visible
/// there and has the type that it is named with, and none that is assigned is the variable of a loop.
pub fn kernels_seen()
    ensures { KernelsSeen }
{}
