//! A law of what the kernel of a program names, the contract of a function with an empty body.
//!
//! A law of the declarations in the kernel of a program, the contract of a function with an empty body.
#![tactic(auto)]

ghost use Rattle.laws_kernel_uses.specs.NamedLaws.{KernelsNamed};
ghost use Rattle.laws_kernel_uses.specs.SettledLaws.{KernelsSettled};

/// In the kernel of a program that breaks no rule on names and types, each variable of the outermost block that a code names is there with its type
/// and is no loop's; each port and each event is there, an event of a code only in that code; each pool and each alias that is named is visible and
/// is of the code that is spawned, the pool stands in the alias's block or around it, and no async asks for an alias.
pub fn kernels_named()
    ensures { KernelsNamed }
{}

/// In the kernel of a program that breaks no rule on names and types, each variable and alias that a block declares is set by a statement of the block's own
/// list, which names it once, and no statement before that one names it, directly or through code that it awaits or spawns.
pub fn kernels_settled()
    ensures { KernelsSettled }
{}
