//! Laws of the kernels that texts give: each is proper. The contracts of functions with empty bodies.
#![tactic(auto)]

ghost use Rattle.laws_kernel_proper.specs.Laws.{KernelsFit, KernelsProper, TextsProper, TreesDerived};

/// A kernel is proper where its nodes and slots are numbered, its shapes are those of a text, and all that it names is visible where it is named, has
/// its type and is set before.
pub fn kernels_fit()
    ensures { KernelsFit }
{}

/// In the tree that the tokens of a text derive, positions are those of tokens, inputs and outputs have names of external events, numbers and times
/// are in range, and a par has two branches at least.
pub fn trees_derived()
    ensures { TreesDerived }
{}

/// The kernel of a tree that breaks no rule on names and types is proper, where the tree's positions are from 1 on, its inputs and outputs have names of
/// external events, its numbers and times are in range, and a par has two branches at least.
pub fn kernels_proper()
    ensures { KernelsProper }
{}

/// The kernel of a text that breaks no rule on tokens, grammar, names and types is proper.
pub fn texts_proper()
    ensures { TextsProper }
{}
