// Laws of the ranges, each the contract of a function with an empty body.
ghost use Rattle.ceu_gates.specs.Order.{BlockInOrder, BranchesInOrder, PartsNest};

/// All that stands in a block or a statement lies within its range.
pub fn parts_nest()
    ensures { PartsNest }
{}

/// The branches of a par stand side by side, in their order.
pub fn branches_in_order()
    ensures { BranchesInOrder }
{}

/// In a block come its finalizers, then the places of its pools, then its other statements.
pub fn block_in_order()
    ensures { BlockInOrder }
{}
