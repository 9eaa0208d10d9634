ghost use Rattle.ceu_low_expr.specs.Bounds.{NoteFewPositions, TakeFewBytes, TakeFewLabels};

/// A law of the lines of expressions: for each node at most 14 bytes, with 4 fewer for the whole, two labels and one position.
pub fn expressions_are_short()
    ensures bytes { TakeFewBytes }
    ensures labels { TakeFewLabels }
    ensures positions { NoteFewPositions }
{}
