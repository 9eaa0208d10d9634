ghost use Rattle.ceu_low_flow.specs.Bounds.{NoteOnePosition, TakeFewBytes, TakeTheirLabels};

/// A law of the lines of statements of one trail: at most 3 bytes for each expression, 45 for each arm of an if and 33 for the
/// statement, the labels that its kind takes, and at most one position.
pub fn statements_are_short()
    ensures bytes { TakeFewBytes }
    ensures labels { TakeTheirLabels }
    ensures positions { NoteOnePosition }
{}
