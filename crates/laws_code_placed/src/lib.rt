//! Laws of the code of a kernel, `shape`, each the contract of a function with an empty body.
#![tactic(auto)]

ghost use Rattle.laws_code_placed.specs.Laws.{MarkEachLabelOnce, MarkNoLabelTwice, MarkWhatIsNamed, NamesAreThere, OperandsAreInRange, ShapeIsPlaced};
ghost use Rattle.laws_code_placed.specs.Fits.{MadePlansFit};
ghost use Rattle.laws_code_placed.specs.Sizes.{BlocksAreLight, CodeIsShort, CodeIsWhole, CodesAreLight, LabelsAreFew, NodesAreFew, PoolsAreFew, PositionsAreFew, PositionsAreListed, StatementsAreLight};

/// In the lines of a proper kernel each label that was taken is marked by one line, and no other label by any; so each label that a line goes to is
/// marked once.
pub fn labels_are_marked()
    ensures each { MarkEachLabelOnce }
    ensures twice { MarkNoLabelTwice }
    ensures named { MarkWhatIsNamed }
{}

/// The code of a kernel has at most as many bytes as its weight, or 12. So the lines of a proper kernel become code where its weight has 16 bits.
pub fn code_is_short()
    ensures bytes { CodeIsShort }
    ensures whole { CodeIsWhole }
{}

/// A kernel's nodes and pools, the labels that its code takes and the positions that it names are few by its weight, and each position that is named
/// stands in the list at its number.
pub fn positions_are_few()
    ensures positions { PositionsAreFew }
    ensures nodes { NodesAreFew }
    ensures pools { PoolsAreFew }
    ensures labels { LabelsAreFew }
    ensures listed { PositionsAreListed }
{}

/// Each part of a kernel takes at most as many bytes, labels and positions as its weight.
pub fn parts_are_light()
    ensures blocks { BlocksAreLight }
    ensures statements { StatementsAreLight }
    ensures codes { CodesAreLight }
{}

/// The plans of slots and of gates that are made of a kernel fit it.
pub fn plans_fit()
    ensures { MadePlansFit }
{}

/// What the parts of a proper kernel name is there: slots, nodes, ports, events, codes, pools and exits by their numbers, with types and constants
/// that are values of theirs.
pub fn names_are_there()
    ensures { NamesAreThere }
{}

/// The operands of the instructions of its code are in range.
pub fn operands_are_in_range()
    ensures { OperandsAreInRange }
{}

/// The lines of its code stand in its image: at each one's offset the machine fetches its instruction, with labels as offsets.
pub fn shape_is_placed()
    ensures { ShapeIsPlaced }
{}
