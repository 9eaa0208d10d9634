//! That the machine fetches the instructions that are spelled in its code: the contract of a function with an empty body.
//!
//! What the code of an expression does on the machine: the contract of a function with an empty body.
#![tactic(auto)]

ghost use Rattle.laws_machine_code.specs.Fetches.{FetchesSpelled};
ghost use Rattle.laws_machine_code.specs.Laws.{ExpressionsEvaluate, InstructionsAreSteps};
ghost use Rattle.laws_machine_code.specs.Placed.{LinesArePlaced, PartsArePlaced};

/// At an offset where the bytes of an instruction stand, whose operands are in range, the machine fetches that instruction.
pub fn fetches_spelled()
    ensures { FetchesSpelled }
{}

/// Lines of which an image's code is made stand in it: at each one's offset the machine fetches its instruction, with labels as offsets.
pub fn lines_are_placed()
    ensures { LinesArePlaced }
{}

/// So does each part of lines that stand in the code.
pub fn parts_are_placed()
    ensures { PartsArePlaced }
{}

/// Where the lines of a typed expression stand in the code of an image, and its variables and aliases in the memory, the machine pushes the value that
/// the reference semantics gives, or faults as it does, at the same position; only evaluation cells change. It does no more instructions than the lines
/// have bytes.
pub fn expressions_evaluate()
    ensures { ExpressionsEvaluate }
{}

/// What a trail does in so many instructions is as many steps of its turn, and one that faults is one step more.
pub fn instructions_are_steps()
    ensures { InstructionsAreSteps }
{}
