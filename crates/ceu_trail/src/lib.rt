//! How programs of one trail are compiled and run: what stands in the code and in the memory while a turn is on.
#![tactic(auto)]

ghost use Rattle.ceu_trail.specs.Laws.{PartsAreBuilt};
ghost use Rattle.ceu_trail.specs.Plain.{BlocksArePlain};
ghost use Rattle.ceu_trail.specs.PartLaws.{ProgramIsBuilt, FramesAreBuilt, BlocksOpen, ListsBegin, GatesAreFirst, GatesNest, StopsAreThere};

/// Each part of a program at which a turn may be has its code, which stands at the part's own label.
pub fn parts_are_built()
    ensures { PartsAreBuilt }
{}

/// So has its body.
pub fn program_is_built()
    ensures { ProgramIsBuilt }
{}

/// Where a part around a frame has its code, so has the part inside it.
pub fn frames_are_built()
    ensures { FramesAreBuilt }
{}

/// A block begins with its statements and has nothing at its end. Each statement has its code, and behind it stand those that follow it.
pub fn blocks_open()
    ensures { BlocksOpen }
{}

/// Statements of a block begin at the own label of the first one.
pub fn lists_begin()
    ensures { ListsBegin }
{}

/// Each part of a program has gates from the first one on, and the image has them all.
pub fn gates_are_first()
    ensures { GatesAreFirst }
{}

/// A part has no more gates than the part around it.
pub fn gates_nest()
    ensures { GatesNest }
{}

/// Each statement that waits goes on behind the instruction with which it waits, and each block begins at its own label.
pub fn stops_are_there()
    ensures { StopsAreThere }
{}

/// A block has neither finalizers nor pools.
pub fn blocks_are_plain()
    ensures { BlocksArePlain }
{}
