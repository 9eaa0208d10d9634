ghost use Rattle.ceu_asm.specs.Fetch.{FollowTheirLabel};
ghost use Rattle.ceu_asm.specs.Whole.{AreOfTheTable, BecomeWholeCode};

/// A law of assembled code: at a label's offset stand the instructions that follow its mark.
pub fn instructions_follow_their_label()
    ensures { FollowTheirLabel }
{}

/// A law of spellings: an instruction whose operands are in range is spelled as the table of instructions asks, and lines of such
/// instructions become whole instructions.
pub fn instructions_are_of_the_table()
    ensures instructions { AreOfTheTable }
    ensures lines { BecomeWholeCode }
{}
