//! How the machine runs the code of a program of one trail: turns, reactions, commands and runs come to what the reference semantics says. Each law is the
//! contract of a function with an empty body. That one step in a turn is as it should be is a premise of each (`StepsAreDone`).
#![tactic(auto)]

ghost use Rattle.ceu_follows.specs.Kept.{StepsKeep};
ghost use Rattle.ceu_follows.specs.Laws.{BootFollows, CommandsFollow, ImageIsSound, MarksAreNoPart, NoneBegins, ReactionsFollow, RunsAreDone, RunsFollow, TurnsAreDone, TurnsBegin};

/// A step of a reaction keeps what holds of configurations.
pub fn steps_keep()
    ensures { StepsKeep }
{}

/// A turn comes to what that of the reference semantics comes to, with the same marks.
pub fn turns_are_done()
    ensures { TurnsAreDone }
{}

/// A trail that can run begins its turn,
pub fn turns_begin()
    ensures { TurnsBegin }
{}

/// and where none can, the machine finds no gate.
pub fn none_begins()
    ensures { NoneBegins }
{}

/// So a reaction comes to what that of the reference semantics comes to, with the same marks.
pub fn reactions_follow()
    ensures { ReactionsFollow }
{}

/// Whether two configurations agree says nothing on the marks that were made before.
pub fn marks_are_no_part()
    ensures { MarksAreNoPart }
{}

/// Boot comes to what that of the reference semantics comes to,
pub fn boot_follows()
    ensures { BootFollows }
{}

/// and so does each command, from configurations that agree,
pub fn commands_follow()
    ensures { CommandsFollow }
{}

/// and each run.
pub fn runs_follow()
    ensures { RunsFollow }
{}

/// So the marks and the outcome of a run of the machine are those of the run by the reference semantics,
pub fn runs_are_done()
    ensures { RunsAreDone }
{}

/// and the image is sound: whatever commands come, nothing is done that isn't allowed.
pub fn image_is_sound()
    ensures { ImageIsSound }
{}
