//! Compiled programs of one trail run as the reference semantics says. Each law is the contract of a function with an empty body.
#![tactic(auto)]

ghost use Rattle.ceu_simulates.specs.Laws.{CompiledImagesAreSound, CompiledProgramsRun};
ghost use Rattle.ceu_trail.specs.Laws.{StepsAreDone};

/// What one step of the reference semantics does in a turn the machine does too, whatever the leaf does, faults included.
pub fn steps_are_done()
    ensures { StepsAreDone }
{}

/// So a run of the machine on a compiled image has the marks and the outcome of the run by the reference semantics, whatever commands come,
pub fn compiled_programs_run()
    ensures { CompiledProgramsRun }
{}

/// and in no run of it anything is done that isn't allowed.
pub fn compiled_images_are_sound()
    ensures { CompiledImagesAreSound }
{}
