// Laws on the programs that run.
ghost use Rattle.ceu_forms.specs.Laws.{SinglesHaveOneGate, SinglesRun, WhatRunsIsSingle};

/// A program in which no statement is found whose form doesn't run is one of one trail, with short names and few inputs.
pub fn what_runs_is_single()
    ensures { WhatRunsIsSingle }
{}

/// In such a program none is found.
pub fn singles_run()
    ensures { SinglesRun }
{}

/// It has one gate, which its statements share.
pub fn singles_have_one_gate()
    ensures { SinglesHaveOneGate }
{}
