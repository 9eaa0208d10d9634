// The laws on images of texts.
ghost use Rattle.laws_promise_texts.specs.RefinesLaws.{ImagesRefineTexts, WhatRunsIsRefined};

use ceu_compile::one_outcome;

/// The image of a text whose program is one of one trail has the sizes of the program's kernel, is sound, and refines the kernel: for every list of
/// commands of the image, the machine's run has the marks and the outcome of the run by the reference semantics.
pub fn images_refine_texts()
    ensures { ImagesRefineTexts }
{
    one_outcome();
}

/// So does the image of a text in whose program no statement is found whose form doesn't run.
pub fn what_runs_is_refined()
    ensures { WhatRunsIsRefined }
{
    images_refine_texts();
}
