// The law on images that are made.
ghost use Rattle.laws_promise_texts.specs.ImagesLaws.{ImagesAreCompiled};

/// The image of a proper kernel of one trail that is within the limits on sizes, by plans of its slots and gates, is a compiled image of the kernel.
pub fn images_are_compiled()
    ensures { ImagesAreCompiled }
{}
