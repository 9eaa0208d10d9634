//! A law of the image of a kernel, the contract of a function with an empty body.
#![tactic(auto)]

ghost use Rattle.laws_code_spelled.specs.Laws.{ImagesAreSpelled};

/// The image of a proper kernel within the limits on sizes has a spelling, where each position that it names is one of a text.
pub fn images_are_spelled()
    ensures { ImagesAreSpelled }
{}
