ghost use Rattle.ceu_code.specs.Decoding.{BytesSpellOneImage, ImagesHaveOneSpelling};

/// Laws of spellings: bytes spell at most one image, and an image has at most one spelling.
pub fn one_spelling()
    ensures images { BytesSpellOneImage }
    ensures spellings { ImagesHaveOneSpelling }
{}
