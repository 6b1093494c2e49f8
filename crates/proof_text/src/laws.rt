//! Laws of the text.

ghost use Rattle.proof_text.specs.Texts.{FoundTextIsCertificate, StatedIsUnmarked, StatedHolds};

/// The text of a finding is that of its certificate in the same version, for every tree with the lines of the finding.
pub fn found_text_is_certificate()
    ensures { FoundTextIsCertificate }
{}

/// The certificate has no mark before the third version, nor where no stored cut has one.
pub fn stated_is_unmarked()
    ensures { StatedIsUnmarked }
{}

/// The certificate holds with its marks, and is in range in every version that has a text for it.
pub fn stated_holds()
    ensures { StatedHolds }
{}
