//! The best design with its canonical forest is a certificate that the checker accepts.
ghost use Rattle.ldp_agreement.specs.Texts.{BestHaveTexts, BestAreReadBack};
ghost use Rattle.ldp_agreement.specs.Certificates.{BestAreAccepted, BestAreShaped};
ghost use Rattle.ldp_agreement.specs.Certificates.{BestHaveTolerance};

/// The certificate of the best design is accepted, and it meets what the checker asks of it.
pub fn certificates()
    ensures accepted { BestAreAccepted }
    ensures shape { BestAreShaped }
    ensures tolerance { BestHaveTolerance }
{}

/// The certificate of the best design has a text, which is read back and is short enough for a
/// file.
pub fn texts()
    ensures valid { BestHaveTexts }
    ensures read { BestAreReadBack }
{}
