//! The laws of the texts of certificates.
ghost use Rattle.ldp_job.specs.Laws.{TextsAreRead, TextsAreShort};

/// What is written is read back.
pub fn texts_are_read()
    ensures { TextsAreRead }
{}

/// How long a text can be.
pub fn texts_are_short()
    ensures { TextsAreShort }
{}
