//! How long the text of a certificate is.
ghost use Rattle.mig_cert.specs.Lengths.{CertTextsAreShort};

/// The text of a certificate isn't too long to be read back.
pub fn cert_texts_are_short()
    ensures { CertTextsAreShort }
{}
