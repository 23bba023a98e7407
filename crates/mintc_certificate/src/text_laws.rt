//! Laws of the text of certificates.
ghost use Rattle.std.specs.Prelude.{ℕ};
ghost use Rattle.mintc_certificate.specs.TextLaws.{HaveOneCertificate, HaveNoCertificateFault, HaveOneCertificateFault};
ghost use Rattle.mintc_certificate.specs.TextLaws.{HaveOneCertificateText, SecondSaysFirst, WrittenAreTexts};
ghost use Rattle.mintc_certificate.specs.TextLaws.{HaveCertificateOrRefusal, WrittenAreAll, WrittenAreApart};

/// In each run, whatever its limit of members: a text is that of at most one certificate; where it is that of one, no
/// line is at fault; and at most one line is.
pub fn certificate_texts_are_plain()
    ensures value { (most : ℕ) → HaveOneCertificate most }
    ensures no_fault { (most : ℕ) → HaveNoCertificateFault most }
    ensures fault { (most : ℕ) → HaveOneCertificateFault most }
{}

/// A certificate has one text with a given first line, which is its version; and a text in version 1 with the other
/// first line is one of the same certificate in version 2.
pub fn certificate_texts_are_canonical()
    ensures one { (most : ℕ) → HaveOneCertificateText most }
    ensures versions { (most : ℕ) → SecondSaysFirst most }
{}

/// What `write` gives is read back where its members are no more than the run takes, is the only text in version 2,
/// and is that of no other certificate.
pub fn written_certificates_are_read()
    ensures read { (most : ℕ) → WrittenAreTexts most }
    ensures only { (most : ℕ) → WrittenAreAll most }
    ensures apart { (most : ℕ) → WrittenAreApart most }
{}

/// Each text is a certificate's, or is refused for its first line out of form.
pub fn texts_have_certificates_or_refusals()
    ensures { (most : ℕ) → HaveCertificateOrRefusal most }
{}
