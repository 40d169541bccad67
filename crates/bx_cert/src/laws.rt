//! Laws about the definitions alone, each the clause of a function with an empty body. Nothing here
//! runs.
ghost use Rattle.std.specs.Prelude.{◌≡◌, ◌⊎◌, ℕ, List};
ghost use Rattle.bx_grid.specs.declared.ratio.TheConstants.{MOST_LIMIT};
ghost use Rattle.bx_lines.specs.Lines.{IsFirstBadLine};
ghost use Rattle.bx_cert.specs.declared.parts.TheConstants.{MOST_CERT_BUDGET};
ghost use Rattle.bx_cert.specs.Certs.{Certificate, IsCert};
ghost use Rattle.bx_cert.specs.Texts.{cert_text, IsTextOf, IsCertText};

/// A certificate has one text, and bytes are the text of one certificate at most.
pub fn a_certificate_has_one_spelling()
    ensures text { (cert : Certificate) → IsCert cert → IsTextOf cert (cert_text cert) }
    ensures one_text { (cert : Certificate) (x y : List ℕ) → IsTextOf cert x → IsTextOf cert y
        → x ≡ y }
    ensures one_certificate { (bytes : List ℕ) (a b : Certificate) → IsTextOf a bytes
        → IsTextOf b bytes → a ≡ b }
{}

/// Bytes have one first bad line at most, and none where they are the text of a certificate.
pub fn a_text_of_a_certificate_has_no_bad_line()
    ensures one { (bytes : List ℕ) (j k : ℕ) → IsFirstBadLine IsCertText bytes j
        → IsFirstBadLine IsCertText bytes k → j ≡ k }
    ensures none { (bytes : List ℕ) (k : ℕ) → IsCertText bytes → IsFirstBadLine IsCertText bytes k
        → ⊥ }
{}

/// Bytes are the text of a certificate, or they have a first bad line.
pub fn bytes_are_a_certificate_or_have_a_bad_line()
    ensures { (bytes : List ℕ) → IsCertText bytes
        ⊎ ((k : ℕ) × IsFirstBadLine IsCertText bytes k) }
{}

/// The most that a side or a limit is, and the most that a budget is.
pub fn the_numbers_of_a_certificate()
    ensures sides { MOST_LIMIT ≡ 144 }
    ensures budget { MOST_CERT_BUDGET ≡ 67108864 }
{}
