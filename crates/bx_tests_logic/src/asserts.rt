//! The asserts of this crate, one for each type that is compared: a function that compares at many places
//! costs the check much more than one that calls these.
ghost use Rattle.std.specs.Prelude.{◌≡◌};

use bx_desk::faults::Faults;
use std::process::Abort;

/// Two numbers are the same.
pub fn is_number(rt: &impl Abort, found: u64, wanted: u64)
    ensures { found ≡ wanted }
{
    assert_eq!(rt; found, wanted);
}

/// Something is so, or not.
pub fn is_so(rt: &impl Abort, found: bool, wanted: bool)
    ensures { found ≡ wanted }
{
    assert_eq!(rt; found, wanted);
}

/// Something is so, or not, in this case.
pub fn is_so_in(rt: &impl Abort, case: &str, found: bool, wanted: bool) {
    assert_eq!(rt; found, wanted, "{case}");
}

/// Two numbers are the same in this case.
pub fn is_number_in(rt: &impl Abort, case: &str, found: u64, wanted: u64) {
    assert_eq!(rt; found, wanted, "{case}");
}

/// Bytes are the same.
pub fn is_bytes(rt: &impl Abort, found: &[u8], wanted: &[u8]) {
    assert_eq!(rt; found, wanted);
}

/// Bytes are the same in this case.
pub fn is_bytes_in(rt: &impl Abort, case: &str, found: &[u8], wanted: &[u8]) {
    assert_eq!(rt; found, wanted, "{case}");
}

/// Texts are the same in this case.
pub fn is_text_in(rt: &impl Abort, case: &str, found: &str, wanted: &str) {
    assert_eq!(rt; found, wanted, "{case}");
}

/// The bytes of a file, if there is one, are those of a text in this case.
pub fn is_file_in(rt: &impl Abort, case: &str, found: Option<&[u8]>, wanted: Option<&str>) {
    assert_eq!(rt; found, wanted.map(|text| text.as_bytes()), "{case}");
}

/// The number of a net, if there is one, is the same in the row of this number.
pub fn is_net_in_row(rt: &impl Abort, row: usize, found: Option<u32>, wanted: Option<u32>) {
    assert_eq!(rt; found, wanted, "row {row}");
}

/// So many loads, writes and says have failed in this case.
pub fn are_faults_in(rt: &impl Abort, case: &str, found: Faults, wanted: (u64, u64, u64)) {
    assert_eq!(rt; (found.load, found.write, found.say), wanted, "{case}");
}
