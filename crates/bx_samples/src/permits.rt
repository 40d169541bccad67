//! Permits of the tests.

use bx_forms::{Form, FormSet};
use bx_layout::Permit;

/// The permit, everywhere the same, of all forms but those with these numbers.
pub fn without(left_out: &[u8]) -> Permit {
    let mut forms = FormSet::none();
    for form in Form::all() {
        if !left_out.contains(&form.number()) {
            forms = forms.with(form);
        }
    }
    Permit::same(forms)
}
