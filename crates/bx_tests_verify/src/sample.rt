//! The sample library, as its rule says: its tiles are 8 dimers wide and 6 high, and the dots of a form are one at
//! 1 and 1 and five in the row 3, which spell the form's number.

use bx_forms::Form;
use bx_library::{Library, read_library};
use bx_logic::NoMemory;
use std::alloc::Global;
use std::test::Fail;

// The sample library without the forms of these numbers.
pub(crate) fn sample_without(alloc: Global, left_out: &[u8]) -> Result<Library, Fail> {
    let mut forms = String::new(alloc);
    for form in Form::all() {
        if !left_out.contains(&form.number()) {
            push_form(alloc, form, &mut forms)?;
        }
    }
    let forms = forms.as_str();
    let text = format!(in alloc;
        "{{\"name\":\"sample\",\"width\":8,\"height\":6,\"forms\":{{{forms}}}}}"
    )?;
    read_library(alloc, text.as_bytes()).map_err(|_| Fail::from("the sample is no library"))
}

// Adds the field of a form.
fn push_form(alloc: Global, form: Form, forms: &mut String) -> Result<(), NoMemory> {
    let comma = if forms.is_empty() { "" } else { "," };
    let name = form.name();
    forms.push_str(format!(in alloc; "{comma}\"{name}\":[[1,1,0]")?.as_str())?;
    let mut rest = form.number();
    for n in 1..6u32 {
        let l = rest % 2;
        forms.push_str(format!(in alloc; ",[{n},3,{l}]")?.as_str())?;
        rest /= 2;
    }
    forms.push_str("]")?;
    Ok(())
}
