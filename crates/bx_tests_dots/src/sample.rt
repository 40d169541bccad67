//! The sample library, as its rule says: its tiles are 8 dimers wide and 6 high, and the dots of a form are one at
//! 1 and 1 and five in the row 3, which spell the form's number.

use bx_forms::Form;
use bx_library::{Dot, Library, read_library};
use bx_logic::NoMemory;
use std::alloc::Global;
use std::test::Fail;

// How many forms there are.
pub(crate) const FORMS: u8 = 28;

// The form of this number.
pub(crate) fn form(number: u8) -> Result<Form, Fail> {
    Ok(Form::from_number(number).ok_or("no form has this number")?)
}

// A dot by its n, m and l.
pub(crate) fn dot((n, m, l): (u32, u32, u8)) -> Dot {
    Dot { n, m, l }
}

// The sample library.
pub(crate) fn sample(alloc: Global) -> Result<Library, Fail> {
    let forms = forms_text(alloc, "", "")?;
    let text = text(alloc, "8", "6", forms.as_str())?;
    read_library(alloc, text.as_bytes()).map_err(|_| Fail::from("the sample is no library"))
}

// A library's text with these fields.
pub(crate) fn text(
    alloc: Global,
    width: &str,
    height: &str,
    forms: &str,
) -> Result<String, NoMemory> {
    Ok(format!(in alloc;
        "{{\"name\":\"sample\",\"width\":{width},\"height\":{height},\"forms\":{{{forms}}}}}"
    )?)
}

// The forms of the sample library, where the form `changed` has the dots of `other`, or none.
pub(crate) fn forms_text(alloc: Global, changed: &str, other: &str) -> Result<String, Fail> {
    let mut forms = String::new(alloc);
    for number in 0..FORMS {
        let form = form(number)?;
        let drawn = if form.name() == changed {
            Form::by_name(other)
        } else {
            Some(form)
        };
        push_form(alloc, form, drawn, &mut forms)?;
    }
    Ok(forms)
}

// Adds the field of a form, with the dots of another, or none.
fn push_form(
    alloc: Global,
    form: Form,
    drawn: Option<Form>,
    forms: &mut String,
) -> Result<(), NoMemory> {
    let comma = if forms.is_empty() { "" } else { "," };
    let name = form.name();
    forms.push_str(format!(in alloc; "{comma}\"{name}\":[")?.as_str())?;
    if let Some(drawn) = drawn {
        push_dots(alloc, drawn, forms)?;
    }
    forms.push_str("]")?;
    Ok(())
}

// Adds the dots of a form.
fn push_dots(alloc: Global, form: Form, forms: &mut String) -> Result<(), NoMemory> {
    forms.push_str("[1,1,0]")?;
    let mut rest = form.number();
    for n in 1..6u32 {
        let l = rest % 2;
        forms.push_str(format!(in alloc; ",[{n},3,{l}]")?.as_str())?;
        rest /= 2;
    }
    Ok(())
}

// The dots of a form, in order.
pub(crate) fn dots_of(alloc: Global, form: Form) -> Result<Vec<Dot>, NoMemory> {
    let mut dots = vec![in alloc; dot((1, 1, 0))]?;
    let mut rest = form.number();
    for n in 1..6u32 {
        dots.push(dot((n, 3, rest % 2)))?;
        rest /= 2;
    }
    dots.sort_unstable();
    Ok(dots)
}
