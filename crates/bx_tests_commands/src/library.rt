//! The text of the sample library, and of libraries that differ from it in some forms.

use bx_forms::Form;
use bx_logic::NoMemory;
use std::alloc::Global;

/// The sample library, with these lists in place of those of the forms that they are given for. A form with no text
/// isn't offered.
pub(crate) fn library_with(alloc: Global, others: &[(&str, &str)]) -> Result<String, NoMemory> {
    library_of(alloc, "8", "6", others)
}

/// The same with tiles of this size.
pub(crate) fn library_of(
    alloc: Global,
    width: &str,
    height: &str,
    others: &[(&str, &str)],
) -> Result<String, NoMemory> {
    let mut text = String::from_str(alloc, "{\"name\":\"sample\",\"width\":")?;
    text.push_str(width)?;
    text.push_str(",\"height\":")?;
    text.push_str(height)?;
    text.push_str(",\"forms\":{")?;
    let mut is_first = true;
    for number in 0..28_u8 {
        if let Some(form) = Form::from_number(number) {
            let dots = dots_text(alloc, form, others)?;
            if !dots.is_empty() {
                push_form(&mut text, is_first, form.name(), dots.as_str())?;
                is_first = false;
            }
        }
    }
    text.push_str("}}")?;
    Ok(text)
}

// Adds a form with the list of its dots.
fn push_form(text: &mut String, is_first: bool, name: &str, dots: &str) -> Result<(), NoMemory> {
    if !is_first {
        text.push_str(",")?;
    }
    text.push_str("\"")?;
    text.push_str(name)?;
    text.push_str("\":")?;
    text.push_str(dots)?;
    Ok(())
}

// The list of a form's dots: the one that is given for it, or that of the sample library, in which five dots are the
// bits of the form's number.
fn dots_text(alloc: Global, form: Form, others: &[(&str, &str)]) -> Result<String, NoMemory> {
    for &(name, dots) in others {
        if form.name() == name {
            return Ok(String::from_str(alloc, dots)?);
        }
    }
    let n = form.number();
    let bits = [n % 2, n / 2 % 2, n / 4 % 2, n / 8 % 2, n / 16 % 2];
    let text = format!(in alloc;
        "[[1,1,0],[1,3,{}],[2,3,{}],[3,3,{}],[4,3,{}],[5,3,{}]]",
        bits[0], bits[1], bits[2], bits[3], bits[4]
    )?;
    Ok(text)
}
