//! The text of the sample library: all 28 forms, each of which has a dot at a corner and, in a row,
//! the binary digits of its number, so that no two forms have the same dots. The dots are no design
//! that works; they tell forms apart.
ghost use Rattle.std.specs.Prelude.{◌≡◌, ◌<◌, ◌++◌, IfOk, OnOk, string_bytes};
ghost use Rattle.bx_sample.specs.Library.{library_text, forms_text, before, form_text, digits_text, digit_text};

use bx_forms::Form;
use bx_logic::NoMemory;
use std::alloc::Global;

/// The text of the sample library, in JSON: one line, without spaces and without an end.
///
/// # Errors
///
/// `NoMemory` if memory is refused for the text.
pub fn sample_library_text(alloc: Global) -> Result<Vec<u8>, NoMemory>
    ensures { IfOk result (λ text. text.items ≡ library_text) }
{
    let mut text = String::new(alloc);
    text.push_str("{\"name\":\"sample\",\"width\":8,\"height\":6,\"forms\":{")?;
    put_forms(&mut text)?;
    text.push_str("}}")?;
    Ok(text.into_bytes())
}

// All forms, with their dots.
fn put_forms(text: &mut String) -> Result<(), NoMemory>
    ensures { OnOk result (string_bytes text.new ≡ string_bytes text.old ++ forms_text) }
{
    for form in Form::all() {
        put_form(text, form)?;
    }
    Ok(())
}

// What stands before a form: a comma where it isn't the first one.
fn before(form: Form) -> &'static str
    ensures { result.now ≡ before form }
{
    if form.number() == 0 { "" } else { "," }
}

// A form with its dots, and what stands before it.
fn put_form(text: &mut String, form: Form) -> Result<(), NoMemory>
    ensures { OnOk result (string_bytes text.new ≡ string_bytes text.old ++ form_text form) }
{
    let before = before(form);
    let name = form.name();
    write!(text, "{before}\"{name}\":[[1,1,0]")?;
    put_digits(text, form.number())?;
    text.push_str("]")?;
    Ok(())
}

// A dot for each of five binary digits of a number.
fn put_digits(text: &mut String, number: u8) -> Result<(), NoMemory>
    ensures { OnOk result (string_bytes text.new ≡ string_bytes text.old ++ digits_text number) }
{
    for i in 0..5 {
        put_digit(text, number, i)?;
    }
    Ok(())
}

// The dot of a binary digit, from the least one on.
fn put_digit(text: &mut String, number: u8, i: u8) -> Result<(), NoMemory>
    requires { i < 5 }
    ensures { OnOk result (string_bytes text.new ≡ string_bytes text.old ++ digit_text number i) }
{
    let n = i + 1;
    let l = (number >> i) % 2;
    write!(text, ",[{n},3,{l}]")?;
    Ok(())
}
