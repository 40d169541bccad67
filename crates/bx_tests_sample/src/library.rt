//! The sample library: its text, and the library that it is read to be.

use crate::asserts::{are_numbers, holds};
use crate::mixed::mixed;
use bx_forms::Form;
use bx_library::{Dot, Library, read_library};
use bx_logic::NoMemory;
use bx_sample::sample_library_text;
use std::alloc::Global;
use std::test::Fail;

// The length of the text, the sum of its bytes, and what they are mixed to.
const TEXT: &[u64] = &[1697, 108_794, 1_496_096_486];

#[test]
fn the_text_of_the_sample_library(rt: HostRuntime) -> Result<(), Fail> {
    let text = sample_library_text(rt.alloc())?;
    are_numbers(&rt, &mixed(rt.alloc(), &text)?, TEXT);
    Ok(())
}

#[test]
fn the_sample_library_is_read(rt: HostRuntime) -> Result<(), Fail> {
    let library = library(rt.alloc())?;
    let size = [u64::from(library.width()), u64::from(library.height())];
    are_numbers(&rt, &size, &[8, 6]);
    for form in Form::all() {
        let wanted = dots_of(rt.alloc(), form)?;
        holds(&rt, form.name(), has_dots(&library, form, &wanted));
    }
    Ok(())
}

fn library(alloc: Global) -> Result<Library, Fail> {
    match read_library(alloc, &sample_library_text(alloc)?) {
        Ok(library) => Ok(library),
        Err(_) => Err("the sample library is one".into()),
    }
}

// Whether a library offers a form, with these dots.
fn has_dots(library: &Library, form: Form, dots: &[Dot]) -> bool {
    library.offers().has(form) && library.dots(form) == dots
}

// The dots of a form, in order: one that each form has, and one for each binary digit of its number.
fn dots_of(alloc: Global, form: Form) -> Result<Vec<Dot>, NoMemory> {
    let mut dots = vec![in alloc; Dot { m: 1, l: 0, n: 1 }]?;
    let mut rest = form.number();
    for n in 1..6u32 {
        let l = rest % 2;
        dots.push(Dot { m: 3, l, n })?;
        rest /= 2;
    }
    dots.sort_unstable();
    Ok(dots)
}
