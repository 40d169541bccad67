//! Dots, groups and libraries, as a person would write them down.

use crate::asserts::{holds, is_number, is_text};
use crate::sample::{FORMS, dot, dots_of, form, forms_text, sample, text};
use bx_forms::Form;
use bx_library::{Dot, Field, Group, Library, LibraryFault, read_library};
use bx_logic::{Name, NoMemory};
use std::alloc::Global;
use std::cmp::Ordering;
use std::process::Abort;
use std::test::Fail;

// Dots as n, m, l, each before the next one.
const ASCENDING: &[(u32, u32, u8)] = &[
    (9, 0, 0),
    (4_294_967_295, 0, 1),
    (0, 1, 0),
    (5, 1, 0),
    (2, 1, 1),
    (0, 2, 0),
];

#[test]
fn dots_are_ordered_by_m_then_l_then_n(rt: HostRuntime) {
    for (i, first) in ASCENDING.iter().enumerate() {
        for (j, second) in ASCENDING.iter().enumerate() {
            are_ordered(&rt, dot(*first), dot(*second), i.cmp(&j));
        }
    }
}

// Asserts in which order two dots stand.
fn are_ordered(rt: &impl Abort, first: Dot, second: Dot, wanted: Ordering) {
    holds(rt, first.is_before(second) == wanted.is_lt(), "before");
    holds(rt, first.cmp(&second) == wanted, "order");
}

// Numbers of forms, and the groups of these.
const GROUPS: &[(u8, Group)] = &[
    (0, Group::Inputs),
    (1, Group::Inputs),
    (2, Group::Outputs),
    (3, Group::Outputs),
    (4, Group::Others),
    (27, Group::Others),
];

#[test]
fn inputs_and_outputs_are_groups_of_their_own(rt: HostRuntime) -> Result<(), Fail> {
    for &(number, wanted) in GROUPS {
        let form = form(number)?;
        holds(&rt, Group::of(form) == wanted, form.name());
    }
    Ok(())
}

// What a text of whatever fields gives.
const TEXTS: &[(&str, &str)] = &[
    ("", "json"),
    ("{", "json"),
    ("{} {}", "json"),
    ("\u{feff}{}", "json"),
    ("{\"name\":\"\\ud800\"}", "json"),
    ("[]", "shape name"),
    ("{\"forms\":{}}", "shape name"),
    ("{\"name\":7}", "shape name"),
    ("{\"name\":\"a\"}", "shape width"),
    ("{\"name\":\"a\",\"width\":7}", "shape height"),
    ("{\"name\":\"a\",\"width\":7,\"height\":0}", "shape forms"),
    (
        "{\"name\":\"a\",\"width\":7,\"height\":0,\"forms\":[]}",
        "shape forms",
    ),
    (
        "{\"name\":\"a\",\"width\":7,\"height\":0,\"forms\":{}}",
        "size width",
    ),
    (
        "{\"name\":\"a\",\"width\":2,\"height\":0,\"forms\":{\"a\":0}}",
        "size height",
    ),
    (
        "{\"name\":\"a\",\"width\":2,\"height\":1,\"forms\":{}}",
        "accepted",
    ),
    // The last of equal keys stays, however they are spelt, and other keys mean nothing.
    (
        "{\"name\":1,\"name\":\"a\",\"width\":2,\"height\":1,\"forms\":{}}",
        "accepted",
    ),
    (
        "{\"name\":\"a\",\"width\":2,\"height\":1,\"forms\":{},\"\\u0077idth\":3}",
        "size width",
    ),
    (
        "{\"name\":\"a\",\"width\":2,\"height\":1,\"forms\":{},\"x\":[{}]}",
        "accepted",
    ),
    // Whole numbers are those that are written as such, and fit 32 bits.
    (
        "{\"name\":\"a\",\"width\":-0,\"height\":1,\"forms\":{}}",
        "shape width",
    ),
    (
        "{\"name\":\"a\",\"width\":8.0,\"height\":1,\"forms\":{}}",
        "shape width",
    ),
    (
        "{\"name\":\"a\",\"width\":8,\"height\":1e1,\"forms\":{}}",
        "shape height",
    ),
    (
        "{\"name\":\"a\",\"width\":4294967295,\"height\":1,\"forms\":{}}",
        "size width",
    ),
    (
        "{\"name\":\"a\",\"width\":4294967296,\"height\":1,\"forms\":{}}",
        "shape width",
    ),
    (
        "{\"name\":\"a\",\"width\":18446744073709551616,\"height\":1,\"forms\":{}}",
        "shape width",
    ),
];

#[test]
fn the_first_fault_of_a_text_is_told(rt: HostRuntime) -> Result<(), Fail> {
    for &(text, wanted) in TEXTS {
        is_told(&rt, rt.alloc(), text, wanted)?;
    }
    Ok(())
}

// What the sample library gives with this width, this height and these forms.
const FIELDS: &[(&str, &str, &str, &str)] = &[
    ("true", "6", "", "shape width"),
    ("258", "6", "", "size width"),
    ("7", "6", "", "size width"),
    ("256", "256", "", "accepted"),
    ("2", "257", "", "size height"),
    ("8", "6", "\"zz\":[],\"aa\":[]", "unknown form aa"),
    (
        "8",
        "6",
        "\"\u{e9}\":[],\"zz\":[],\"wire_ll\":[]",
        "unknown form zz",
    ),
    ("8", "6", "\"wire_ll\":[[0,6,0]]", "dot outside wire_ll 0"),
    (
        "8",
        "6",
        "\"wire_ll\":[[1,1,0],[1,1,0]]",
        "dot twice wire_ll 1",
    ),
    ("8", "6", "\"wire_ll\":[[1,1]]", "shape wire_ll"),
    ("8", "6", "\"wire_ll\":[[1,1,0,0]]", "shape wire_ll"),
    ("8", "6", "\"wire_ll\":[[1,1,0],1]", "shape wire_ll"),
    ("8", "6", "\"wire_ll\":[[1,-1,0]]", "shape wire_ll"),
    ("8", "6", "\"wire_ll\":[[1,1,4294967296]]", "shape wire_ll"),
    ("8", "6", "\"wire_ll\":{}", "shape wire_ll"),
    ("8", "6", "\"wire_ll\":[]", "no dots wire_ll"),
    (
        "8",
        "6",
        "\"wire_ll\":[[7,5,1],[8,0,0]]",
        "dot outside wire_ll 1",
    ),
    (
        "8",
        "6",
        "\"wire_ll\":[[7,5,1],[0,0,2],[9,9,9]]",
        "dot outside wire_ll 1",
    ),
    (
        "8",
        "6",
        "\"wire_ll\":[[0,0,0],[0,0,0],[0,0,4294967295]]",
        "dot outside wire_ll 2",
    ),
    (
        "8",
        "6",
        "\"wire_ll\":[[1,0,0],[0,0,0],[0,0,1],[0,0,0],[1,0,0]]",
        "dot twice wire_ll 3",
    ),
    // Forms are looked at in the order of their numbers, and each of them whole.
    (
        "8",
        "6",
        "\"cross\":[],\"wire_lr\":0,\"wire_rl\":[]",
        "shape wire_lr",
    ),
    (
        "8",
        "6",
        "\"wire_ll\":[[0,0,0]],\"wire_lr\":[[0,0,0]],\"cross\":[]",
        "no dots cross",
    ),
    // The same dots are the same set, and that of another group means nothing.
    (
        "8",
        "6",
        "\"wire_ll\":[[1,0,0],[0,0,1]],\"double\":[[0,0,1],[1,0,0]]",
        "same dots wire_ll double",
    ),
    (
        "8",
        "6",
        "\"wire_ll\":[[1,0,0],[0,0,1]],\"double\":[[0,0,1]]",
        "accepted",
    ),
    (
        "8",
        "6",
        "\"not_ll\":[[1,0,0]],\"cross\":[[2,0,0]],\"or_l\":[[2,0,0]],\"double\":[[1,0,0]]",
        "same dots not_ll double",
    ),
    (
        "8",
        "6",
        "\"not_ll\":[[1,0,0]],\"cross\":[[1,0,0]],\"or_l\":[[1,0,0]]",
        "same dots not_ll or_l",
    ),
    (
        "8",
        "6",
        "\"input_l\":[[1,0,0]],\"input_r\":[[1,0,0]]",
        "same dots input_l input_r",
    ),
    (
        "8",
        "6",
        "\"output_l\":[[1,0,0]],\"output_r\":[[1,0,0]]",
        "same dots output_l output_r",
    ),
    (
        "8",
        "6",
        "\"input_r\":[[1,0,0]],\"wire_ll\":[[1,0,0]],\"output_l\":[[1,0,0]]",
        "accepted",
    ),
    (
        "8",
        "6",
        "\"cross\":[[1,0,0]],\"cross\":[]",
        "no dots cross",
    ),
];

#[test]
fn the_first_fault_of_the_fields_is_told(rt: HostRuntime) -> Result<(), Fail> {
    for &(width, height, forms, wanted) in FIELDS {
        let text = text(rt.alloc(), width, height, forms)?;
        is_told(&rt, rt.alloc(), text.as_str(), wanted)?;
    }
    Ok(())
}

// What the sample library gives where one form has the dots of another, or none.
const CHANGES: &[(&str, &str, &str)] = &[
    ("cross", "cross", "accepted"),
    ("input_r", "wire_ll", "accepted"),
    ("double", "wire_ll", "same dots wire_ll double"),
    ("output_r", "output_l", "same dots output_l output_r"),
    ("wire_ll", "", "no dots wire_ll"),
];

#[test]
fn a_form_with_the_dots_of_another_is_told(rt: HostRuntime) -> Result<(), Fail> {
    for &(changed, other, wanted) in CHANGES {
        let forms = forms_text(rt.alloc(), changed, other)?;
        let text = text(rt.alloc(), "8", "6", forms.as_str())?;
        is_told(&rt, rt.alloc(), text.as_str(), wanted)?;
    }
    Ok(())
}

// Asserts what is said of a text.
fn is_told(rt: &impl Abort, alloc: Global, text: &str, wanted: &str) -> Result<(), NoMemory> {
    let told = outcome(alloc, text.as_bytes())?;
    is_text(rt, told.as_str(), wanted, text);
    Ok(())
}

// What is said of bytes.
fn outcome(alloc: Global, bytes: &[u8]) -> Result<String, NoMemory> {
    match read_library(alloc, bytes) {
        Ok(_) => words(alloc, "accepted", ""),
        Err(fault) => fault_text(alloc, &fault),
    }
}

fn fault_text(alloc: Global, fault: &LibraryFault) -> Result<String, NoMemory> {
    match fault {
        LibraryFault::NotJson => words(alloc, "json", ""),
        LibraryFault::Shape(field) => words(alloc, "shape ", field_word(*field)),
        LibraryFault::BadSize(field) => words(alloc, "size ", field_word(*field)),
        LibraryFault::UnknownForm(name) => words(alloc, "unknown form ", name_text(name)),
        LibraryFault::NoDots(form) => words(alloc, "no dots ", form.name()),
        LibraryFault::TooManyDots(form) => words(alloc, "many dots ", form.name()),
        LibraryFault::DotOutside(form, k) => numbered(alloc, "dot outside", *form, *k),
        LibraryFault::SameDot(form, k) => numbered(alloc, "dot twice", *form, *k),
        LibraryFault::SameDots(f, g) => both(alloc, *f, *g),
        LibraryFault::NoMemory => words(alloc, "no memory", ""),
    }
}

fn field_word(field: Field) -> &'static str {
    match field {
        Field::Name => "name",
        Field::Width => "width",
        Field::Height => "height",
        Field::Forms => "forms",
        Field::Of(form) => form.name(),
    }
}

fn name_text(name: &Name) -> &str {
    std::str::from_utf8(name.as_slice()).unwrap_or("that is no text")
}

fn words(alloc: Global, first: &str, second: &str) -> Result<String, NoMemory> {
    Ok(format!(in alloc; "{first}{second}")?)
}

fn numbered(alloc: Global, what: &str, form: Form, k: u32) -> Result<String, NoMemory> {
    let name = form.name();
    Ok(format!(in alloc; "{what} {name} {k}")?)
}

fn both(alloc: Global, first: Form, second: Form) -> Result<String, NoMemory> {
    let (first, second) = (first.name(), second.name());
    Ok(format!(in alloc; "same dots {first} {second}")?)
}

#[test]
fn the_sample_library_has_its_size(rt: HostRuntime) -> Result<(), Fail> {
    let library = sample(rt.alloc())?;
    is_number(&rt, u64::from(library.width()), 8, "width");
    is_number(&rt, u64::from(library.height()), 6, "height");
    Ok(())
}

#[test]
fn the_sample_library_is_as_its_rule_says(rt: HostRuntime) -> Result<(), Fail> {
    let library = sample(rt.alloc())?;
    for number in 0..FORMS {
        let form = form(number)?;
        let wanted = dots_of(rt.alloc(), form)?;
        holds(&rt, has_dots(&library, form, &wanted), form.name());
    }
    Ok(())
}

// Whether a library offers a form, with these dots.
fn has_dots(library: &Library, form: Form, dots: &[Dot]) -> bool {
    library.offers().has(form) && library.dots(form) == dots
}
