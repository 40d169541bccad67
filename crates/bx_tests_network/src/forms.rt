//! Names, numbers, sides and functions of forms, as a person would write them down.

use crate::asserts::{is_bool, is_bool_in_row, is_number, is_number_in_row, is_text};
use bx_forms::{Form, FormSet, Kind, Sides};
use std::process::Abort;
use std::test::Fail;

// ---- Names and numbers

const NAMES: &[&str] = &[
    "input_l", "input_r", "output_l", "output_r", "wire_ll", "wire_lr", "wire_rl", "wire_rr",
    "not_ll", "not_lr", "not_rl", "not_rr", "fan_l", "fan_r", "and_l", "and_r", "or_l", "or_r",
    "nand_l", "nand_r", "nor_l", "nor_r", "xor_l", "xor_r", "xnor_l", "xnor_r", "double", "cross",
];

#[test]
fn a_form_is_known_by_its_name(rt: HostRuntime) -> Result<(), Fail> {
    for (row, &name) in NAMES.iter().enumerate() {
        let form = named(name)?;
        is_number_in_row(&rt, row, form.number().into(), row as u64);
        is_text(&rt, form.name(), name);
    }
    Ok(())
}

#[test]
fn a_form_is_known_by_its_number(rt: HostRuntime) -> Result<(), Fail> {
    for &name in NAMES {
        let form = named(name)?;
        is_text(&rt, name_of(Form::from_number(form.number())), name);
    }
    Ok(())
}

#[test]
fn there_are_no_more_forms(rt: HostRuntime) {
    is_number(&rt, NAMES.len() as u64, 28);
    is_bool(&rt, Form::from_number(28).is_none(), true);
}

const OTHER_NAMES: &[&str] = &["", "empty", "wire", "wire_", "and_ll", "Cross"];

#[test]
fn no_form_has_another_name(rt: HostRuntime) {
    for (row, &name) in OTHER_NAMES.iter().enumerate() {
        is_bool_in_row(&rt, row, Form::by_name(name).is_none(), true);
    }
}

fn named(name: &str) -> Result<Form, Fail> {
    Ok(Form::by_name(name).ok_or("no form has this name")?)
}

fn name_of(form: Option<Form>) -> &'static str {
    match form {
        Some(form) => form.name(),
        None => "none",
    }
}

// ---- Functions

// What goes out on the lower left and right for false and false, false and true, true and false, true and
// true on the upper left and right.
const FUNCTIONS: &[(&str, &[(bool, bool)])] = &[
    (
        "output_r",
        &[
            (false, false),
            (false, false),
            (false, false),
            (false, false),
        ],
    ),
    (
        "wire_rl",
        &[(false, false), (true, false), (false, false), (true, false)],
    ),
    (
        "not_lr",
        &[(false, true), (false, true), (false, false), (false, false)],
    ),
    (
        "fan_l",
        &[(false, false), (false, false), (true, true), (true, true)],
    ),
    (
        "nand_l",
        &[(true, false), (true, false), (true, false), (false, false)],
    ),
    (
        "xnor_r",
        &[(false, true), (false, false), (false, false), (false, true)],
    ),
    (
        "double",
        &[(false, false), (false, true), (true, false), (true, true)],
    ),
    (
        "cross",
        &[(false, false), (true, false), (false, true), (true, true)],
    ),
];

const INPUTS: &[(bool, bool)] = &[(false, false), (false, true), (true, false), (true, true)];

#[test]
fn forms_have_their_functions(rt: HostRuntime) -> Result<(), Fail> {
    for &(name, wanted) in FUNCTIONS {
        is_number(&rt, wanted.len() as u64, 4);
        has_function(&rt, named(name)?, wanted)?;
    }
    Ok(())
}

fn has_function(rt: &impl Abort, form: Form, wanted: &[(bool, bool)]) -> Result<(), Fail> {
    if form.node() == Some(Kind::Input) {
        return Err("no input form has a function".into());
    }
    for (row, (&(left, right), &sent)) in INPUTS.iter().zip(wanted).enumerate() {
        let found = form.apply(left, right);
        is_bool_in_row(rt, row, found.0, sent.0);
        is_bool_in_row(rt, row, found.1, sent.1);
    }
    Ok(())
}

// ---- The form of a node

const LEFT: Sides = Sides {
    left: true,
    right: false,
};

const BOTH: Sides = Sides {
    left: true,
    right: true,
};

// A kind, upper sides, and the slots that leave on the left and the right; and the form.
type Node = (Kind, Sides, Option<u8>, Option<u8>);

const NODES: &[(Node, &str)] = &[
    ((Kind::Fan, LEFT, Some(1), Some(0)), "fan_l"),
    ((Kind::Fan, BOTH, Some(0), Some(1)), "none"),
    ((Kind::Xor, BOTH, None, Some(0)), "xor_r"),
];

#[test]
fn the_form_of_a_node_uses_its_sides(rt: HostRuntime) {
    for &((kind, upper, left, right), name) in NODES {
        is_text(&rt, name_of(Form::of_node(kind, upper, left, right)), name);
    }
}

#[test]
fn a_fan_leaves_on_both_sides(rt: HostRuntime) -> Result<(), Fail> {
    let fan = Form::of_node(Kind::Fan, LEFT, Some(1), Some(0)).ok_or("a fan")?;
    is_bool(&rt, fan.node() == Some(Kind::Fan), true);
    is_bool(&rt, fan.upper() == LEFT && fan.lower() == BOTH, true);
    Ok(())
}

#[test]
fn a_gate_has_two_operands_and_one_slot(rt: HostRuntime) {
    is_number(&rt, Kind::Xor.operands().into(), 2);
    is_number(&rt, Kind::Xor.slots().into(), 1);
}

// ---- Sets

// What is in the set of `cross` and `input_l`.
const MEMBERS: &[(&str, bool)] = &[
    ("input_l", true),
    ("input_r", false),
    ("wire_ll", false),
    ("double", false),
    ("cross", true),
];

#[test]
fn a_set_has_what_was_put_into_it(rt: HostRuntime) -> Result<(), Fail> {
    let set = FormSet::none()
        .with(named("cross")?)
        .with(named("input_l")?);
    for (row, &(name, wanted)) in MEMBERS.iter().enumerate() {
        is_bool_in_row(&rt, row, set.has(named(name)?), wanted);
    }
    Ok(())
}
