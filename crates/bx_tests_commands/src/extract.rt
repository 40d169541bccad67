//! `extract`: what the dots of a design are cut into, and what is wrong with designs.

use crate::designs::{
    Dot, INPUT_DOTS, INVERTER_DOTS, LEADS_OFF_DOTS, LONG_DOTS, WIRE_DOTS, design_text, rewritten,
};
use crate::runs::{EXTRACT, desk_with_design, ends_saying, run_words};
use std::test::Fail;

// How many rows a design has, its dots, and what is said of it.
const TAKEN: &[(u32, &[Dot], &str)] = &[
    (
        2,
        WIRE_DOTS,
        "ratio 1 2\nrow 0 input_r\nrow 1 output_l\nsound yes\n",
    ),
    (
        3,
        INVERTER_DOTS,
        "ratio 1 3\nrow 0 input_r\nrow 1 not_ll\nrow 2 output_r\nsound yes\n",
    ),
    (
        3,
        LONG_DOTS,
        "ratio 1 3\nrow 0 input_r\nrow 1 wire_ll\nrow 2 output_r\nsound yes\n",
    ),
    (
        3,
        LEADS_OFF_DOTS,
        "ratio 1 3\nrow 0 input_r\nrow 1 not_lr\nrow 2 output_r\nsound no\n",
    ),
    // The first row is the last one: there is no row below for the input's signal.
    (1, INPUT_DOTS, "ratio 1 1\nrow 0 input_r\nsound no\n"),
    (1, &[], "ratio 1 1\nrow 0 empty\nsound yes\n"),
    (
        3,
        INPUT_DOTS,
        "ratio 1 3\nrow 0 input_r\nrow 1 empty\nrow 2 empty\nsound no\n",
    ),
];

#[test]
fn designs_are_cut(rt: HostRuntime) -> Result<(), Fail> {
    for &(rows, dots, said) in TAKEN {
        let text = design_text(rt.alloc(), rows, dots)?;
        let mut desk = desk_with_design(rt.alloc(), text.as_str())?;
        let status = run_words(&rt, rt.alloc(), EXTRACT, &mut desk)?;
        ends_saying(&rt, &status, &desk, 0, said);
    }
    Ok(())
}

// In the inverter's design: which line is replaced first, how many are, what stands there then, and what is said.
const REFUSED: &[(usize, usize, &[&str], &str)] = &[
    (11, 1, &[], "refused strange 0 0\n"),
    (
        17,
        0,
        &["<dbdot><latcoord n=\"0\" m=\"7\" l=\"0\"/></dbdot>"],
        "refused stray 0 7 0\n",
    ),
    (
        11,
        2,
        &[
            "<dbdot><latcoord n=\"2\" m=\"3\" l=\"0\"/></dbdot>",
            "<dbdot><latcoord n=\"1\" m=\"1\" l=\"0\"/></dbdot>",
        ],
        "refused bad design 13\n",
    ),
    (0, 1000, &[], "refused bad design 1\n"),
    (
        4,
        1,
        &["<created_by>bestagon 1 145</created_by>"],
        "refused bad design 5\n",
    ),
    (
        4,
        1,
        &["<created_by>bestagon 1 2</created_by>"],
        "refused stray 1 13 0\n",
    ),
    (32, 0, &[""], "refused bad design 33\n"),
];

#[test]
fn designs_are_refused(rt: HostRuntime) -> Result<(), Fail> {
    let whole = design_text(rt.alloc(), 3, INVERTER_DOTS)?;
    for &(first, replaced, lines, said) in REFUSED {
        let text = rewritten(rt.alloc(), whole.as_str(), first, replaced, lines)?;
        let mut desk = desk_with_design(rt.alloc(), text.as_str())?;
        let status = run_words(&rt, rt.alloc(), EXTRACT, &mut desk)?;
        ends_saying(&rt, &status, &desk, 1, said);
    }
    Ok(())
}

// Of the first lines of a design the line behind them is missing.
#[test]
fn a_design_that_ends_early_is_refused(rt: HostRuntime) -> Result<(), Fail> {
    let whole = design_text(rt.alloc(), 3, INVERTER_DOTS)?;
    for lines in 0..32_usize {
        let text = rewritten(rt.alloc(), whole.as_str(), lines, 1000, &[])?;
        let mut desk = desk_with_design(rt.alloc(), text.as_str())?;
        let status = run_words(&rt, rt.alloc(), EXTRACT, &mut desk)?;
        let said = format!(in rt.alloc(); "refused bad design {}\n", lines + 1)?;
        ends_saying(&rt, &status, &desk, 1, said.as_str());
    }
    Ok(())
}

// The library's fault is told before the design's, and a library is no design.
#[test]
fn the_library_is_read_first(rt: HostRuntime) -> Result<(), Fail> {
    let mut desk = desk_with_design(rt.alloc(), "{")?;
    let status = run_words(&rt, rt.alloc(), "extract out.sqd out.sqd", &mut desk)?;
    ends_saying(&rt, &status, &desk, 1, "refused json\n");
    let mut desk = desk_with_design(rt.alloc(), "{")?;
    let status = run_words(&rt, rt.alloc(), "extract lib.json lib.json", &mut desk)?;
    ends_saying(&rt, &status, &desk, 1, "refused bad design 1\n");
    Ok(())
}
