//! Whole runs with other libraries than the sample: which forms are used, and what is refused.

use crate::asserts::{are_bytes, holds, is_number};
use crate::library::{library_of, library_with};
use crate::runs::{WIRE, WIRE_REPORT, desk_of, ends_saying, has_file, run_with, writes_nothing};
use bx_engine::limits::LIBRARY_BYTES;
use bx_engine::{InputFault, Status, Which};
use std::test::Fail;

// Without `output_l` a wire takes a row more, and the ratio of two tiles is refuted by clauses.
const LONGER_REPORT: &str =
    "module m\nnodes 2 edges 1\nfound 1 3\ninput a 0 0\noutput y 0 2\nrow 0 input_r\nrow 1 wire_ll\nrow 2 output_r\n";

const LONGER_CERT: &str =
    "bestagon cert 1\nlimits 100 144 144 100000\ncount 1 1 late 0\nclauses 1 2 1\n46 0 11 1 5 2 13 29 18 45 0\ncount 2 1 late 0\nfound 1 3\nplace 0 0\nplace 0 2\nend\n";

#[test]
fn a_form_that_is_not_offered_is_not_used(rt: HostRuntime) -> Result<(), Fail> {
    let library = library_with(rt.alloc(), &[("output_l", "")])?;
    let mut desk = desk_of(rt.alloc(), WIRE.as_bytes(), library.as_str())?;
    let status = run_with(&rt, rt.alloc(), "", &mut desk)?;
    ends_saying(&rt, &status, &desk, 0, LONGER_REPORT);
    has_file(&rt, &desk, "out.cert", Some(LONGER_CERT));
    Ok(())
}

// Options, the exit status, what is said, and the certificate, without any form of an input.
const NO_INPUTS: &[(&str, u64, &str, &str)] = &[
    (
        "--area 2",
        3,
        "module m\nnodes 2 edges 1\nnone\n",
        "bestagon cert 1\nlimits 2 144 144 100000\ncount 1 1 late 0\nclauses 1 2 1\n49 0 11 1 13 29 18 46 0\ncount 2 1 late 0\nnone\nend\n",
    ),
    (
        "--area 2 --budget 6",
        3,
        "module m\nnodes 2 edges 1\nnone\n",
        "bestagon cert 1\nlimits 2 144 144 6\ncount 1 1 late 0\nclauses 1 2 1\n49 0 11 1 13 29 18 46 0\ncount 2 1 late 0\nnone\nend\n",
    ),
    (
        "--area 2 --budget 5",
        2,
        "module m\nnodes 2 edges 1\nundecided 1 2 0\n",
        "bestagon cert 1\nlimits 2 144 144 5\ncount 1 1 late 0\nundecided 1 2 0\nend\n",
    ),
];

// A design that was there stays where none is found, also where it may be written to.
#[test]
fn no_design_is_started_where_none_was_found(rt: HostRuntime) -> Result<(), Fail> {
    let library = library_with(rt.alloc(), &[("input_l", ""), ("input_r", "")])?;
    for &(options, code, said, cert) in NO_INPUTS {
        let mut desk = desk_of(rt.alloc(), WIRE.as_bytes(), library.as_str())?;
        desk.put("out.sqd", b"as it was")?;
        desk.make_room("out.sqd", 65_536)?;
        let status = run_with(&rt, rt.alloc(), options, &mut desk)?;
        ends_saying(&rt, &status, &desk, code, said);
        has_file(&rt, &desk, "out.sqd", Some("as it was"));
        has_file(&rt, &desk, "out.cert", Some(cert));
    }
    Ok(())
}

// Forms of different groups may have the same dots.
#[test]
fn an_input_may_look_like_a_wire(rt: HostRuntime) -> Result<(), Fail> {
    let wire = "[[1,1,0],[1,3,0],[2,3,0],[3,3,1],[4,3,0],[5,3,0]]";
    let library = library_with(rt.alloc(), &[("input_r", wire)])?;
    let mut desk = desk_of(rt.alloc(), WIRE.as_bytes(), library.as_str())?;
    let status = run_with(&rt, rt.alloc(), "", &mut desk)?;
    ends_saying(&rt, &status, &desk, 0, WIRE_REPORT);
    Ok(())
}

// A form, the list of its dots, and what is said of a library that has it.
const FORMS: &[(&str, &str, &str)] = &[
    (
        "double",
        "[[1,1,0],[1,3,0],[2,3,0],[3,3,1],[4,3,0],[5,3,0]]",
        "refused same dots wire_ll double\n",
    ),
    ("wire_ll", "[]", "refused no dots wire_ll\n"),
    ("wire_ll", "[[0,6,0]]", "refused dot outside wire_ll 0\n"),
    (
        "wire_ll",
        "[[1,1,0],[1,1,0]]",
        "refused dot twice wire_ll 1\n",
    ),
    ("wire_ll", "[[1,1]]", "refused shape wire_ll\n"),
];

// The size of a tile, and what is said of a library that has it.
const SIZES: &[(&str, &str, &str)] = &[
    ("7", "6", "refused size width\n"),
    ("258", "6", "refused size width\n"),
    ("8", "0", "refused size height\n"),
    ("true", "6", "refused shape width\n"),
    ("8", "6.5", "refused shape height\n"),
];

// Texts that are no libraries, and what is said of them.
const OTHERS: &[(&str, &str)] = &[
    ("{", "refused json\n"),
    ("", "refused json\n"),
    ("[]", "refused shape name\n"),
    (
        "{\"name\":\"n\",\"width\":8,\"height\":6}",
        "refused shape forms\n",
    ),
    (
        "{\"name\":\"n\",\"width\":8,\"height\":6,\"forms\":{\"zz\":[],\"aa\":[]}}",
        "refused unknown form aa\n",
    ),
];

#[test]
fn a_form_of_a_library_is_refused(rt: HostRuntime) -> Result<(), Fail> {
    for &(form, dots, said) in FORMS {
        let library = library_with(rt.alloc(), &[(form, dots)])?;
        let mut desk = desk_of(rt.alloc(), WIRE.as_bytes(), library.as_str())?;
        let status = run_with(&rt, rt.alloc(), "", &mut desk)?;
        ends_saying(&rt, &status, &desk, 1, said);
        writes_nothing(&rt, &desk);
    }
    Ok(())
}

#[test]
fn a_size_of_a_library_is_refused(rt: HostRuntime) -> Result<(), Fail> {
    for &(width, height, said) in SIZES {
        let library = library_of(rt.alloc(), width, height, &[])?;
        let mut desk = desk_of(rt.alloc(), WIRE.as_bytes(), library.as_str())?;
        let status = run_with(&rt, rt.alloc(), "", &mut desk)?;
        ends_saying(&rt, &status, &desk, 1, said);
        writes_nothing(&rt, &desk);
    }
    Ok(())
}

#[test]
fn other_texts_are_no_libraries(rt: HostRuntime) -> Result<(), Fail> {
    for &(library, said) in OTHERS {
        let mut desk = desk_of(rt.alloc(), WIRE.as_bytes(), library)?;
        let status = run_with(&rt, rt.alloc(), "", &mut desk)?;
        ends_saying(&rt, &status, &desk, 1, said);
        writes_nothing(&rt, &desk);
    }
    Ok(())
}

#[test]
fn a_library_that_is_too_long_is_refused(rt: HostRuntime) -> Result<(), Fail> {
    let spaces = vec![in rt.alloc(); b' '; LIBRARY_BYTES as usize + 1]?;
    let mut desk = desk_of(rt.alloc(), WIRE.as_bytes(), "")?;
    desk.put("lib.json", &spaces)?;
    let status = run_with(&rt, rt.alloc(), "", &mut desk)?;
    let is_long = matches!(status, Status::Refused(InputFault::TooLong(Which::LibFile)));
    holds(&rt, is_long, "a longer library");
    are_bytes(&rt, desk.said(), b"refused long lib\n", "said");
    Ok(())
}

// A byte less, and it is read.
#[test]
fn the_longest_library_is_read(rt: HostRuntime) -> Result<(), Fail> {
    let spaces = vec![in rt.alloc(); b' '; LIBRARY_BYTES as usize]?;
    let mut desk = desk_of(rt.alloc(), WIRE.as_bytes(), "")?;
    desk.put("lib.json", &spaces)?;
    let status = run_with(&rt, rt.alloc(), "", &mut desk)?;
    is_number(&rt, u64::from(status.code()), 1, "status");
    are_bytes(&rt, desk.said(), b"refused json\n", "said");
    Ok(())
}
