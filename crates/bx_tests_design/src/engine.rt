//! Whole runs on a desk in memory: what is said and written, with which status, and what comes of each call of the
//! desk that fails.

use crate::asserts::{are_bytes, holds, is_number, is_text};
use crate::runs::{
    DESIGN, HALF_ADDER, INVERTER, WIRE, WIRE_CERT, WIRE_REPORT, blamed, desk_of, desk_with,
    ends_saying, has_file, run_with, run_words, writes_nothing,
};
use bx_desk::MemDesk;
use bx_engine::limits::MODULE_BYTES;
use bx_engine::{InputFault, Status, Which};
use bx_logic::NoMemory;
use std::alloc::Global;
use std::process::Abort;
use std::test::Fail;
use std::thread::Threads;

// The design of that: the six dots of `input_r`, and those of `output_l` in the row below, half a tile further right.
const WIRE_DESIGN: &str =
    "<?xml version=\"1.0\" encoding=\"UTF-8\"?>\n<siqad>\n<program>\n<file_purpose>save</file_purpose>\n<created_by>bestagon 1 2</created_by>\n</program>\n<layers>\n<layer_prop><name>Surface</name><type>DB</type></layer_prop>\n</layers>\n<design>\n<layer type=\"DB\">\n<dbdot><latcoord n=\"1\" m=\"1\" l=\"0\"/></dbdot>\n<dbdot><latcoord n=\"2\" m=\"3\" l=\"0\"/></dbdot>\n<dbdot><latcoord n=\"3\" m=\"3\" l=\"0\"/></dbdot>\n<dbdot><latcoord n=\"4\" m=\"3\" l=\"0\"/></dbdot>\n<dbdot><latcoord n=\"5\" m=\"3\" l=\"0\"/></dbdot>\n<dbdot><latcoord n=\"1\" m=\"3\" l=\"1\"/></dbdot>\n<dbdot><latcoord n=\"5\" m=\"7\" l=\"0\"/></dbdot>\n<dbdot><latcoord n=\"5\" m=\"9\" l=\"0\"/></dbdot>\n<dbdot><latcoord n=\"7\" m=\"9\" l=\"0\"/></dbdot>\n<dbdot><latcoord n=\"8\" m=\"9\" l=\"0\"/></dbdot>\n<dbdot><latcoord n=\"9\" m=\"9\" l=\"0\"/></dbdot>\n<dbdot><latcoord n=\"6\" m=\"9\" l=\"1\"/></dbdot>\n</layer>\n</design>\n</siqad>\n";

const INVERTER_REPORT: &str =
    "module m\nnodes 3 edges 2\nfound 1 3\ninput a 0 0\noutput y 0 2\nrow 0 input_r\nrow 1 not_ll\nrow 2 output_r\n";

// A module, further words, the exit status, the report and the certificate.
const ANSWERS: &[(&str, &str, u64, &str, &str)] = &[
    (WIRE, "", 0, WIRE_REPORT, WIRE_CERT),
    (
        WIRE,
        "--budget 0",
        0,
        WIRE_REPORT,
        "bestagon cert 1\nlimits 100 144 144 0\ncount 1 1 late 0\nfound 1 2\nplace 0 0\nplace 0 1\nend\n",
    ),
    (
        WIRE,
        "--area 144",
        0,
        WIRE_REPORT,
        "bestagon cert 1\nlimits 144 144 144 50000\ncount 1 1 late 0\nfound 1 2\nplace 0 0\nplace 0 1\nend\n",
    ),
    (
        WIRE,
        "--area 2 --budget 22369621",
        0,
        WIRE_REPORT,
        "bestagon cert 1\nlimits 2 144 144 22369621\ncount 1 1 late 0\nfound 1 2\nplace 0 0\nplace 0 1\nend\n",
    ),
    (
        WIRE,
        "--area 1",
        3,
        "module m\nnodes 2 edges 1\nnone\n",
        "bestagon cert 1\nlimits 1 144 144 100000\ncount 1 1 late 0\nnone\nend\n",
    ),
    (
        INVERTER,
        "",
        0,
        INVERTER_REPORT,
        "bestagon cert 1\nlimits 100 144 144 100000\ncount 1 1 late 0\ncount 1 2 late 0\ncount 2 1 late 0\nfound 1 3\nplace 0 0\nplace 0 1\nplace 0 2\nend\n",
    ),
];

#[test]
fn each_module_has_its_report_and_certificate(rt: HostRuntime) -> Result<(), Fail> {
    for &(text, options, code, said, cert) in ANSWERS {
        let mut desk = desk_with(rt.alloc(), text.as_bytes())?;
        let status = run_with(&rt, rt.alloc(), options, &mut desk)?;
        ends_saying(&rt, &status, &desk, code, said);
        has_file(&rt, &desk, "out.cert", Some(cert));
        has_file(&rt, &desk, "net.v", Some(text));
        holds(&rt, desk.file("out.sqd").is_some() == (code == 0), said);
    }
    Ok(())
}

#[test]
fn a_wire_has_this_design(rt: HostRuntime) -> Result<(), Fail> {
    let mut desk = desk_with(rt.alloc(), WIRE.as_bytes())?;
    let status = run_with(&rt, rt.alloc(), "", &mut desk)?;
    ends_saying(&rt, &status, &desk, 0, WIRE_REPORT);
    has_file(&rt, &desk, "out.sqd", Some(WIRE_DESIGN));
    Ok(())
}

// A module of one input, and its report.
const CHAINS: &[(&str, &str)] = &[
    (
        "module m(a, y); input a; output y; buf (t, a); not (y, t); endmodule",
        INVERTER_REPORT,
    ),
    (
        "module m(a, y); input a; output y; not (t, a); not (y, t); endmodule",
        "module m\nnodes 4 edges 3\nfound 1 4\ninput a 0 0\noutput y 0 3\nrow 0 input_r\nrow 1 not_ll\nrow 2 not_rr\nrow 3 output_l\n",
    ),
    (
        "module a(a, y); input a; output y; buf (y, a); endmodule",
        "module a\nnodes 2 edges 1\nfound 1 2\ninput a 0 0\noutput y 0 1\nrow 0 input_r\nrow 1 output_l\n",
    ),
    (
        "module m(a, y);\ninput a;\noutput y;\nassign y = a;\nendmodule",
        WIRE_REPORT,
    ),
    (
        "module m(input a, output y); wire t = ~a; // twice\nassign y = ~t; endmodule",
        "module m\nnodes 4 edges 3\nfound 1 4\ninput a 0 0\noutput y 0 3\nrow 0 input_r\nrow 1 not_ll\nrow 2 not_rr\nrow 3 output_l\n",
    ),
    (
        "module m(a, y); input a; output y; assign y = a ^ 1'b1; endmodule",
        INVERTER_REPORT,
    ),
    (
        "module m(a, y); input a; output y; assign y = a & 1'h1; endmodule",
        WIRE_REPORT,
    ),
    (
        "module m(a, b, y); input a, b; output y; buf (y, a); endmodule",
        "module m\nnodes 2 edges 1\nunused b\nfound 1 2\ninput a 0 0\noutput y 0 1\nrow 0 input_r\nrow 1 output_l\n",
    ),
    (
        "module m(a, b, c, y); input a, b, c; output y; nor (y, b); endmodule",
        "module m\nnodes 3 edges 2\nunused a\nunused c\nfound 1 3\ninput b 0 0\noutput y 0 2\nrow 0 input_r\nrow 1 not_ll\nrow 2 output_r\n",
    ),
];

#[test]
fn a_chain_stands_in_one_column(rt: HostRuntime) -> Result<(), Fail> {
    for &(text, said) in CHAINS {
        let mut desk = desk_with(rt.alloc(), text.as_bytes())?;
        let status = run_with(&rt, rt.alloc(), "", &mut desk)?;
        ends_saying(&rt, &status, &desk, 0, said);
    }
    Ok(())
}

const AND: &str = "module m(a, b, y); input a, b; output y; and (y, a, b); endmodule";

const TOP: &str =
    "// Benchmark \"top\"\nmodule top ( \\a[0] , b, c, y );\n  input  \\a[0] , b, c;\n  output y;\n  wire n1;\n  assign n1 = \\a[0]  & ~b;\n  assign y = ~n1;\nendmodule\n";

// A module, further words, the exit status, how the report begins, how many sections of the certificate are counts
// and how many clauses, and some of its lines.
const GATES: &[(&str, &str, u64, &str, u64, u64, &[&str])] = &[
    (
        AND,
        "",
        0,
        "module m\nnodes 4 edges 3\nfound 2 3\n",
        11,
        0,
        &["count 1 3 crowd 0 0", "found 2 3", "place 0 1"],
    ),
    (
        HALF_ADDER,
        "--area 15 --budget 1000000",
        0,
        "module ha\nnodes 8 edges 8\nfound 3 5\n",
        41,
        1,
        &["count 2 7 pair 1 3", "clauses 3 4 ", "found 3 5"],
    ),
    (
        HALF_ADDER,
        "--area 15 --budget 0",
        2,
        "module ha\nnodes 8 edges 8\nundecided 3 4 0\n",
        31,
        0,
        &["limits 15 144 144 0", "count 2 4 cut 1", "undecided 3 4 0"],
    ),
    (
        TOP,
        "",
        0,
        "module top\nnodes 6 edges 5\nunused c\nfound 2 5\n",
        24,
        0,
        &["limits 100 144 144 100000", "found 2 5", "end"],
    ),
];

#[test]
fn gates_are_laid_out(rt: HostRuntime) -> Result<(), Fail> {
    for &(text, options, code, said, counts, clauses, lines) in GATES {
        let mut desk = desk_with(rt.alloc(), text.as_bytes())?;
        let status = run_with(&rt, rt.alloc(), options, &mut desk)?;
        begins_saying(&rt, &status, &desk, code, said);
        let cert = desk.file("out.cert").ok_or("no certificate")?;
        has_sections(&rt, cert, counts, clauses, text);
        has_lines(&rt, cert, lines);
    }
    Ok(())
}

// Asserts with which exit status a run ended, and how it began what it said.
fn begins_saying(rt: &impl Abort, status: &Status, desk: &MemDesk, code: u64, said: &str) {
    is_number(rt, u64::from(status.code()), code, said);
    holds(rt, desk.said().starts_with(said.as_bytes()), said);
}

// Asserts how many sections of a certificate are counts, and how many are clauses.
fn has_sections(rt: &impl Abort, cert: &[u8], counts: u64, clauses: u64, about: &str) {
    is_number(rt, lines_with(cert, "count "), counts, about);
    is_number(rt, lines_with(cert, "clauses "), clauses, about);
}

// Asserts that each of these begins one line of a certificate.
fn has_lines(rt: &impl Abort, cert: &[u8], fronts: &[&str]) {
    for &front in fronts {
        is_number(rt, lines_with(cert, front), 1, front);
    }
}

// How many lines begin so.
fn lines_with(text: &[u8], front: &str) -> u64 {
    let lines = text.split(|byte| *byte == b'\n');
    lines
        .filter(|line| line.starts_with(front.as_bytes()))
        .count() as u64
}

// Words, and what is said of them.
const MISUSED: &[(&str, &str)] = &[
    ("", "refused words command\n"),
    (
        "draw net.v lib.json out.sqd out.cert",
        "refused words command\n",
    ),
    (
        "net.v lib.json out.sqd out.cert design",
        "refused words command\n",
    ),
    ("design net.v", "refused words usage\n"),
    ("design net.v out.cert", "refused words usage\n"),
    ("design net.v lib.json out.cert", "refused words usage\n"),
    (
        "design net.v lib.json out.sqd out.cert --help",
        "refused words usage\n",
    ),
    (
        "design net.v lib.json net.v out.cert",
        "refused words same\n",
    ),
    (
        "design net.v lib.json out.sqd net.v",
        "refused words same\n",
    ),
    (
        "design net.v lib.json lib.json out.cert",
        "refused words same\n",
    ),
    (
        "design net.v lib.json out.sqd lib.json",
        "refused words same\n",
    ),
    ("design net.v lib.json a a", "refused words same\n"),
    (
        "design net.v lib.json out.sqd out.cert --workers 17",
        "refused words range workers\n",
    ),
    (
        "design net.v lib.json out.sqd out.cert --workers 0",
        "refused words range workers\n",
    ),
    (
        "design net.v lib.json out.sqd out.cert --workers x",
        "refused words number workers\n",
    ),
    (
        "design net.v lib.json out.sqd out.cert --area x",
        "refused words number area\n",
    ),
    (
        "design net.v lib.json out.sqd out.cert --width 0",
        "refused words range width\n",
    ),
    (
        "design net.v lib.json out.sqd out.cert --area 2 --budget 22369622",
        "refused words work 67108866\n",
    ),
    (
        "design net.v lib.json out.sqd out.cert --area 144 --budget 100000",
        "refused words work 74600000\n",
    ),
];

#[test]
fn words_that_are_misused(rt: HostRuntime) -> Result<(), Fail> {
    for &(line, said) in MISUSED {
        let mut desk = desk_with(rt.alloc(), WIRE.as_bytes())?;
        let status = run_words(&rt, rt.alloc(), line, &mut desk)?;
        holds(&rt, matches!(status, Status::Words(_)), line);
        writes_nothing(&rt, &desk);
        ends_saying(&rt, &status, &desk, 6, said);
    }
    Ok(())
}

// Texts that are refused, each with its line.
const REFUSED: &[(&str, &str)] = &[
    ("", "refused syntax 0\n"),
    ("/*", "refused lex comment 0\n"),
    ("module m(*", "refused lex attribute 8\n"),
    ("module m(a, y);\0", "refused lex byte 15\n"),
    ("module m(a y);", "refused syntax 11\n"),
    (
        "module m(input [1:0] a, output y);",
        "refused not taken 15 vector\n",
    ),
    (
        "module m(y); output y; xyz (y); endmodule",
        "refused not taken 23 instance\n",
    ),
    (
        "module m(a, y); input a; output y; input z; buf (y, a); endmodule",
        "refused port z\n",
    ),
    ("module m(a); input a; endmodule", "refused no output\n"),
    (
        "module m(a, y); input a; output y; buf (y, a); not (y, a); endmodule",
        "refused drivers y\n",
    ),
    (
        "module m(a, \\y[0] ); input a; output \\y[0] ; endmodule",
        "refused no driver y[0]\n",
    ),
    (
        "module m(a, y); input a; output y; not (n, n); buf (y, a); endmodule",
        "refused cycle n\n",
    ),
    (
        "module m(a, y); input a; output y; assign y = a & 1'b0; endmodule",
        "refused constant y\n",
    ),
    (
        "module m(a, x, \\y[0] , z); input a; output x, \\y[0] , z; assign x = a; or (\\y[0] , a, 1'b1); buf (z, 1'b0); endmodule",
        "refused constant y[0]\n",
    ),
];

#[test]
fn a_refusal_says_what_is_wrong(rt: HostRuntime) -> Result<(), Fail> {
    for &(text, said) in REFUSED {
        let mut desk = desk_with(rt.alloc(), text.as_bytes())?;
        let status = run_with(&rt, rt.alloc(), "", &mut desk)?;
        ends_saying(&rt, &status, &desk, 1, said);
        writes_nothing(&rt, &desk);
    }
    Ok(())
}

// A call that fails, how much it keeps, what is told of it, design and certificate, and what is said.
const FAILING: &[(u64, u64, &str, Option<&str>, Option<&str>, &str)] = &[
    (1, 0, "net", None, None, ""),
    (1, 1, "net", None, None, ""),
    (1, 4096, "net", None, None, ""),
    (2, 0, "lib", None, None, ""),
    (2, 1, "lib", None, None, ""),
    (2, 4096, "lib", None, None, ""),
    (3, 0, "design", None, None, ""),
    (3, 1, "design", None, None, ""),
    (3, 4096, "design", None, None, ""),
    (4, 0, "design", Some(""), None, ""),
    (4, 1, "design", Some("<"), None, ""),
    (4, 4096, "design", Some(WIRE_DESIGN), None, ""),
    (5, 0, "cert", Some(WIRE_DESIGN), None, ""),
    (5, 1, "cert", Some(WIRE_DESIGN), None, ""),
    (5, 4096, "cert", Some(WIRE_DESIGN), None, ""),
    (6, 0, "cert", Some(WIRE_DESIGN), Some(""), ""),
    (6, 1, "cert", Some(WIRE_DESIGN), Some("b"), ""),
    (
        6,
        20,
        "cert",
        Some(WIRE_DESIGN),
        Some("bestagon cert 1\nlimi"),
        "",
    ),
    (6, 4096, "cert", Some(WIRE_DESIGN), Some(WIRE_CERT), ""),
    (7, 0, "output", Some(WIRE_DESIGN), Some(WIRE_CERT), ""),
    (7, 1, "output", Some(WIRE_DESIGN), Some(WIRE_CERT), "m"),
    (
        7,
        4096,
        "output",
        Some(WIRE_DESIGN),
        Some(WIRE_CERT),
        WIRE_REPORT,
    ),
];

// The calls are two loads, start and append for each of two files, and one say.
#[test]
fn a_call_that_fails_is_told(rt: HostRuntime) -> Result<(), Fail> {
    for &(call, kept, which, design, cert, said) in FAILING {
        let mut desk = desk_with(rt.alloc(), WIRE.as_bytes())?;
        desk.fail_at(call, kept)?;
        let status = run_with(&rt, rt.alloc(), "", &mut desk)?;
        is_text(&rt, blamed(&status), which, "what failed");
        ends_saying(&rt, &status, &desk, 4, said);
        has_file(&rt, &desk, "out.sqd", design);
        has_file(&rt, &desk, "out.cert", cert);
    }
    Ok(())
}

// No call stands behind these.
#[test]
fn no_other_call_is_made(rt: HostRuntime) -> Result<(), Fail> {
    let mut desk = desk_with(rt.alloc(), WIRE.as_bytes())?;
    desk.fail_at(8, 0)?;
    let status = run_with(&rt, rt.alloc(), "", &mut desk)?;
    ends_saying(&rt, &status, &desk, 0, WIRE_REPORT);
    Ok(())
}

// Words and a module that are refused, a call that fails, how much it keeps, what is told of it, and what is said.
const FAILING_REFUSED: &[(&str, &str, u64, u64, &str, &str)] = &[
    (DESIGN, "", 1, 0, "net", ""),
    (DESIGN, "", 2, 0, "output", ""),
    (DESIGN, "", 2, 7, "output", "refused"),
    (DESIGN, "", 2, 4096, "output", "refused syntax 0\n"),
    (DESIGN, "", 3, 0, "none", "refused syntax 0\n"),
    ("design net.v", WIRE, 1, 0, "output", ""),
    ("design net.v", WIRE, 1, 13, "output", "refused words"),
    (
        "design net.v",
        WIRE,
        1,
        4096,
        "output",
        "refused words usage\n",
    ),
    ("design net.v", WIRE, 2, 0, "none", "refused words usage\n"),
];

// The calls for a module that is refused are one load and say, and for words that are refused one say: no call stands
// before these, and none behind them.
#[test]
fn a_refusal_that_fails_is_told(rt: HostRuntime) -> Result<(), Fail> {
    for &(line, text, call, kept, which, said) in FAILING_REFUSED {
        let mut desk = desk_with(rt.alloc(), text.as_bytes())?;
        desk.fail_at(call, kept)?;
        let status = run_words(&rt, rt.alloc(), line, &mut desk)?;
        is_text(&rt, blamed(&status), which, said);
        are_bytes(&rt, desk.said(), said.as_bytes(), said);
    }
    Ok(())
}

#[test]
fn files_without_a_place(rt: HostRuntime) -> Result<(), Fail> {
    let mut desk = desk_with(rt.alloc(), WIRE.as_bytes())?;
    let line = "design net.v lib.json out.sqd other.cert";
    let status = run_words(&rt, rt.alloc(), line, &mut desk)?;
    is_text(&rt, blamed(&status), "cert", "no place for the certificate");
    ends_saying(&rt, &status, &desk, 4, "");
    has_file(&rt, &desk, "out.sqd", Some(WIRE_DESIGN));
    has_file(&rt, &desk, "other.cert", None);
    let mut desk = desk_with(rt.alloc(), WIRE.as_bytes())?;
    let line = "design net.v lib.json other.sqd out.cert";
    let status = run_words(&rt, rt.alloc(), line, &mut desk)?;
    is_text(&rt, blamed(&status), "design", "no place for the design");
    ends_saying(&rt, &status, &desk, 4, "");
    has_file(&rt, &desk, "other.sqd", None);
    has_file(&rt, &desk, "out.cert", None);
    Ok(())
}

#[test]
fn a_file_that_is_missing_is_told(rt: HostRuntime) -> Result<(), Fail> {
    let mut desk = desk_with(rt.alloc(), WIRE.as_bytes())?;
    let line = "design other.v lib.json out.sqd out.cert";
    let status = run_words(&rt, rt.alloc(), line, &mut desk)?;
    is_text(&rt, blamed(&status), "net", "a missing module");
    ends_saying(&rt, &status, &desk, 4, "");
    let line = "design net.v other.json out.sqd out.cert";
    let status = run_words(&rt, rt.alloc(), line, &mut desk)?;
    is_text(&rt, blamed(&status), "lib", "a missing library");
    ends_saying(&rt, &status, &desk, 4, "");
    writes_nothing(&rt, &desk);
    Ok(())
}

// The module's fault is told before the library's, which isn't looked at.
#[test]
fn the_module_is_read_first(rt: HostRuntime) -> Result<(), Fail> {
    let mut desk = desk_of(rt.alloc(), b"", "{")?;
    let line = "design net.v other.json out.sqd out.cert";
    let status = run_words(&rt, rt.alloc(), line, &mut desk)?;
    ends_saying(&rt, &status, &desk, 1, "refused syntax 0\n");
    let status = run_with(&rt, rt.alloc(), "", &mut desk)?;
    ends_saying(
        &rt,
        &status,
        &desk,
        1,
        "refused syntax 0\nrefused syntax 0\n",
    );
    Ok(())
}

#[test]
fn the_longest_file_is_read(rt: HostRuntime) -> Result<(), Fail> {
    let mut desk = desk_of_spaces(rt.alloc(), MODULE_BYTES as usize)?;
    let status = run_with(&rt, rt.alloc(), "", &mut desk)?;
    let is_read = matches!(status, Status::Refused(InputFault::Read(_)));
    holds(&rt, is_read, "the longest file");
    are_bytes(&rt, desk.said(), b"refused syntax 1048576\n", "said");
    Ok(())
}

#[test]
fn a_longer_file_is_refused(rt: HostRuntime) -> Result<(), Fail> {
    let mut desk = desk_of_spaces(rt.alloc(), MODULE_BYTES as usize + 1)?;
    let status = run_with(&rt, rt.alloc(), "", &mut desk)?;
    let is_long = matches!(status, Status::Refused(InputFault::TooLong(Which::NetFile)));
    holds(&rt, is_long, "a longer file");
    are_bytes(&rt, desk.said(), b"refused long net\n", "said");
    Ok(())
}

// A desk whose module has so many bytes, all of them spaces.
fn desk_of_spaces(alloc: Global, count: usize) -> Result<MemDesk, NoMemory> {
    let spaces = vec![in alloc; b' '; count]?;
    desk_with(alloc, &spaces)
}

// The half adder, with so many workers.
fn half_adder_with<R: Threads + Sync>(
    rt: &R,
    alloc: Global,
    workers: u32,
) -> Result<MemDesk, NoMemory> {
    let mut desk = desk_with(alloc, HALF_ADDER.as_bytes())?;
    let options = format!(in alloc; "--area 15 --budget 1000000 --workers {workers}")?;
    run_with(rt, alloc, options.as_str(), &mut desk)?;
    Ok(desk)
}

#[test]
fn all_numbers_of_workers_give_the_same_bytes(rt: HostRuntime) -> Result<(), Fail> {
    let one = half_adder_with(&rt, rt.alloc(), 1)?;
    holds(&rt, one.file("out.sqd").is_some(), "a design");
    for workers in [2, 4, 16] {
        let desk = half_adder_with(&rt, rt.alloc(), workers)?;
        let is_same = desk.file("out.sqd") == one.file("out.sqd")
            && desk.file("out.cert") == one.file("out.cert");
        holds(&rt, is_same, "the same files");
        are_bytes(&rt, desk.said(), one.said(), "the same report");
    }
    Ok(())
}

// A conjunction, with sixteen workers.
fn and_with<R: Threads + Sync>(rt: &R, alloc: Global) -> Result<MemDesk, NoMemory> {
    let mut desk = desk_with(alloc, AND.as_bytes())?;
    run_with(rt, alloc, "--workers 16", &mut desk)?;
    Ok(desk)
}

#[test]
fn many_runs_give_the_same_bytes(rt: HostRuntime) -> Result<(), Fail> {
    let first = and_with(&rt, rt.alloc())?;
    holds(&rt, first.file("out.sqd").is_some(), "a design");
    for _ in 0..200 {
        let desk = and_with(&rt, rt.alloc())?;
        let is_same = desk.file("out.sqd") == first.file("out.sqd")
            && desk.file("out.cert") == first.file("out.cert");
        holds(&rt, is_same, "the same files");
        are_bytes(&rt, desk.said(), first.said(), "the same report");
    }
    Ok(())
}

// How many `not` a chain has, and what is said of it within an area of 1.
const COUNTED: &[(u32, &str)] = &[
    (94, "module m\nnodes 96 edges 95\nnone\n"),
    (95, "refused nodes 97\n"),
];

#[test]
fn more_than_96_nodes_are_counted(rt: HostRuntime) -> Result<(), Fail> {
    for &(count, said) in COUNTED {
        let text = chain_of_not(rt.alloc(), count)?;
        let mut desk = desk_with(rt.alloc(), text.as_bytes())?;
        run_with(&rt, rt.alloc(), "--area 1", &mut desk)?;
        are_bytes(&rt, desk.said(), said.as_bytes(), said);
    }
    Ok(())
}

// A module of so many `not`, one behind the other.
fn chain_of_not(alloc: Global, count: u32) -> Result<String, NoMemory> {
    let mut text = String::from_str(alloc, "module m(a, y); input a; output y; buf (n0, a);")?;
    for n in 0..count {
        text.push_str(format!(in alloc; " not (n{}, n{n});", n + 1)?.as_str())?;
    }
    text.push_str(format!(in alloc; " buf (y, n{count}); endmodule")?.as_str())?;
    Ok(text)
}
