//! Tests of `bx_syntax`: which texts are modules, with what others are refused, and what a tree keeps.

use crate::asserts::{is_bytes, is_number, is_text_in};
use crate::modules::{answer, module_of};
use bx_logic::Name;
use bx_syntax::Module;
use bx_syntax::tree::{Expr, Part};
use std::alloc::Global;
use std::test::Fail;

// Texts that are modules.
const TAKEN: &[&str] = &[
    "module m; endmodule",
    "module m(); endmodule",
    "module m(a, y); input a; output y; assign y = a; endmodule",
    "module m(input a, b, output wire y, z); assign y = a | b, z = a; endmodule",
    "module m(a, y); input wire a; output wire y; wire t, u = a & 1'b1, v; assign y = u; endmodule",
    "module m(a, y); input a; output y; nand g(t, a, a), (y, t, 1'h0, a ^ t); xnor (u, a); endmodule",
    "module m(a, y); input a; output y; not n1(y, t, a & ~a), (u, a); buf (v, w, x, (a)); endmodule",
    "module m(a, y); input a; output y; assign y = ~(a & a) ~^ a ^~ a | ~~a ^ a; endmodule",
    "(* top *) module /* a module */ m // its ports\n(a, (* in *) y); input a; output y; assign y /**/ = a; endmodule\n",
    "module \\module (\\a , \\y+z ); input a; output \\y+z ; or \\reg (\\y+z , a, a); endmodule",
    "module m(a, y); input a; output y; and and2(y, a, a); or (z, a), o(w, a); xor (p, a, 1'B0); nor n(q, a); endmodule",
    "module m(y); output y; assign y = 1'O1; wire q; endmodule // and no more",
    "module m(a, y); input a; output y; assign y=a; not(y,a); endmodule",
    "module m(a, y); input a; output y; assign y=a; not(p,q); not(q,p); endmodule",
    "module m(a, y); input a; output y; assign y = a & k; endmodule",
    "module m(a, y); input a; output y; endmodule",
    "module m(a,a); input a; endmodule",
    "module m(a); input a; endmodule",
];

#[test]
fn texts_are_taken(rt: HostRuntime) -> Result<(), Fail> {
    for text in TAKEN {
        let found = answer(rt.alloc(), text.as_bytes())?;
        is_text_in(&rt, *text, found.as_str(), "taken");
    }
    Ok(())
}

// What stands behind declarations of an input `a` and an output `y`, which are 35 bytes, and the fault.
const REFUSED_BEHIND: &[(&str, &str)] = &[
    ("assign y = a ? a : a; endmodule", "NotTaken(48, Ternary)"),
    ("assign y = a + a; endmodule", "NotTaken(48, Operator)"),
    ("assign y = a - a; endmodule", "NotTaken(48, Operator)"),
    ("assign y = a * a; endmodule", "NotTaken(48, Operator)"),
    ("assign y = a / a; endmodule", "NotTaken(48, Operator)"),
    ("assign y = a % a; endmodule", "NotTaken(48, Operator)"),
    ("assign y = a < a; endmodule", "NotTaken(48, Operator)"),
    ("assign y = a > a; endmodule", "NotTaken(48, Operator)"),
    ("assign y = !a; endmodule", "NotTaken(46, Operator)"),
    ("assign y = {a}; endmodule", "NotTaken(46, Concat)"),
    ("assign y = a[0]; endmodule", "NotTaken(47, Vector)"),
    ("assign y = `a; endmodule", "NotTaken(46, Directive)"),
    ("and #2 (y, a, a); endmodule", "NotTaken(39, Delay)"),
    ("foo u1 (y, a); endmodule", "NotTaken(35, Instance)"),
    ("\\and (y, a, a); endmodule", "NotTaken(35, Instance)"),
    ("always endmodule", "NotTaken(35, Reserved)"),
    ("assign y = 2; endmodule", "NotTaken(46, Number)"),
    ("assign y = 1'b2; endmodule", "NotTaken(46, Number)"),
    ("assign y = 2'b0; endmodule", "NotTaken(46, Number)"),
    ("assign y = 1'b00; endmodule", "NotTaken(46, Number)"),
    ("assign y = 1'bx; endmodule", "NotTaken(46, Number)"),
    ("endmodule module n; endmodule", "NotTaken(45, Second)"),
    ("endmodule [", "NotTaken(45, Vector)"),
    ("endmodule always", "NotTaken(45, Reserved)"),
    ("endmodule foo", "Syntax(45)"),
    ("module n; endmodule", "Syntax(35)"),
    ("1'b0 endmodule", "Syntax(35)"),
    ("assign y = a == a; endmodule", "Syntax(48)"),
    ("assign y = a && a; endmodule", "Syntax(49)"),
    ("assign y = a 2; endmodule", "Syntax(48)"),
    ("assign y = (a; endmodule", "Syntax(48)"),
    ("not (y, a & a, a); endmodule", "Syntax(48)"),
    ("not (y, (a), a); endmodule", "Syntax(46)"),
    ("not (y, 1'b0, a); endmodule", "Syntax(47)"),
    ("not (2, a); endmodule", "Syntax(40)"),
    ("not (y); endmodule", "Syntax(41)"),
    ("and (y); endmodule", "Syntax(41)"),
    ("wire wire t; endmodule", "Syntax(40)"),
    ("assign y; endmodule", "Syntax(43)"),
    ("assign y = a; endmodule end", "Syntax(59)"),
    ("assign y = a;", "Syntax(48)"),
];

#[test]
fn texts_are_refused_behind_declarations(rt: HostRuntime) -> Result<(), Fail> {
    for &(item, wanted) in REFUSED_BEHIND {
        let text = format!(in rt.alloc(); "module m(a, y); input a; output y; {item}")?;
        let found = answer(rt.alloc(), text.as_bytes())?;
        is_text_in(&rt, item, found.as_str(), wanted);
    }
    Ok(())
}

// Whole texts, and the fault.
const REFUSED: &[(&str, &str)] = &[
    ("", "Syntax(0)"),
    ("foo", "Syntax(0)"),
    ("module m;\n", "Syntax(10)"),
    ("module m(a, 1);", "Syntax(12)"),
    ("module m; endmodule\nmodule", "NotTaken(20, Second)"),
    ("module m; module", "Syntax(10)"),
    ("always", "NotTaken(0, Reserved)"),
    ("module m(a,);", "Syntax(11)"),
    ("module m(inout a);", "NotTaken(9, Reserved)"),
    ("module m(input a, wire b);", "Syntax(18)"),
    ("module m(a, y);", "Syntax(15)"),
    ("`timescale 1 module m; endmodule", "NotTaken(0, Directive)"),
    ("module m(input [1:0] a, output y);", "NotTaken(15, Vector)"),
    ("module m(a, input b); endmodule", "Syntax(12)"),
    ("module reg; endmodule", "NotTaken(7, Reserved)"),
];

#[test]
fn texts_are_refused(rt: HostRuntime) -> Result<(), Fail> {
    for &(text, wanted) in REFUSED {
        let found = answer(rt.alloc(), text.as_bytes())?;
        is_text_in(&rt, text, found.as_str(), wanted);
    }
    Ok(())
}

#[test]
fn a_tree_keeps_the_name_and_the_ports(rt: HostRuntime) -> Result<(), Fail> {
    let module = assignment(rt.alloc())?;
    is_bytes(&rt, module.name().as_slice(), b"m");
    is_number(&rt, module.ports().len() as u64, 2);
    Ok(())
}

#[test]
fn a_tree_keeps_the_items(rt: HostRuntime) -> Result<(), Fail> {
    let module = assignment(rt.alloc())?;
    let (target, source) = last_of_three(module.items()).ok_or("an assignment of a net")?;
    is_bytes(&rt, target.as_slice(), b"y");
    is_bytes(&rt, source.as_slice(), b"a");
    Ok(())
}

fn assignment(alloc: Global) -> Result<Module, Fail> {
    module_of(
        alloc,
        "module m(a, y); input a; output y; assign y = a; endmodule",
    )
}

// What is assigned to what, where the last of three items is one assignment of a net.
fn last_of_three(items: &[Vec<Part>]) -> Option<(&Name, &Name)> {
    match items {
        [_, _, last] => match last.as_slice() {
            [Part::Assign(target, Expr::Net(source))] => Some((target, source)),
            _ => None,
        },
        _ => None,
    }
}
