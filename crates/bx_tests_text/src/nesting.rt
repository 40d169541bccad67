//! Tests of `bx_syntax`: how deep expressions nest, and which fault comes first where one nests too deep.

use crate::asserts::is_text_in_row;
use crate::modules::answer;
use std::alloc::{AllocError, Global};
use std::test::Fail;

// An item in which something nests: what stands before it, opens, closes and stands behind it.
struct Nested {
    before: &'static str,
    open: &'static str,
    close: &'static str,
    count: u32,
    inner: &'static str,
    behind: &'static str,
}

// An expression that is nested so many times, with what stands before and behind it.
macro_rules! nested {
    ($before:literal [ $open:literal $inner:literal $close:literal ] * $count:literal $behind:literal) => {
        Nested {
            before: $before,
            open: $open,
            close: $close,
            count: $count,
            inner: $inner,
            behind: $behind,
        }
    };
}

// Items behind declarations of an input `a` and an output `y`, which are 35 bytes, and what is answered.
const NESTED: &[(Nested, &str)] = &[
    (nested!("assign y = " ["~" "a" ""] * 256 ";"), "taken"),
    (
        nested!("assign y = " ["~" "a" ""] * 257 ";"),
        "TooDeep(302)",
    ),
    (nested!("assign y = " ["(" "a" ")"] * 256 ";"), "taken"),
    (
        nested!("assign y = " ["(" "a" ")"] * 257 ";"),
        "TooDeep(302)",
    ),
    (nested!("assign y = " ["~(" "a" ")"] * 128 ";"), "taken"),
    (
        nested!("assign y = " ["~(" "a" ")"] * 129 ";"),
        "TooDeep(302)",
    ),
    (nested!("and (y, " ["(" "a" ")"] * 256 ", a);"), "taken"),
    (
        nested!("and (y, " ["(" "a" ")"] * 257 ", a);"),
        "TooDeep(299)",
    ),
    (
        nested!("assign y = " ["~" "a" ""] * 257 " ?;"),
        "TooDeep(302)",
    ),
    (
        nested!("assign y = a a " ["~" "a" ""] * 257 ";"),
        "Syntax(48)",
    ),
    (
        nested!("assign y = " ["~" "2'b10" ""] * 256 ";"),
        "NotTaken(302, Number)",
    ),
    (
        nested!("assign y = " ["~" "" ""] * 256 "endmodule"),
        "Syntax(302)",
    ),
    (
        nested!("assign y = " ["~" "(a)" ""] * 256 ";"),
        "TooDeep(302)",
    ),
];

#[test]
fn expressions_nest_256_deep(rt: HostRuntime) -> Result<(), Fail> {
    for (row, (nested, wanted)) in NESTED.iter().enumerate() {
        let text = nested.text(rt.alloc())?;
        let found = answer(rt.alloc(), text.as_bytes())?;
        is_text_in_row(&rt, row, found.as_str(), *wanted);
    }
    Ok(())
}

impl Nested {
    // A module with this item.
    fn text(&self, alloc: Global) -> Result<String, AllocError> {
        let mut text = String::from_str(alloc, "module m(a, y); input a; output y; ")?;
        text.push_str(self.before)?;
        push_times(&mut text, self.open, self.count)?;
        text.push_str(self.inner)?;
        push_times(&mut text, self.close, self.count)?;
        text.push_str(self.behind)?;
        text.push_str(" endmodule")?;
        Ok(text)
    }
}

fn push_times(text: &mut String, part: &str, count: u32) -> Result<(), AllocError> {
    for _ in 0..count {
        text.push_str(part)?;
    }
    Ok(())
}
