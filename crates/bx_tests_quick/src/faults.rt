//! Why small modules aren't laid out.

use crate::asserts::is_text_in_row;
use crate::modules::{laid, net_of, network_of, without};
use std::alloc::Global;
use std::test::Fail;

const AND: &str = "module m(a, b, y); input a, b; output y; and(y, a, b); endmodule";

const SUM: &str =
    "module m(a, b, s, c); input a, b; output s, c; xor(s, a, b); and(c, a, b); endmodule";

// A module, a form that is missing, a width, and the fault. What is too wide is told first, and of forms the least.
const FAULTS: &[(&str, &str, u32, &str)] = &[
    (AND, "", 1, "wide 2"),
    (AND, "and_l", 1, "wide 2"),
    (AND, "and_l", 2, "no form and_l"),
    (AND, "wire_ll", 2, "laid"),
    (SUM, "", 3, "wide 4"),
    (SUM, "cross", 4, "no form cross"),
    (SUM, "input_r", 4, "no form input_r"),
    (SUM, "fan_r", 4, "laid"),
];

#[test]
fn faults_are_told_in_their_order(rt: HostRuntime) -> Result<(), Fail> {
    for (row, &(module, name, width, wanted)) in FAULTS.iter().enumerate() {
        let found = answer(rt.alloc(), module, name, width)?;
        is_text_in_row(&rt, row, found.as_str(), wanted);
    }
    Ok(())
}

fn answer(alloc: Global, module: &str, name: &str, width: u32) -> Result<String, Fail> {
    let network = network_of(alloc, &net_of(alloc, module)?)?;
    match laid(alloc, &network, without(name), width)? {
        Ok(_) => Ok(String::from_str(alloc, "laid")?),
        Err(fault) => Ok(fault),
    }
}
