//! A chain: the first variable is true, each makes the next one true, and the last is false. Step k of its log says
//! that variable k + 2 is true, from the step before it, and the last step is empty.

use crate::made::{add, add_step};
use bx_cnf::Clauses;
use bx_proof::Steps;
use std::alloc::Global;
use std::test::Fail;

/// How many variables a chain has here, and one clause fewer between them: so many steps has its log.
pub const LENGTH: u32 = 40;

/// The formula of the chain: clause 1 says that variable 1 is true, clause k + 1 that variable k makes the next one
/// true, and the last that the last is false.
pub fn formula(alloc: Global) -> Result<Clauses, Fail> {
    let mut formula = Clauses::new(alloc, LENGTH);
    add(alloc, &mut formula, &[1])?;
    for k in 1..LENGTH {
        let var = k as i32;
        add(alloc, &mut formula, &[-var, var + 1])?;
    }
    add(alloc, &mut formula, &[-(LENGTH as i32)])?;
    Ok(formula)
}

/// Its log. The step at `bad`, if there is one, lacks the hint that says that the variable before its own is true.
pub fn log(alloc: Global, bad: Option<u32>) -> Result<Steps, Fail> {
    let first = LENGTH + 2;
    let mut steps = Steps::new(alloc, first);
    for k in 0..LENGTH {
        // the step before it, or for the first one clause 1
        let before = if k == 0 { 1 } else { first + k - 1 };
        let hints = [before, k + 2];
        let hints = if bad == Some(k) {
            &hints[1..]
        } else {
            &hints[..]
        };
        if k + 1 < LENGTH {
            add_step(alloc, &mut steps, &[k as i32 + 2], hints)?;
        } else {
            add_step(alloc, &mut steps, &[], hints)?;
        }
    }
    Ok(steps)
}
