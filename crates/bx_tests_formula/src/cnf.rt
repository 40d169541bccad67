//! A formula by its truth table, literals by the numbers that the field writes for them, and clauses
//! that are none.

use crate::asserts::{are_bools, are_numbers, is_bool, is_bool_in_row, is_count, is_number};
use bx_cnf::{Bits, Clauses, Flat, Lit, all_true, is_clause};
use std::alloc::Global;
use std::process::Abort;
use std::test::Fail;

// ---- Literals

// A number, its variable, and whether it stands for the variable itself.
const NUMBERS: &[(i32, u32, bool)] = &[
    (1, 1, true),
    (-1, 1, false),
    (7, 7, true),
    (-2_147_483_647, 2_147_483_647, false),
    (2_147_483_647, 2_147_483_647, true),
];

#[test]
fn a_literal_is_its_number(rt: HostRuntime) -> Result<(), Fail> {
    for &(number, var, positive) in NUMBERS {
        let lit = literal(number)?;
        is_number(&rt, lit.number().into(), number.into());
        is_literal(&rt, lit, var, positive);
    }
    Ok(())
}

#[test]
fn a_negation_has_the_same_variable(rt: HostRuntime) -> Result<(), Fail> {
    for &(number, var, positive) in NUMBERS {
        is_literal(&rt, !literal(number)?, var, !positive);
    }
    Ok(())
}

#[test]
fn a_literal_is_made_of_its_variable(rt: HostRuntime) {
    for &(number, var, positive) in NUMBERS {
        is_number(&rt, number_of(var, positive).into(), number.into());
    }
}

#[test]
fn two_numbers_are_no_literals(rt: HostRuntime) {
    is_bool(&rt, Lit::from_number(0).is_none(), true);
    is_bool(&rt, Lit::from_number(i32::MIN).is_none(), true);
}

fn is_literal(rt: &impl Abort, lit: Lit, var: u32, positive: bool) {
    is_number(rt, lit.var().into(), var.into());
    is_bool(rt, lit.is_positive(), positive);
}

fn literal(number: i32) -> Result<Lit, Fail> {
    Ok(Lit::from_number(number).ok_or("no literal")?)
}

// The number of the literal that is made of this variable, or 0 where none is.
fn number_of(var: u32, positive: bool) -> i32 {
    if var == 0 || var >= 1 << 31 {
        return 0;
    }
    let lit = if positive {
        Lit::positive(var)
    } else {
        Lit::negative(var)
    };
    lit.number()
}

// ---- Clauses

// Numbers of literals, how many variables there are, and whether it is a clause over them.
const LITERALS: &[(&[i32], u32, bool)] = &[
    (&[1, 2, 3], 3, true),
    (&[1, -2, 3], 3, true),
    (&[1, 2, 3], 2, false),
    (&[1, 3, -3], 3, false),
    (&[2, 1, 3], 3, false),
    (&[], 0, true),
];

#[test]
fn the_variables_of_a_clause_ascend(rt: HostRuntime) -> Result<(), Fail> {
    for (row, &(numbers, vars, wanted)) in LITERALS.iter().enumerate() {
        let found = makes_a_clause(rt.alloc(), numbers, vars)?;
        is_bool_in_row(&rt, row, found, wanted);
    }
    Ok(())
}

fn makes_a_clause(alloc: Global, numbers: &[i32], vars: u32) -> Result<bool, Fail> {
    let literals = literals(alloc, numbers)?;
    Ok(is_clause(&literals, vars))
}

// The literals of these numbers.
fn literals(alloc: Global, numbers: &[i32]) -> Result<Vec<Lit>, Fail> {
    let mut literals = Vec::new(alloc);
    for &number in numbers {
        literals.push(literal(number)?)?;
    }
    Ok(literals)
}

// ---- Formulas of three variables

// Variables 1 and 2 differ, and not both are false where the third is true.
const DIFFER: &[&[i32]] = &[&[1, 2], &[-1, -2], &[1, 2, -3]];

// The same, and the empty clause.
const NEVER: &[&[i32]] = &[&[1, 2], &[-1, -2], &[1, 2, -3], &[]];

#[test]
fn a_formula_without_clauses_is_empty(rt: HostRuntime) -> Result<(), Fail> {
    is_bool(&rt, is_empty(rt.alloc(), &[])?, true);
    is_bool(&rt, is_empty(rt.alloc(), DIFFER)?, false);
    Ok(())
}

fn is_empty(alloc: Global, lists: &[&[i32]]) -> Result<bool, Fail> {
    let clauses = formula(alloc, lists)?;
    Ok(clauses.is_empty())
}

#[test]
fn variables_and_clauses_are_counted(rt: HostRuntime) -> Result<(), Fail> {
    let (vars, clauses) = counts(rt.alloc(), DIFFER)?;
    is_number(&rt, vars.into(), 3);
    is_number(&rt, clauses.into(), 3);
    Ok(())
}

// How many variables and clauses there are.
fn counts(alloc: Global, lists: &[&[i32]]) -> Result<(u32, u32), Fail> {
    let clauses = formula(alloc, lists)?;
    Ok((clauses.vars(), clauses.len()))
}

#[test]
fn a_clause_has_its_literals(rt: HostRuntime) -> Result<(), Fail> {
    is_count(&rt, length_of(rt.alloc(), DIFFER, 3)?, 3);
    is_count(&rt, length_of(rt.alloc(), DIFFER, 2)?, 2);
    Ok(())
}

// How many literals this clause has, and 0 where there is none.
fn length_of(alloc: Global, lists: &[&[i32]], id: u32) -> Result<usize, Fail> {
    let clauses = formula(alloc, lists)?;
    if id > 0 && id <= clauses.len() {
        Ok(clauses.clause(id).len())
    } else {
        Ok(0)
    }
}

// Values of the variables, and whether they make all clauses true.
const TABLE: &[(&[bool], bool)] = &[
    (&[false, false, false], false),
    (&[true, false, false], true),
    (&[false, true, false], true),
    (&[true, true, false], false),
    (&[false, false, true], false),
    (&[true, false, true], true),
    (&[false, true, true], true),
    (&[true, true, true], false),
];

#[test]
fn a_formula_has_the_truth_table_of_its_clauses(rt: HostRuntime) -> Result<(), Fail> {
    for (row, &(bits, wanted)) in TABLE.iter().enumerate() {
        is_bool_in_row(&rt, row, are_true(rt.alloc(), DIFFER, bits)?, wanted);
    }
    Ok(())
}

#[test]
fn nothing_makes_the_empty_clause_true(rt: HostRuntime) -> Result<(), Fail> {
    is_number(&rt, counts(rt.alloc(), NEVER)?.0.into(), 3);
    let found = are_true(rt.alloc(), NEVER, &[true, false, false])?;
    is_bool(&rt, found, false);
    Ok(())
}

// Whether the values, one for each variable, make all clauses true.
fn are_true(alloc: Global, lists: &[&[i32]], bits: &[bool]) -> Result<bool, Fail> {
    let clauses = formula(alloc, lists)?;
    if bits.len() == clauses.vars() as usize {
        Ok(all_true(&clauses, bits))
    } else {
        Err("not a value for each variable".into())
    }
}

fn formula(alloc: Global, lists: &[&[i32]]) -> Result<Clauses, Fail> {
    let mut clauses = Clauses::new(alloc, 3);
    for &numbers in lists {
        add(alloc, &mut clauses, numbers)?;
    }
    Ok(clauses)
}

// Adds the clause of these numbers.
fn add(alloc: Global, clauses: &mut Clauses, numbers: &[i32]) -> Result<(), Fail> {
    let literals = literals(alloc, numbers)?;
    if !is_clause(&literals, clauses.vars()) || clauses.len() > 100 {
        return Err("no clause".into());
    }
    clauses.push(&literals)?;
    Ok(())
}

// ---- Lists of lists, and values

const LISTS: &[&[u32]] = &[&[1, 2], &[], &[3]];

#[test]
fn lists_stand_one_behind_the_other(rt: HostRuntime) -> Result<(), Fail> {
    let flat = lists(rt.alloc())?;
    is_count(&rt, flat.len(), 3);
    for (k, &wanted) in LISTS.iter().enumerate() {
        are_numbers(&rt, list_of(&flat, k), wanted);
    }
    Ok(())
}

#[test]
fn the_last_list_is_taken_off(rt: HostRuntime) -> Result<(), Fail> {
    let mut flat = lists(rt.alloc())?;
    if flat.len() > 0 {
        flat.pop();
    }
    is_count(&rt, flat.len(), 2);
    Ok(())
}

fn lists(alloc: Global) -> Result<Flat<u32>, Fail> {
    let mut flat = Flat::new(alloc);
    for &list in LISTS {
        flat.push(list)?;
    }
    Ok(flat)
}

// List k, and an empty one where there is none.
fn list_of(flat: &Flat<u32>, k: usize) -> &[u32] {
    if k < flat.len() { flat.list(k) } else { &[] }
}

#[test]
fn bits_are_a_list_of_values(rt: HostRuntime) -> Result<(), Fail> {
    let bits = Bits::new([true, false].to_vec(rt.alloc())?);
    are_bools(&rt, bits.as_slice(), &[true, false]);
    is_count(&rt, bits.into_vec().len(), 2);
    Ok(())
}
