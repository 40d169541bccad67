//! The formula of a small network, counted.
ghost use Rattle.std.specs.Prelude.{◌≡◌};
ghost use Rattle.bx_layout.specs.Permits.{all_forms};
ghost use Rattle.bx_encode.specs.Variables.{variable_count};
ghost use Rattle.bx_encode.specs.Examples.{passing, two_rows, all_but, all_but_two, clause_count};

/// An input that leads to an output, on one column and two rows: 14 variables, and 44 clauses. There is one
/// more where no output reads from the left, and there are four more where there are no inputs.
pub fn a_small_formula_is_counted()
    ensures variables { variable_count passing two_rows ≡ 14 }
    ensures all { clause_count all_forms ≡ 44 }
    ensures output { clause_count (all_but 2) ≡ 45 }
    ensures inputs { clause_count (all_but_two 0 1) ≡ 48 }
{}
