//! Formulas that several modules try: the numbers of their literals, each clause ended by 0.

/// All clauses over two variables.
pub const SQUARE: &[i32] = &[1, 2, 0, 1, -2, 0, -1, 2, 0, -1, -2, 0];

/// A wire from an input to an output on a grid of one column and two rows, where no output may be read
/// from the left: 14 variables, 45 clauses.
pub const WIRE: &[i32] = &[
    1, 2, 0, 3, 4, 0, -1, -2, 0, -3, -4, 0, -1, -3, 0, -2, -4, 0, -1, 5, 0, -3, 5, 0, -2, 6, 0, -4,
    6, 0, -2, 0, -3, 0, -11, 0, -13, 0, -14, 0, 7, -11, 0, -7, 11, 0, 8, -12, 0, -8, 12, 0, 9, -13,
    0, -9, 13, 0, 10, -14, 0, -10, 14, 0, 1, -11, 0, 1, -12, 0, 2, 12, -13, 0, 2, 12, -14, 0, 4,
    -12, 13, 14, 0, -1, 11, 12, 0, -3, 0, -2, 13, 14, 0, -4, 12, 0, -11, -12, 0, -3, -11, 0, -3,
    -12, 0, -13, -14, 0, -2, -12, 0, -4, -13, 0, -4, -14, 0, 1, -5, -11, 0, 1, -5, -12, 0, 2, -6,
    -13, 0, 2, -6, -14, 0, 4, -6, -12, 0, -4, -8, 0,
];
