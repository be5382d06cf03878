//! The limits of a program, which keep its memory small and its sums exact.
//!
//! Each is a condition of the call that would pass it, so whoever builds a program looks at it there. To add one,
//! write it here, and name it in the definition that keeps it (`specs/Program.antt`, `Terms.antt`, `Box.antt`).

/// The most rows. A network of the greatest size has more, so who builds a program of one refuses it first.
pub const MAX_ROWS: usize = 400_000;

/// The most columns: more than rows of this number can need, so that nobody is refused for it.
pub const MAX_COLUMNS: usize = 1_048_576;

/// The most terms of a row.
pub const MAX_TERMS: usize = 64;

/// The greatest absolute value of a coefficient, a right side, a bound or a cost: 2^20, so that a value of prices
/// stays far below 128 bits.
pub const MAX_NUMBER: u64 = 1_048_576;
