//! The limit of a point's text (docs/LIMITS.md). Code and definitions name it from here.

/// The most bytes of a file of a point: it lies in memory whole. A point of the most columns that a program has, with seven digits to
/// a value, takes half of it.
pub const MAX_POINT_BYTES: u64 = 16_777_216;
