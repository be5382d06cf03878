//! The limits of a search (docs/LIMITS.md).

/// The most that a budget of nodes times the rows of a program may be: each node of a search works on the prices of all rows, and a
/// certificate names at most so many.
pub const MAX_WORK: u64 = 8_000_000;

/// How many changes are tried from the plan that a leaf fixes. A leaf comes up once for each plan that a search decides, so that a climb
/// there is to cost little beside the work on prices; a rounding, of which a search makes one, tries ten times as many.
pub(crate) const TRIES_OF_A_LEAF: u32 = 200;

/// In how many rounds the tolls of the box of all points are raised.
pub(crate) const ROUNDS_OF_THE_ROOT: u32 = 3000;

/// In how many rounds the tolls of any other box are raised, from those of the box above it.
pub(crate) const ROUNDS_OF_A_LEAF: u32 = 100;
