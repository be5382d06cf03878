//! The limit of a tree.

/// The most nodes of a tree that is split: so many, and two more, have numbers of 32 bits.
pub const MAX_NODES: usize = 16_777_216;
