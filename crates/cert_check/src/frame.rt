//! The splits between the whole tree and the node that comes next.

/// A split that the walk stands below, and the bound that entering its side has changed.
#[derive(Clone, Copy, Debug, PartialEq, Eq)]
pub(crate) enum Frame {
    /// The walk is in the left side; `high` is what the high of the column was. The right side waits.
    Left { column: u32, at: i64, high: i64 },
    /// The walk is in the right side; `low` is what the low of the column was.
    Right { column: u32, low: i64 },
}
