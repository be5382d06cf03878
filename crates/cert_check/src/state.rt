//! How far the lines of a certificate have come.

use certificate_model::Why;

/// Which line has to come next.
#[derive(Clone, Copy, Debug, PartialEq, Eq)]
pub(crate) enum State {
    /// The first line.
    Head,
    /// The bound.
    Bound,
    /// A node, in the box of the walk.
    Nodes { bound: i64 },
    /// The last line: the tree is complete.
    Complete { bound: i64 },
    /// None.
    End { bound: i64 },
    /// Whatever comes, this line broke.
    Broken { line: u64, why: Why },
}
