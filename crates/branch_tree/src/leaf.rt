//! How the leaves of a tree are closed.

use cert_format::Pairs;

/// Why no better point lies in the box of a leaf.
#[derive(Debug, Drop)]
pub enum Leaf {
    /// The value of prices gives the bound.
    Priced(Pairs),
    /// The value of prices shows that no point lies in the box.
    Empty(Pairs),
    /// The box has one plan alone.
    Fixed,
}
