//! Certificates.

use listed::Listed;

/// Rows with their prices, in 1024ths of a unit of delay.
pub type Pairs = Listed<(u32, i64)>;

/// A node of a certificate's tree.
#[derive(Debug, Drop)]
pub enum Node {
    /// A column, and the value at which its bounds are cut in two.
    Split { column: u32, at: i64 },
    /// A leaf whose prices give the bound.
    Priced(Pairs),
    /// A leaf whose prices show that no point lies in its box.
    Empty(Pairs),
    /// A leaf whose box has one plan alone.
    Fixed,
}

/// A certificate: a bound on the delay in units times steps, and the nodes of its tree from the top down, the left side of a split
/// before its right one.
#[derive(Debug, Drop)]
pub struct Cert {
    pub bound: i64,
    pub nodes: Listed<Node>,
}
