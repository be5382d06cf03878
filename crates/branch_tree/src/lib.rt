//! The tree of a search for a certificate: a node is an open leaf until it is split or closed, and one box is moved from node to node
//! (docs/certificate.md, "The tree").
#![tactic(auto)]

mod constants;
pub mod laws;
mod leaf;
mod moved;
mod nodes;
mod slot;
mod tree;

pub use constants::MAX_NODES;
pub use leaf::Leaf;
pub use moved::Moved;
pub use tree::Tree;
