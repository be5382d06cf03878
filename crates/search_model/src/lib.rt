//! What the tree of a search is, and what its bound says (docs/search.md, "The tree"): definitions and laws, with no algorithm.
#![tactic(auto)]

pub mod laws;
