//! What a piece of a certificate tells.

use crate::cert::Node;

/// What a piece of a certificate tells first. Lines are counted from 1.
#[derive(Debug, Drop)]
pub enum Event {
    /// Nothing: all bytes are taken, and more have to come.
    More,
    /// The bound.
    Head(i64),
    /// A node.
    Node(Node),
    /// That the certificate is whole, where nothing comes behind it.
    Whole,
    /// That the line is of no form, or comes where another has to be.
    BadForm(u64),
    /// That bytes stand behind the line `end`, as the line with this number.
    Tail(u64),
}
