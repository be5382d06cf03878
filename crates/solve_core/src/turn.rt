//! Which open leaf is next: the one with the least value, and of several the deepest. Nothing that is promised rests on this order.

ghost use Rattle.std.specs.Prelude.{◌≡◌, ℕ, false, IfNone, IfSome, IsTrue};
ghost use Rattle.branch_tree.specs.OpenTree.{is_open};

use branch_tree::Tree;
use std::alloc::Global;
use std::collections::BinaryHeap;

/// An open leaf that waits. Of two the greater one is next.
#[derive(Clone, Copy, Debug, PartialEq, Eq, PartialOrd, Ord)]
pub(crate) struct Turn {
    /// Minus the value of its prices, or of those of the leaf that was split above it.
    pub(crate) urgency: i128,
    /// How many splits stand above it.
    pub(crate) depth: u32,
    /// Its number.
    pub(crate) leaf: u32,
    /// The number of the list of prices that it begins with; without one, it begins with the seed.
    pub(crate) list: Option<u32>,
    /// Whether this list was worked on in its own box.
    pub(crate) is_refined: bool,
}

impl Turn {
    /// The turn of a leaf of which nothing is known.
    pub(crate) fn of(leaf: u32) -> Turn
        ensures { result.leaf ≡ leaf }
    {
        Turn {
            urgency: 0,
            depth: 0,
            leaf,
            list: None,
            is_refined: false,
        }
    }

    /// The turn of a side of its leaf, once that is split.
    pub(crate) fn below(&self, leaf: u32) -> Turn
        ensures { result.leaf ≡ leaf }
    {
        Turn {
            urgency: self.urgency,
            depth: self.depth.saturating_add(1),
            leaf,
            list: self.list,
            is_refined: false,
        }
    }
}

/// The next turn: that of an open leaf. There is none only where no leaf is open. Whatever is taken from those that wait, only an open
/// leaf of the tree is answered.
pub(crate) fn next(waiting: &mut BinaryHeap<Turn, Global>, tree: &Tree) -> Option<Turn>
    ensures some { IfSome result (λ turn. IsTrue (is_open tree.now.tree turn.leaf)) }
    ensures none { IfNone result ((n : ℕ) → is_open tree.now.tree n ≡ false) }
{
    if let Some(turn) = waiting.pop() {
        if tree.is_open(turn.leaf) {
            return Some(turn);
        }
    }
    match tree.least_open() {
        Some(leaf) => Some(Turn::of(leaf)),
        None => None,
    }
}
