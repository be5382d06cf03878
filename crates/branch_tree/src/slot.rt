//! Nodes as they are kept.

ghost use Rattle.std.specs.Prelude.{◌≡◌};
ghost use Rattle.branch_tree.specs.inner.Entries.{HasNextLow, new_high, new_low};
ghost use Rattle.branch_tree.specs.inner.Slots.{is_open_state, open_slot};

use crate::leaf::Leaf;

/// How a node is entered from the one above it: which side of a split it is, and the bound that this changes.
#[derive(Clone, Copy, Debug, PartialEq, Eq)]
pub(crate) enum Entry {
    /// It is the root: nothing changes.
    Root,
    /// The left side: the high of the column becomes `at`; it was `high`.
    Left { column: u32, at: i64, high: i64 },
    /// The right side: the low of the column becomes `at + 1`; it was `low`.
    Right { column: u32, at: i64, low: i64 },
}

/// What became of a node.
#[derive(Debug, Drop)]
pub(crate) enum State {
    /// An open leaf.
    Open,
    /// A leaf that was closed.
    Closed(Leaf),
    /// A split, whose left side has this number and whose right side has the next.
    Split { column: u32, at: i64, left: u32 },
}

/// A node: the number of the one above it, of the root its own, how it is entered from there, and what became of it.
#[derive(Debug, Drop)]
pub(crate) struct Slot {
    pub parent: u32,
    pub entry: Entry,
    pub state: State,
}

impl Slot {
    /// An open leaf.
    pub fn open(parent: u32, entry: Entry) -> Slot
        ensures { result ≡ open_slot parent entry }
    {
        Slot {
            parent,
            entry,
            state: State::Open,
        }
    }

    /// Whether it is an open leaf.
    pub fn is_open(&self) -> bool
        ensures { result ≡ is_open_state self.now.state }
    {
        matches!(self.state, State::Open)
    }
}

impl Entry {
    /// The high that entering gives a column, where it changes that.
    pub fn high_of(&self, column: u32) -> Option<i64>
        ensures { result ≡ new_high self.now column }
    {
        match self {
            Entry::Left {
                column: here,
                at,
                ..
            } if *here == column => Some(*at),
            _ => None,
        }
    }

    /// The low that entering gives a column, where it changes that.
    pub fn low_of(&self, column: u32) -> Option<i64>
        requires { HasNextLow self.now }
        ensures { result ≡ new_low self.now column }
    {
        match self {
            Entry::Right {
                column: here,
                at,
                ..
            } if *here == column => Some(*at + 1),
            _ => None,
        }
    }
}
