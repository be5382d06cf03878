//! The tree.

ghost use Rattle.std.specs.Prelude.{◌≡◌, ℕ, ◌+◌, ◌<◌, false, IsTrue, IfNone, IfOk, IfSome, OnErr, OnOk};
ghost use Rattle.certificate_model.specs.Tree.{IsSplit};
ghost use Rattle.branch_tree.specs.OpenTree.{Open, has, is_open, leaf_of, size};
ghost use Rattle.branch_tree.specs.declared.constants.TheConstants.{MAX_NODES};

use crate::leaf::Leaf;
use crate::moved::Moved;
use crate::nodes::Nodes;
use crate::slot::{Entry, Slot, State};
use cert_format::Cert;
use listed::Memory;
use sparse_program::{Bounds, Program};
use std::alloc::Global;
use std::marker::Model;

/// A tree of boxes that grows from the box of its root. Nodes are numbered from 0 in the order in which they are made, so that a node
/// has a higher number than the one above it.
#[derive(Debug, Drop)]
pub struct Tree {
    nodes: Nodes,
    first_open: u32,
}

impl Model for Tree {
    ghost use Rattle.branch_tree.specs.Boxes.{Growing};
    ghost use Rattle.branch_tree.specs.inner.Tokens.{growing_code};

    ghost Value = { Growing };

    ghost coded = { growing_code };

    ghost use Rattle.branch_tree.specs.inner.Slots.{IsKept, tree_of};

    ghost view = { λ tree. record { root = tree.nodes.root; tree = tree_of tree.nodes.slots.items } };

    ghost invariant = { λ tree. IsKept tree.nodes.root tree.nodes.slots.items tree.first_open };
}

impl Tree {
    ghost use Rattle.branch_tree.specs.Boxes.{Growing, IsCertOf, IsGrowing, box_of, closed_at, split_at};

    /// The tree of one open leaf, which has number 0.
    pub fn new(alloc: Global, root: Bounds) -> Result<Tree, Memory>
        ensures { IfOk result (λ made. made ≡ record { root = root; tree = Open 0 }) }
    {
        root.is_box();
        let mut slots = Vec::new(alloc);
        slots.push(Slot::open(0, Entry::Root))?;
        Ok(Tree {
            nodes: Nodes { root, slots },
            first_open: 0,
        })
    }

    /// Does nothing. A caller that calls it knows what every tree keeps.
    pub fn is_growing(&self)
        ensures { IsGrowing self.now }
    {
        let _ = &self.nodes;
    }

    /// How many nodes there are.
    pub fn nodes(&self) -> u32
        ensures { result ≡ size self.now.tree }
    {
        self.nodes.count()
    }

    /// Whether an open leaf has the number.
    pub fn is_open(&self, number: u32) -> bool
        ensures { result ≡ is_open self.now.tree number }
    {
        number < self.nodes.count() && self.nodes.slot(number).is_open()
    }

    /// The least number of an open leaf.
    pub fn least_open(&self) -> Option<u32>
        ensures some { IfSome result (λ leaf. IsTrue (is_open self.now.tree leaf)) }
        ensures least { IfSome result (λ leaf. (n : ℕ) → n < leaf → is_open self.now.tree n ≡ false) }
        ensures none { IfNone result ((n : ℕ) → is_open self.now.tree n ≡ false) }
    {
        if self.first_open < self.nodes.count() {
            Some(self.first_open)
        } else {
            None
        }
    }

    /// Splits an open leaf at a value of a column, and answers the numbers of its two sides, which are open: the left one up to the
    /// value, and the right one above it. Where memory is wanting the tree stays as it was.
    pub fn split(&mut self, leaf: u32, column: u32, at: i64) -> Result<(u32, u32), Memory>
        requires leaf { IsTrue (is_open self.old.tree leaf) }
        requires split { IsSplit (box_of self.old leaf) column at }
        requires few { size self.old.tree < MAX_NODES }
        ensures tree { OnOk result (self.new ≡ split_at self.old leaf column at) }
        ensures numbers { IfOk result (λ sides. (sides.0 ≡ size self.old.tree) × (sides.1 ≡ sides.0 + 1)) }
        ensures err { OnErr result (self.new ≡ self.old) }
    {
        let left = self.nodes.part(leaf, column, at)?;
        self.first_open = self.nodes.next_open(self.first_open);
        Ok((left, left + 1))
    }

    /// Closes an open leaf.
    pub fn close(&mut self, leaf: u32, how: Leaf)
        requires { IsTrue (is_open self.old.tree leaf) }
        ensures { self.new ≡ closed_at self.old leaf (leaf_of how) }
    {
        self.nodes.set_state(leaf, State::Closed(how));
        self.first_open = self.nodes.next_open(self.first_open);
    }

    /// Moves a box from the node that it stands for to another one. That costs the path between the two nodes: the bounds that were
    /// changed on the way up are set back, and those that change on the way down are narrowed.
    pub fn enter<B: Moved>(&self, program: &Program, from: u32, to: u32, into: &mut B)
        requires from { IsTrue (has self.now.tree from) }
        requires to { IsTrue (has self.now.tree to) }
        requires of { B.IsOf program.now into.old }
        requires stands { B.ranges into.old ≡ box_of self.now from }
        ensures stands { B.ranges into.new ≡ box_of self.now to }
        ensures of { B.IsOf program.now into.new }
        ensures prices { B.prices into.new ≡ B.prices into.old }
    {
        let shared = self.nodes.rise(program, from, to, into);
        self.nodes.descend(program, shared, to, into);
    }

    /// The certificate of a bound: the nodes of the tree from the top down. The pairs of its leaves are moved and not copied.
    pub fn to_cert(self, bound: i64) -> Result<Cert, Memory>
        requires { (n : ℕ) → is_open self.tree n ≡ false }
        ensures { IfOk result (IsCertOf self.tree bound) }
    {
        let Tree {
            nodes,
            first_open: _,
        } = self;
        let nodes = nodes.into_preorder()?;
        Ok(Cert { bound, nodes })
    }
}
