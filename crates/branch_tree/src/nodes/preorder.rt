//! The nodes of a whole tree from the top down.

ghost use Rattle.std.specs.Prelude.{◌≡◌, ◌∷◌, ◌<◌, ◌^◌, List, OnOk, IfOk, length, map};
ghost use Rattle.certificate_model.specs.Nodes as model;
ghost use Rattle.cert_format.specs.Marks.{node_of};
ghost use Rattle.branch_tree.specs.OpenTree.{leaf_of};
ghost use Rattle.branch_tree.specs.inner.Preorder.{AllBehind, GoesOn, IsUnderWay, nodes_below, taken};
ghost use Rattle.branch_tree.specs.inner.Slots.{AreSlots, slot_of, tree_of};

use crate::leaf::Leaf;
use crate::nodes::Nodes;
use crate::slot::{Slot, State};
use cert_format::Node;
use listed::{Listed, Memory, Stack};
use std::mem;

impl Nodes {
    /// The nodes from the top down, the left side of a split before its right one. Their pairs are moved and not copied.
    pub fn into_preorder(self) -> Result<Listed<Node>, Memory>
        requires { AreSlots self.root self.slots.items }
        ensures { IfOk result (λ nodes. map node_of nodes ≡ nodes_below (tree_of self.slots.items)) }
    {
        let Nodes { root: _, mut slots } = self;
        let alloc = *slots.allocator();
        let mut written = Vec::with_capacity(alloc, slots.len())?;
        let mut waiting = Stack::new(alloc);
        waiting.push(0)?;
        while let Some(number) = waiting.pop() {
            write(&mut slots, number, &mut waiting, &mut written)?;
        }
        Ok(Listed::of(written))
    }
}

/// Moves a node out of its slot to the end of those that were written. The sides of a split wait then, the left one on top.
fn write(
    slots: &mut Vec<Slot>,
    number: u32,
    waiting: &mut Stack<u32>,
    written: &mut Vec<Node>,
) -> Result<(), Memory>
    requires few { length slots.old.items < 2 ^ 32 }
    requires there { number < length slots.old.items }
    requires behind { AllBehind slots.old.items }
    ensures long { length slots.new.items ≡ length slots.old.items }
    ensures goes_on { OnOk result ((all : List model.Node) → IsUnderWay all slots.old.items (number ∷ waiting.old) written.old.items → GoesOn all slots.old.items slots.new.items (number ∷ waiting.old) waiting.new written.new.items) }
{
    match take_state(slots, number) {
        State::Open => {}
        State::Closed(leaf) => written.push(node_of(leaf))?,
        State::Split { column, at, left } => {
            written.push(Node::Split { column, at })?;
            waiting.push(left + 1)?;
            waiting.push(left)?;
        }
    }
    Ok(())
}

/// Takes out what became of a node.
fn take_state(slots: &mut Vec<Slot>, number: u32) -> State
    requires { number < length slots.old.items }
    ensures value { result ≡ (slot_of slots.old.items number).state }
    ensures taken { slots.new.items ≡ taken slots.old.items number }
{
    mem::replace(&mut slots[number as usize].state, State::Open)
}

/// The node of a closed leaf.
fn node_of(leaf: Leaf) -> Node
    ensures { node_of result ≡ model.LeafNode (leaf_of leaf) }
{
    match leaf {
        Leaf::Priced(pairs) => Node::Priced(pairs),
        Leaf::Empty(pairs) => Node::Empty(pairs),
        Leaf::Fixed => Node::Fixed,
    }
}
