//! The nodes of a tree: the box of the root, and a slot for each node.

ghost use Rattle.std.specs.Prelude.{◌≡◌, ℕ, ◌+◌, ◌<◌, ◌≤◌, ◌++◌, ◌∷◌, ◌^◌, [], false, IfOk, OnErr, OnOk, length, slice_set};
ghost use Rattle.branch_tree.specs.inner.Slots.{AreSlots, IsFirstOpen, IsPart, is_open_state, open_slot, slot_of};
ghost use Rattle.branch_tree.specs.declared.slot.Entry.TheVariants.{Left, Right};

mod moving;
mod path;
mod preorder;

use crate::slot::{Entry, Slot, State};
use listed::Memory;
use sparse_program::Bounds;

/// The box of the root, and the nodes by their numbers.
#[derive(Debug, Drop)]
pub(crate) struct Nodes {
    pub root: Bounds,
    pub slots: Vec<Slot>,
}

impl Nodes {
    /// How many nodes there are.
    pub fn count(&self) -> u32
        requires { length self.now.slots.items < 2 ^ 32 }
        ensures { result ≡ length self.now.slots.items }
    {
        self.slots.as_slice().len() as u32
    }

    /// The node with a number.
    pub fn slot(&self, number: u32) -> &Slot
        requires { number < length self.now.slots.items }
        ensures { result.now ≡ slot_of self.now.slots.items number }
    {
        &self.slots.as_slice()[number as usize]
    }

    /// Changes what became of a node.
    pub fn set_state(&mut self, number: u32, state: State)
        requires { number < length self.old.slots.items }
        ensures slots { self.new.slots.items ≡ slice_set self.old.slots.items number (record (slot_of self.old.slots.items number) { state = state }) }
        ensures root { self.new.root ≡ self.old.root }
    {
        self.slots[number as usize].state = state;
    }

    /// Splits a leaf at a value of a column, and answers the number of its left side. Where memory is wanting nothing changes.
    pub fn part(&mut self, leaf: u32, column: u32, at: i64) -> Result<u32, Memory>
        requires slots { AreSlots self.old.root self.old.slots.items }
        requires leaf { leaf < length self.old.slots.items }
        requires column { column < length self.old.root.lows }
        ensures part { IfOk result (λ _. IsPart self.old.root self.old.slots.items self.new.slots.items leaf column at) }
        ensures number { IfOk result (λ left. left ≡ length self.old.slots.items) }
        ensures root { self.new.root ≡ self.old.root }
        ensures err { OnErr result (self.new.slots.items ≡ self.old.slots.items) }
    {
        let high = self.high(leaf, column);
        let low = self.low(leaf, column);
        let left = self.count();
        self.push_sides(leaf, column, at, low, high)?;
        self.set_state(leaf, State::Split { column, at, left });
        Ok(left)
    }

    /// Adds the two sides of a leaf, whose bounds of the column are these. Where memory is wanting nothing changes.
    fn push_sides(
        &mut self,
        leaf: u32,
        column: u32,
        at: i64,
        low: i64,
        high: i64,
    ) -> Result<(), Memory>
        ensures slots { OnOk result (self.new.slots.items ≡ self.old.slots.items ++ open_slot leaf (Left column at high) ∷ open_slot leaf (Right column at low) ∷ []) }
        ensures root { self.new.root ≡ self.old.root }
        ensures err { OnErr result (self.new.slots.items ≡ self.old.slots.items) }
    {
        self.slots.reserve(2)?;
        self.slots
            .push_reserved(Slot::open(leaf, Entry::Left { column, at, high }));
        self.slots
            .push_reserved(Slot::open(leaf, Entry::Right { column, at, low }));
        Ok(())
    }

    /// The first open leaf from a number on, or how many nodes there are.
    pub fn next_open(&self, from: u32) -> u32
        requires within { from ≤ length self.now.slots.items }
        requires few { length self.now.slots.items < 2 ^ 32 }
        requires before { (n : ℕ) → n < from → is_open_state (slot_of self.now.slots.items n).state ≡ false }
        ensures { IsFirstOpen self.now.slots.items result }
    {
        let count = self.count();
        for number in from..count {
            if self.slot(number).is_open() {
                return number;
            }
        }
        count
    }
}
