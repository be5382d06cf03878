//! A box that is moved from node to node: set back on the way up from the one, and narrowed for the way down to the other.

ghost use Rattle.std.specs.Prelude.{◌≡◌, ◌<◌, ◌≤◌, length};
ghost use Rattle.branch_tree.specs.inner.Entries.{CanMeet, CanSetBack, met, set_back};
ghost use Rattle.branch_tree.specs.inner.Slots.{AreSlots, IsAbove, node_box};

use crate::moved::Moved;
use crate::nodes::Nodes;
use crate::slot::Entry;
use sparse_program::Program;

impl Nodes {
    /// Moves a box from a node up to the nearest one that is the other or stands above it, and answers that.
    ///
    /// Of two nodes that differ, the one with the higher number stands above neither. So that one goes up, until both are the same.
    pub fn rise<B: Moved>(&self, program: &Program, from: u32, to: u32, into: &mut B) -> u32
        requires slots { AreSlots self.now.root self.now.slots.items }
        requires from { from < length self.now.slots.items }
        requires to { to < length self.now.slots.items }
        requires of { B.IsOf program.now into.old }
        requires stands { B.ranges into.old ≡ node_box self.now.root self.now.slots.items from }
        ensures above { IsAbove self.now.slots.items result to }
        ensures stands { B.ranges into.new ≡ node_box self.now.root self.now.slots.items result }
        ensures of { B.IsOf program.now into.new }
        ensures prices { B.prices into.new ≡ B.prices into.old }
    {
        let mut here = from;
        let mut there = to;
        while here != there {
            if here < there {
                there = self.slot(there).parent;
            } else {
                let slot = self.slot(here);
                leave(slot.entry, program, into);
                here = slot.parent;
            }
        }
        here
    }

    /// Moves a box from a node down to one below it: it is cut to the sides on the path between them, from the last to the first. The
    /// order does not matter, and a side that cuts nothing off any more is passed.
    pub fn descend<B: Moved>(&self, program: &Program, from: u32, to: u32, into: &mut B)
        requires slots { AreSlots self.now.root self.now.slots.items }
        requires to { to < length self.now.slots.items }
        requires above { IsAbove self.now.slots.items from to }
        requires of { B.IsOf program.now into.old }
        requires stands { B.ranges into.old ≡ node_box self.now.root self.now.slots.items from }
        ensures stands { B.ranges into.new ≡ node_box self.now.root self.now.slots.items to }
        ensures of { B.IsOf program.now into.new }
        ensures prices { B.prices into.new ≡ B.prices into.old }
    {
        let mut number = to;
        while number > from {
            let slot = self.slot(number);
            meet(slot.entry, program, into);
            number = slot.parent;
        }
    }
}

/// Sets the bound back that entering has changed.
fn leave<B: Moved>(entry: Entry, program: &Program, into: &mut B)
    requires of { B.IsOf program.now into.old }
    requires can { CanSetBack (B.ranges into.old) entry }
    ensures ranges { B.ranges into.new ≡ set_back entry (B.ranges into.old) }
    ensures of { B.IsOf program.now into.new }
    ensures prices { B.prices into.new ≡ B.prices into.old }
{
    match entry {
        Entry::Root => {}
        Entry::Left { column, high, .. } => into.set_high_back(program, column, high),
        Entry::Right { column, low, .. } => into.set_low_back(program, column, low),
    }
}

/// Cuts the box to the side that is entered.
fn meet<B: Moved>(entry: Entry, program: &Program, into: &mut B)
    requires of { B.IsOf program.now into.old }
    requires can { CanMeet (B.ranges into.old) entry }
    ensures ranges { B.ranges into.new ≡ met entry (B.ranges into.old) }
    ensures of { B.IsOf program.now into.new }
    ensures prices { B.prices into.new ≡ B.prices into.old }
{
    match entry {
        Entry::Root => {}
        Entry::Left { column, at, .. } => {
            if at < into.high_at(column) {
                into.lower_high(program, column, at);
            }
        }
        Entry::Right { column, at, .. } => {
            if into.low_at(column) <= at {
                into.raise_low(program, column, at + 1);
            }
        }
    }
}
