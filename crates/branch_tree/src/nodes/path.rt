//! The path from a node to the root: what bounds a column has in the box of the node.

ghost use Rattle.std.specs.Prelude.{◌≡◌, ◌<◌, length};
ghost use Rattle.sparse_program.specs.Box.{high_of, low_of};
ghost use Rattle.branch_tree.specs.inner.Slots.{AreSlots, node_box};

use crate::nodes::Nodes;

impl Nodes {
    /// The greatest value of a column in the box of a node: that of the nearest left side of a split of the column, or of the root.
    pub fn high(&self, node: u32, column: u32) -> i64
        requires slots { AreSlots self.now.root self.now.slots.items }
        requires node { node < length self.now.slots.items }
        requires column { column < length self.now.root.lows }
        ensures { result ≡ high_of (node_box self.now.root self.now.slots.items node) column }
    {
        let mut number = node;
        while number > 0 {
            let slot = self.slot(number);
            if let Some(high) = slot.entry.high_of(column) {
                return high;
            }
            number = slot.parent;
        }
        self.root.high(column)
    }

    /// The least value of a column in the box of a node: that of the nearest right side of a split of the column, or of the root.
    pub fn low(&self, node: u32, column: u32) -> i64
        requires slots { AreSlots self.now.root self.now.slots.items }
        requires node { node < length self.now.slots.items }
        requires column { column < length self.now.root.lows }
        ensures { result ≡ low_of (node_box self.now.root self.now.slots.items node) column }
    {
        let mut number = node;
        while number > 0 {
            let slot = self.slot(number);
            if let Some(low) = slot.entry.low_of(column) {
                return low;
            }
            number = slot.parent;
        }
        self.root.low(column)
    }
}
