//! The first plan column that a box leaves open: the one on which it is split.

ghost use Rattle.std.specs.Prelude.{◌≡◌, ◌<◌, ◌≤◌, ℕ, ◌≤ℤ◌, ◌<ℤ◌, IfNone, IfSome, length};
ghost use Rattle.sparse_program.specs.Box.{high_of, low_of};
ghost use Rattle.program_model.specs.Numbers.{plan_count};
ghost use Rattle.branch_tree.specs.Boxes.{box_of};
ghost use Rattle.search_model.specs.Splits.{IsFirstUnfixed};
ghost use Rattle.solve_core.specs.inner.Searching.{IsSearching};

use crate::laws::nodes_have_bits;
use crate::search::Search;
use ct_base::Net;
use safe_bound::CostedBox;

impl Search {
    /// The first plan column that the box in which the search stands leaves open.
    pub(crate) fn first_unfixed(&self, net: &Net, budget: u32, columns: u32) -> Option<u32>
        requires searching { IsSearching net.now budget self.now }
        requires columns { columns ≡ plan_count net.now }
        ensures some { IfSome result (IsFirstUnfixed net.now (box_of self.now.tree self.now.at)) }
        ensures none { IfNone result ((j : ℕ) → j < plan_count net.now → high_of (box_of self.now.tree self.now.at) j ≤ℤ low_of (box_of self.now.tree self.now.at) j) }
    {
        nodes_have_bits();
        first_open(&self.costed, columns)
    }
}

/// The first of so many columns that has more than one number in a box.
fn first_open(costed: &CostedBox, columns: u32) -> Option<u32>
    requires there { columns ≤ length costed.now.box.lows }
    ensures of_plan { IfSome result (λ column. column < columns) }
    ensures several { IfSome result (λ column. low_of costed.now.box column <ℤ high_of costed.now.box column) }
    ensures first { IfSome result (λ column. (j : ℕ) → j < column → high_of costed.now.box j ≤ℤ low_of costed.now.box j) }
    ensures none { IfNone result ((j : ℕ) → j < columns → high_of costed.now.box j ≤ℤ low_of costed.now.box j) }
{
    for j in 0..columns {
        if costed.low(j) < costed.high(j) {
            return Some(j);
        }
    }
    None
}
