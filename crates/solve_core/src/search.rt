//! What a search has: its tree, one box that is moved from node to node, the best plan and the least number.

ghost use Rattle.std.specs.Prelude.{◌≡◌, ◌+◌, ◌≤◌, IfOk, IsTrue, OnOk};
ghost use Rattle.branch_tree.specs.Boxes.{box_of};
ghost use Rattle.branch_tree.specs.OpenTree.{has, is_open, leaf_of, size};
ghost use Rattle.search_model.specs.Splits.{IsFirstUnfixed};
ghost use Rattle.plan_rounding.specs.Replayed.{IsReplayed};
ghost use Rattle.seed_prices.specs.Seed.{seed_of};
ghost use Rattle.solve_core.specs.declared.constants.TheConstants.{MAX_WORK};
ghost use Rattle.solve_core.specs.Shapes.{open_leaves};
ghost use Rattle.solve_core.specs.inner.Searching.{CanClose, ClosesOne, IsSearching, IsTask, KeepsTree, lesser_of};

use crate::laws::{
    closed_leaves_keep_the_tree, first_splits_keep_the_tree, lesser_delays_keep_the_tree,
    nodes_have_bits, open_leaves_are_counted, open_leaves_are_nodes, searches_begin,
};
use branch_tree::laws::{
    closing_keeps_all_boxes, leaves_stay_open, splits_cut_the_box_of_their_leaf,
};
use branch_tree::{Leaf, Tree};
use ct_base::Net;
use kept_value::KeptValue;
use listed::Memory;
use plan_rounding::{ReplayedPlan, round};
use safe_bound::CostedBox;
use seed_prices::seed;
use sparse_program::{Bounds, Program};
use std::alloc::Global;
use traffic_model::laws::delays_are_small;

/// More than the number of any leaf that is not above a delay: 2^100, while no leaf has given a number.
const NO_NUMBER: i128 = 1 << 100;

/// The state of a search.
#[derive(Debug, Drop)]
pub(crate) struct Search {
    /// The tree of its boxes.
    pub(crate) tree: Tree,
    /// The node at which both boxes stand.
    pub(crate) at: u32,
    /// The box of that node, with prices and their value.
    pub(crate) kept: KeptValue,
    /// The same box, by which leaves are shown to be empty.
    pub(crate) costed: CostedBox,
    /// The best plan that was found.
    pub(crate) best: ReplayedPlan,
    /// The least number that a closed leaf gives.
    pub(crate) least: i128,
}

impl Search {
    /// A search that has one open leaf, the seed as its prices, and the best plan that `short` and `long` lead to.
    pub(crate) fn start(
        alloc: Global,
        net: &Net,
        program: &Program,
        budget: u32,
    ) -> Result<Search, Memory>
        requires task { IsTask net.now program.now budget }
        ensures searching { IfOk result (IsSearching net.now budget) }
        ensures seed { IfOk result (λ search. search.kept.prices ≡ seed_of net.now) }
    {
        searches_begin();
        delays_are_small();
        let best = round(alloc, net, &[])?;
        let tree = Tree::new(alloc, Bounds::new(alloc, program)?)?;
        tree.is_growing();
        let kept = KeptValue::new(
            alloc,
            program,
            Bounds::new(alloc, program)?,
            seed(alloc, net)?,
        )?;
        let costed = CostedBox::new(alloc, program)?;
        Ok(Search {
            tree,
            at: 0,
            kept,
            costed,
            best,
            least: NO_NUMBER,
        })
    }

    /// Moves both boxes to an open leaf.
    pub(crate) fn enter(&mut self, net: &Net, program: &Program, budget: u32, leaf: u32)
        requires task { IsTask net.now program.now budget }
        requires searching { IsSearching net.now budget self.old }
        requires open { IsTrue (is_open self.old.tree.tree leaf) }
        ensures searching { IsSearching net.now budget self.new }
        ensures keeps { KeepsTree self.old self.new }
        ensures at { self.new.at ≡ leaf }
        ensures prices { self.new.kept.prices ≡ self.old.kept.prices }
    {
        open_leaves_are_nodes();
        self.tree.enter(program, self.at, leaf, &mut self.kept);
        self.tree.enter(program, self.at, leaf, &mut self.costed);
        self.at = leaf;
    }

    /// Closes an open leaf that gives a number, or none.
    pub(crate) fn close(
        &mut self,
        net: &Net,
        budget: u32,
        leaf: u32,
        how: Leaf,
        number: Option<i128>,
    )
        requires searching { IsSearching net.now budget self.old }
        requires can { CanClose net.now budget self.old leaf (leaf_of how) number }
        ensures searching { IsSearching net.now budget self.new }
        ensures closes { ClosesOne self.old self.new }
    {
        closed_leaves_keep_the_tree();
        closing_keeps_all_boxes();
        open_leaves_are_counted();
        self.tree.close(leaf, how);
        self.tree.is_growing();
        self.least = self.lesser(number);
    }

    /// Splits an open leaf on the first plan column that its box leaves open, and answers the numbers of its sides.
    pub(crate) fn split(
        &mut self,
        net: &Net,
        budget: u32,
        leaf: u32,
        column: u32,
    ) -> Result<(u32, u32), Memory>
        requires searching { IsSearching net.now budget self.old }
        requires few { budget ≤ MAX_WORK }
        requires open { IsTrue (is_open self.old.tree.tree leaf) }
        requires first { IsFirstUnfixed net.now (box_of self.old.tree leaf) column }
        requires within { size self.old.tree.tree + 2 ≤ budget }
        ensures searching { OnOk result (IsSearching net.now budget self.new) }
        ensures open { IfOk result (λ sides. IsTrue (is_open self.new.tree.tree sides.0) × IsTrue (is_open self.new.tree.tree sides.1)) }
        ensures one_more { OnOk result (open_leaves self.new.tree.tree ≡ open_leaves self.old.tree.tree + 1) }
        ensures larger { OnOk result (size self.new.tree.tree ≡ size self.old.tree.tree + 2) }
    {
        first_splits_keep_the_tree();
        nodes_have_bits();
        open_leaves_are_counted();
        leaves_stay_open();
        splits_cut_the_box_of_their_leaf();
        let sides = self.tree.split(leaf, column, 0)?;
        self.tree.is_growing();
        Ok(sides)
    }

    /// Takes a plan, where its delay is less than that of the best one.
    pub(crate) fn take(&mut self, net: &Net, budget: u32, plan: ReplayedPlan)
        requires searching { IsSearching net.now budget self.old }
        requires plan { IsReplayed net.now plan }
        ensures searching { IsSearching net.now budget self.new }
        ensures no_worse { self.new.best.delay ≤ plan.delay }
        ensures better { self.new.best.delay ≤ self.old.best.delay }
        ensures tree { self.new.tree ≡ self.old.tree }
        ensures least { self.new.least ≡ self.old.least }
        ensures at { self.new.at ≡ self.old.at }
        ensures kept { self.new.kept ≡ self.old.kept }
        ensures costed { self.new.costed ≡ self.old.costed }
    {
        lesser_delays_keep_the_tree();
        if plan.delay < self.best.delay {
            self.best = plan;
        }
    }

    /// The lesser of the least number and one that a leaf gives, if it gives any.
    fn lesser(&self, number: Option<i128>) -> i128
        ensures { result ≡ lesser_of self.now.least number }
    {
        match number {
            Some(number) => self.least.min(number),
            None => self.least,
        }
    }
}
