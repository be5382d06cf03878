//! The turns of a search: each takes one open leaf, and closes it, splits it, or works on its prices.

ghost use Rattle.std.specs.Prelude.{◌≡◌, ℕ, ◌+◌, ◌<◌, ◌≤◌, false, pos, IsTrue, OnOk};
ghost use Rattle.branch_tree.specs.Boxes.{box_of};
ghost use Rattle.branch_tree.specs.OpenTree.{is_open, size};
ghost use Rattle.program_model.specs.Numbers.{plan_count};
ghost use Rattle.search_model.specs.Splits.{IsFirstUnfixed};
ghost use Rattle.solve_core.specs.inner.Running.{AreLists, IsRunning, turns_left};
ghost use Rattle.solve_core.specs.inner.Searching.{IsSearching, IsTask, KeepsTree};
ghost use Rattle.solve_core.specs.Earned.{AreWorked};

use crate::constants::{ROUNDS_OF_A_LEAF, ROUNDS_OF_THE_ROOT};
use crate::laws::unfixed_leaves_have_room;
use crate::lists::Lists;
use crate::search::Search;
use crate::turn::{Turn, next};
use ct_base::Net;
use listed::Memory;
use lo_program::rule_row_count;
use queue_prices::{Relaxation, Tolls};
use sparse_program::Program;
use std::alloc::Global;
use std::collections::BinaryHeap;

/// A search with the leaves that wait.
#[derive(Debug, Drop)]
pub(crate) struct Running {
    pub(crate) search: Search,
    /// The leaves that wait, the next one first.
    pub(crate) waiting: BinaryHeap<Turn, Global>,
    pub(crate) lists: Lists,
    pub(crate) relaxation: Relaxation,
    /// How many more leaves are refined before they are split: as many as there can be.
    pub(crate) refinings: u32,
}

impl Running {
    /// Takes one turn after another until no leaf is open.
    pub(crate) fn run(
        &mut self,
        alloc: Global,
        net: &Net,
        program: &Program,
        budget: u32,
    ) -> Result<(), Memory>
        requires task { IsTask net.now program.now budget }
        requires running { IsRunning net.now budget self.old }
        ensures running { OnOk result (IsRunning net.now budget self.new) }
        ensures whole { OnOk result ((n : ℕ) → is_open self.new.search.tree.tree n ≡ false) }
    {
        'turns: while let Some(turn) = next(&mut self.waiting, &self.search.tree) {
            self.take_turn(alloc, net, program, budget, turn)?;
        }
        Ok(())
    }

    /// The turn of an open leaf: one that leaves no plan column open is closed at once.
    fn take_turn(
        &mut self,
        alloc: Global,
        net: &Net,
        program: &Program,
        budget: u32,
        turn: Turn,
    ) -> Result<(), Memory>
        requires task { IsTask net.now program.now budget }
        requires running { IsRunning net.now budget self.old }
        requires open { IsTrue (is_open self.old.search.tree.tree turn.leaf) }
        ensures running { OnOk result (IsRunning net.now budget self.new) }
        ensures less { OnOk result (turns_left budget self.new < turns_left budget self.old) }
    {
        self.search.enter(net, program, budget, turn.leaf);
        let columns = plan_columns(net, program, budget);
        match self.search.first_unfixed(net, budget, columns) {
            None => self.search.close_decided(alloc, net, budget, columns),
            Some(column) => self.take_unfixed(alloc, net, program, budget, turn, column),
        }
    }

    /// The turn of a leaf that leaves a plan column open: it is split once it was refined, while two more nodes are within the budget.
    fn take_unfixed(
        &mut self,
        alloc: Global,
        net: &Net,
        program: &Program,
        budget: u32,
        turn: Turn,
        column: u32,
    ) -> Result<(), Memory>
        requires task { IsTask net.now program.now budget }
        requires running { IsRunning net.now budget self.old }
        requires open { IsTrue (is_open self.old.search.tree.tree turn.leaf) }
        requires at { self.old.search.at ≡ turn.leaf }
        requires first { IsFirstUnfixed net.now (box_of self.old.search.tree turn.leaf) column }
        ensures running { OnOk result (IsRunning net.now budget self.new) }
        ensures less { OnOk result (turns_left budget self.new < turns_left budget self.old) }
    {
        let is_spent = budget < self.search.tree.nodes() + 2;
        if is_spent {
            return self.close_spent(alloc, net, program, budget, turn, column);
        }
        if turn.is_refined || self.refinings == 0 {
            return self.split(alloc, net, program, budget, turn, column);
        }
        self.refine(alloc, net, program, budget, turn)
    }

    /// Works on the prices of a leaf, which is closed where they give the delay, and else waits with its own value.
    fn refine(
        &mut self,
        alloc: Global,
        net: &Net,
        program: &Program,
        budget: u32,
        turn: Turn,
    ) -> Result<(), Memory>
        requires task { IsTask net.now program.now budget }
        requires running { IsRunning net.now budget self.old }
        requires open { IsTrue (is_open self.old.search.tree.tree turn.leaf) }
        requires at { self.old.search.at ≡ turn.leaf }
        requires some { 0 < self.old.refinings }
        ensures running { OnOk result (IsRunning net.now budget self.new) }
        ensures less { OnOk result (turns_left budget self.new < turns_left budget self.old) }
    {
        let tolls = work(
            alloc,
            net,
            program,
            budget,
            &mut self.search,
            &self.lists,
            &mut self.relaxation,
            &turn,
        )?;
        if self.search.number() >= i128::from(self.search.best.delay) {
            return self.search.close_priced(alloc, net, program, budget);
        }
        self.refinings -= 1;
        let list = self
            .lists
            .keep(alloc, net, self.search.kept.prices(), tolls)?;
        let refined = Turn {
            urgency: -self.search.kept.value(),
            list: Some(list),
            is_refined: true,
            ..turn
        };
        self.waiting.push(refined)?;
        Ok(())
    }

    /// Closes a leaf by prices that were worked on once more, where the budget is spent.
    fn close_spent(
        &mut self,
        alloc: Global,
        net: &Net,
        program: &Program,
        budget: u32,
        turn: Turn,
        column: u32,
    ) -> Result<(), Memory>
        requires task { IsTask net.now program.now budget }
        requires running { IsRunning net.now budget self.old }
        requires open { IsTrue (is_open self.old.search.tree.tree turn.leaf) }
        requires at { self.old.search.at ≡ turn.leaf }
        requires first { IsFirstUnfixed net.now (box_of self.old.search.tree turn.leaf) column }
        requires full { budget < size self.old.search.tree.tree + 2 }
        ensures running { OnOk result (IsRunning net.now budget self.new) }
        ensures less { OnOk result (turns_left budget self.new < turns_left budget self.old) }
    {
        unfixed_leaves_have_room();
        work(
            alloc,
            net,
            program,
            budget,
            &mut self.search,
            &self.lists,
            &mut self.relaxation,
            &turn,
        )?;
        self.search.close_priced(alloc, net, program, budget)
    }

    /// Splits a leaf, and judges both sides.
    fn split(
        &mut self,
        alloc: Global,
        net: &Net,
        program: &Program,
        budget: u32,
        turn: Turn,
        column: u32,
    ) -> Result<(), Memory>
        requires task { IsTask net.now program.now budget }
        requires running { IsRunning net.now budget self.old }
        requires open { IsTrue (is_open self.old.search.tree.tree turn.leaf) }
        requires first { IsFirstUnfixed net.now (box_of self.old.search.tree turn.leaf) column }
        requires within { size self.old.search.tree.tree + 2 ≤ budget }
        ensures running { OnOk result (IsRunning net.now budget self.new) }
        ensures less { OnOk result (turns_left budget self.new < turns_left budget self.old) }
    {
        let (left, right) = self.search.split(net, budget, turn.leaf, column)?;
        self.judge_side(alloc, net, program, budget, turn.below(left), column)?;
        self.judge_side(alloc, net, program, budget, turn.below(right), column)
    }

    /// Closes a side of a split where it leaves no plan column open or is shown to be empty at once; else it waits.
    fn judge_side(
        &mut self,
        alloc: Global,
        net: &Net,
        program: &Program,
        budget: u32,
        turn: Turn,
        column: u32,
    ) -> Result<(), Memory>
        requires task { IsTask net.now program.now budget }
        requires running { IsRunning net.now budget self.old }
        requires column { column < plan_count net.now }
        ensures running { OnOk result (IsRunning net.now budget self.new) }
        ensures no_more { OnOk result (turns_left budget self.new ≤ turns_left budget self.old) }
    {
        if !self.search.tree.is_open(turn.leaf) {
            return Ok(());
        }
        self.search.enter(net, program, budget, turn.leaf);
        let columns = plan_columns(net, program, budget);
        if self.search.first_unfixed(net, budget, columns).is_none() {
            return self.search.close_decided(alloc, net, budget, columns);
        }
        match self.search.empty_pairs(
            alloc,
            net,
            program,
            budget,
            column,
            rule_row_count(net) as u32,
        )? {
            Some(pairs) => self.search.close_empty(net, budget, turn.leaf, pairs),
            None => self.waiting.push(turn)?,
        }
        Ok(())
    }
}

/// How many plan columns a program has.
fn plan_columns(net: &Net, program: &Program, budget: u32) -> u32
    requires { IsTask net.now program.now budget }
    ensures { result ≡ plan_count net.now }
{
    program.plan_cols()
}

/// Works on the prices of the leaf at which a search stands, from the seed, a list, or those of tolls that are raised first; and answers
/// these tolls.
fn work(
    alloc: Global,
    net: &Net,
    program: &Program,
    budget: u32,
    search: &mut Search,
    lists: &Lists,
    relaxation: &mut Relaxation,
    turn: &Turn,
) -> Result<Tolls, Memory>
    requires task { IsTask net.now program.now budget }
    requires searching { IsSearching net.now budget search.old }
    requires lists { AreLists net.now lists.now }
    ensures searching { IsSearching net.now budget search.new }
    ensures keeps { KeepsTree search.old search.new }
    ensures at { search.new.at ≡ search.old.at }
    ensures worked { OnOk result (AreWorked net.now (pos search.new.best.delay) (box_of search.new.tree search.new.at) search.new.kept.prices) }
{
    let rounds = rounds_of(turn);
    let from = lists.tolls(turn.list);
    let tolls = relaxation.raise(alloc, net, program, search.kept.bounds(), from, rounds)?;
    let seed = lists.seed.as_slice();
    let further = relaxation.prices(alloc, net, program, search.kept.bounds(), seed, &tolls)?;
    let other = lists.list(net, turn.list);
    search.refine(alloc, net, program, budget, seed, other, further.as_slice())?;
    Ok(tolls)
}

/// In how many rounds the tolls of a leaf are raised.
fn rounds_of(turn: &Turn) -> u32 {
    if turn.depth == 0 {
        ROUNDS_OF_THE_ROOT
    } else {
        ROUNDS_OF_A_LEAF
    }
}
