//! The prices of the leaf at which a search stands, and how it is closed by them.

ghost use Rattle.std.specs.Prelude.{◌≡◌, ◌<◌, ◌≤◌, ◌^◌, ℤ, pos, ◌+ℤ◌, ◌-ℤ◌, ◌*ℤ◌, ◌≤ℤ◌, true, unsigned_abs, IfSome, IsTrue, OnOk};
ghost use Rattle.branch_tree.specs.Boxes.{box_of};
ghost use Rattle.branch_tree.specs.OpenTree.{is_open, size};
ghost use Rattle.certificate_model.specs.Leaves.{IsCeiling};
ghost use Rattle.certificate_model.specs.Value.{scale, value};
ghost use Rattle.kept_value.specs.Kept.{IsKeptOf};
ghost use Rattle.program_model.specs.Points.{program_of};
ghost use Rattle.safe_bound.specs.Prices.{ArePrices, price_at};
ghost use Rattle.seed_prices.specs.Seed.{seed_of};
ghost use Rattle.solve_core.specs.Earned.{AreWorked, value_in};
ghost use Rattle.solve_core.specs.Searched.{IsReached};
ghost use Rattle.solve_core.specs.inner.Searching.{ClosesOne, IsSearching, IsTask, KeepsTree};

use crate::pairs::pairs_of;
use crate::search::Search;
use branch_tree::Leaf;
use certificate_model::SCALE;
use ct_base::Net;
use dual_prices::work;
use kept_value::KeptValue;
use listed::Memory;
use safe_bound::value;
use seed_prices::laws::seeds_are_lawful;
use sparse_program::Program;
use std::alloc::Global;

impl Search {
    /// Takes those of some lists of prices that are worth most over the box, the seed or two others, and works on them.
    pub(crate) fn refine(
        &mut self,
        alloc: Global,
        net: &Net,
        program: &Program,
        budget: u32,
        seed: &[i64],
        other: Option<&[i64]>,
        further: &[i64],
    ) -> Result<(), Memory>
        requires task { IsTask net.now program.now budget }
        requires searching { IsSearching net.now budget self.old }
        requires seed { seed.now ≡ seed_of net.now }
        requires other { IfSome other (λ prices. ArePrices program.now.rows prices.now) }
        requires further { ArePrices program.now.rows further.now }
        ensures searching { IsSearching net.now budget self.new }
        ensures keeps { KeepsTree self.old self.new }
        ensures at { self.new.at ≡ self.old.at }
        ensures worked { OnOk result (AreWorked net.now (pos self.new.best.delay) (box_of self.new.tree self.new.at) self.new.kept.prices) }
    {
        seeds_are_lawful();
        take_better(program, &mut self.kept, seed, other);
        take_dearer(program, &mut self.kept, further);
        raise(alloc, net, program, &mut self.kept, self.best.delay)?;
        Ok(())
    }

    /// The least whole number of units that is not below the value of the prices.
    pub(crate) fn number(&self) -> i128
        ensures { IsCeiling self.now.kept.value result }
    {
        ceiling(self.kept.value())
    }

    /// Closes the open leaf at which the search stands by its prices, on which work was done.
    pub(crate) fn close_priced(
        &mut self,
        alloc: Global,
        net: &Net,
        program: &Program,
        budget: u32,
    ) -> Result<(), Memory>
        requires task { IsTask net.now program.now budget }
        requires searching { IsSearching net.now budget self.old }
        requires open { IsTrue (is_open self.old.tree.tree self.old.at) }
        requires worked { AreWorked net.now (pos self.old.best.delay) (box_of self.old.tree self.old.at) self.old.kept.prices }
        requires reaches { (n : ℤ) → IsCeiling self.old.kept.value n → IsReached net.now budget (pos self.old.best.delay) n (size self.old.tree.tree) }
        ensures searching { OnOk result (IsSearching net.now budget self.new) }
        ensures closes { OnOk result (ClosesOne self.old self.new) }
    {
        let number = ceiling(self.kept.value());
        let pairs = pairs_of(alloc, self.kept.prices())?;
        self.close(net, budget, self.at, Leaf::Priced(pairs), Some(number));
        Ok(())
    }
}

/// Takes the seed as prices, or other ones where these are worth more over the box.
fn take_better(program: &Program, kept: &mut KeptValue, seed: &[i64], other: Option<&[i64]>)
    requires of { IsKeptOf program.now kept.old }
    requires seed { ArePrices program.now.rows seed.now }
    requires other { IfSome other (λ prices. ArePrices program.now.rows prices.now) }
    ensures of { IsKeptOf program.now kept.new }
    ensures ranges { kept.new.box ≡ kept.old.box }
    ensures above { value program.now true kept.new.box (price_at seed.now) ≤ℤ kept.new.value }
{
    kept.set_prices(program, seed);
    if let Some(other) = other {
        take_dearer(program, kept, other);
    }
}

/// Takes other prices where these are worth more over the box.
fn take_dearer(program: &Program, kept: &mut KeptValue, other: &[i64])
    requires of { IsKeptOf program.now kept.old }
    requires other { ArePrices program.now.rows other.now }
    ensures of { IsKeptOf program.now kept.new }
    ensures ranges { kept.new.box ≡ kept.old.box }
    ensures above { kept.old.value ≤ℤ kept.new.value }
{
    if kept.value() < value(program, kept.bounds(), other, true) {
        kept.set_prices(program, other);
    }
}

/// Works on prices that are worth no less than the seed, until they give a delay, are settled, or have risen by one unit of delay a row.
fn raise(
    alloc: Global,
    net: &Net,
    program: &Program,
    kept: &mut KeptValue,
    delay: u64,
) -> Result<(), Memory>
    requires program { program.now ≡ program_of net.now }
    requires of { IsKeptOf program.now kept.old }
    requires above { value_in net.now kept.old.box (seed_of net.now) ≤ℤ kept.old.value }
    ensures of { IsKeptOf program.now kept.new }
    ensures ranges { kept.new.box ≡ kept.old.box }
    ensures worked { OnOk result (AreWorked net.now (pos delay) kept.new.box kept.new.prices) }
{
    work(alloc, program, kept, enough_for(delay))?;
    Ok(())
}

/// The least value that gives a delay: its least whole number of units is then not below it.
fn enough_for(delay: u64) -> i128
    ensures { result ≡ (pos scale *ℤ (pos delay -ℤ pos 1)) +ℤ pos 1 }
{
    i128::from(SCALE) * (i128::from(delay) - 1) + 1
}

/// The least whole number of units that is not below a value.
fn ceiling(value: i128) -> i128
    requires { unsigned_abs value < 2 ^ 120 }
    ensures { IsCeiling value result }
{
    let scale = i128::from(SCALE);
    (value + (scale - 1)).div_euclid(scale)
}
