//! Leaves whose box leaves no plan column open.

ghost use Rattle.std.specs.Prelude.{◌≡◌, ◌≢◌, ◌<◌, ◌≤◌, ℕ, ◌≤ℤ◌, IfOk, IsTrue, OnOk, length, take};
ghost use Rattle.ct_base.specs.Validity.{IsValid};
ghost use Rattle.ct_base.specs.declared.plan.Plan as declared;
ghost use Rattle.sparse_program.specs.Box.{high_of, low_of};
ghost use Rattle.traffic_model.specs.Runs.{IsAdmissiblePlan};
ghost use Rattle.program_model.specs.Numbers.{plan_count};
ghost use Rattle.program_model.specs.RuleRows.{rule_rows};
ghost use Rattle.certificate_model.specs.Leaves.{FixesPlan, bits_of};
ghost use Rattle.rule_breaks.specs.Breaks.{IsFirstBreak, value_in};
ghost use Rattle.branch_tree.specs.Boxes.{box_of};
ghost use Rattle.branch_tree.specs.OpenTree.{is_open};
ghost use Rattle.solve_core.specs.inner.Decided.{AreBitsOfBox, AreFixedBits, ShowsEmpty};
ghost use Rattle.solve_core.specs.inner.Searching.{ClosesOne, IsSearching};

use crate::constants::TRIES_OF_A_LEAF;
use crate::laws::nodes_have_bits;
use crate::search::Search;
use branch_tree::Leaf;
use cell_replay::delay;
use cert_format::Pairs;
use ct_base::{Net, Plan};
use listed::Memory;
use plan_bits::plan_of_bits;
use plan_rounding::improved;
use rule_breaks::{RuleBreak, broken_row};
use safe_bound::CostedBox;
use std::alloc::Global;

impl Search {
    /// Closes the open leaf at which the search stands, whose box leaves no plan column open: as fixed, where its bits are those of an
    /// admissible plan, which is then improved and taken; else as empty, by the price of the first rule row that the bits break.
    pub(crate) fn close_decided(
        &mut self,
        alloc: Global,
        net: &Net,
        budget: u32,
        columns: u32,
    ) -> Result<(), Memory>
        requires valid { IsValid net.now }
        requires searching { IsSearching net.now budget self.old }
        requires open { IsTrue (is_open self.old.tree.tree self.old.at) }
        requires columns { columns ≡ plan_count net.now }
        requires decided { (j : ℕ) → j < plan_count net.now → high_of (box_of self.old.tree self.old.at) j ≤ℤ low_of (box_of self.old.tree self.old.at) j }
        ensures searching { OnOk result (IsSearching net.now budget self.new) }
        ensures closes { OnOk result (ClosesOne self.old self.new) }
    {
        let bits = self.decided_bits(alloc, net, budget, columns)?;
        match plan_of_bits(alloc, net, bits.as_slice())? {
            Some(plan) => self.close_fixed(alloc, net, budget, plan),
            None => {
                let pairs = broken_pairs(alloc, net, bits.as_slice())?;
                self.close_empty(net, budget, self.at, pairs);
                Ok(())
            }
        }
    }

    /// The bits of the box, which leaves no plan column open.
    fn decided_bits(
        &self,
        alloc: Global,
        net: &Net,
        budget: u32,
        columns: u32,
    ) -> Result<Vec<i64>, Memory>
        requires valid { IsValid net.now }
        requires searching { IsSearching net.now budget self.now }
        requires columns { columns ≡ plan_count net.now }
        requires decided { (j : ℕ) → j < plan_count net.now → high_of (box_of self.now.tree self.now.at) j ≤ℤ low_of (box_of self.now.tree self.now.at) j }
        ensures of_box { IfOk result (λ bits. AreBitsOfBox net.now (box_of self.now.tree self.now.at) bits.items) }
        ensures bits { IfOk result (λ bits. AreFixedBits net.now bits.items) }
    {
        nodes_have_bits();
        self.costed.is_box();
        let bits = bits_of_box(alloc, &self.costed, columns)?;
        Ok(bits)
    }

    /// Closes the leaf, whose box leaves one admissible plan alone.
    fn close_fixed(
        &mut self,
        alloc: Global,
        net: &Net,
        budget: u32,
        plan: Plan,
    ) -> Result<(), Memory>
        requires valid { IsValid net.now }
        requires searching { IsSearching net.now budget self.old }
        requires open { IsTrue (is_open self.old.tree.tree self.old.at) }
        requires fixes { FixesPlan net.now (box_of self.old.tree self.old.at) plan }
        ensures searching { OnOk result (IsSearching net.now budget self.new) }
        ensures closes { OnOk result (ClosesOne self.old self.new) }
    {
        let number = delay(alloc, net, &plan)?;
        let found = improved(alloc, net, plan, TRIES_OF_A_LEAF)?;
        self.take(net, budget, found);
        self.close(net, budget, self.at, Leaf::Fixed, Some(i128::from(number)));
        Ok(())
    }
}

/// The lows of the plan columns.
fn bits_of_box(alloc: Global, costed: &CostedBox, columns: u32) -> Result<Vec<i64>, Memory>
    requires { columns ≤ length costed.now.box.lows }
    ensures { IfOk result (λ bits. bits.items ≡ take columns costed.now.box.lows) }
{
    let mut bits = Vec::new(alloc);
    for column in 0..columns {
        bits.push(costed.low(column))?;
    }
    Ok(bits)
}

/// The price of the first rule row that bits break, where they are those of no admissible plan: it shows that a box with these bits alone
/// is empty.
fn broken_pairs(alloc: Global, net: &Net, bits: &[i64]) -> Result<Pairs, Memory>
    requires valid { IsValid net.now }
    requires bits { AreFixedBits net.now bits.now }
    requires none { (plan : declared.Plan) → IsAdmissiblePlan net.now plan → bits.now ≢ bits_of net.now plan.words }
    ensures { IfOk result (ShowsEmpty net.now bits.now) }
{
    let found = broken_rule(net, bits);
    let mut pairs = Pairs::new(alloc);
    pairs.push((found.row, found.price))?;
    Ok(pairs)
}

/// The first rule row that bits break, where they are those of no admissible plan.
fn broken_rule(net: &Net, bits: &[i64]) -> RuleBreak
    requires valid { IsValid net.now }
    requires bits { AreFixedBits net.now bits.now }
    requires none { (plan : declared.Plan) → IsAdmissiblePlan net.now plan → bits.now ≢ bits_of net.now plan.words }
    ensures { IsFirstBreak (value_in net.now bits.now) net.now.steps (rule_rows net.now) result }
{
    match broken_row(net, bits, net.steps) {
        Some(found) => found,
        None => unreachable!(),
    }
}
