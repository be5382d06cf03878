//! What a unit costs at least from each cell and step on.
//!
//! Backwards in time, with T steps, weight 1024 for a step that a unit waits, and the toll of the cell's gate at the step:
//!
//! (1) `cost(T, i) = 0`
//! (2) `stay(t, i) = 1024 + cost(t + 1, i)`
//! (3) `go(t, i) = floor((toll(t, i) + sum over branches k of a_k cost(t + 1, k)) / A)`
//! (4) `cost(t, i) = min(stay(t, i), go(t, i))`
//!
//! A move into one cell has one branch with `a = A = 1`, and an exit has none. The table of costs begins with the last step: its row of
//! number r has the costs where r steps are left, so that each row needs the one before it alone.

ghost use Rattle.std.specs.Prelude.{◌≡◌, ◌<◌, pos, length, OnOk};
ghost use Rattle.ct_base.specs.Validity.{IsSplit, IsValid};
ghost use Rattle.queue_prices.specs.Zero.{AreZero};

use crate::places::{place, value_at};
use certificate_model::SCALE;
use ct_base::{Memory, Net, Out};
use program_columns::units_of_flow;

/// What a unit costs that waits for a step: one unit of delay.
pub(crate) const WAIT: i64 = SCALE as i64;

/// Fills the table of costs.
#[tactic(auto, using(crate::proofs::ZeroLaws::zero_push))]
pub(crate) fn fill_costs(net: &Net, gates: &[i64], costs: &mut Vec<i64>) -> Result<(), Memory>
    requires valid { IsValid net.now }
    ensures zero { AreZero gates.now → OnOk result (AreZero costs.new.items) }
{
    costs.clear();
    for _cell in 0..net.cells.len() {
        costs.push(0)?;
    }
    for left in 0..net.steps {
        push_step(net, gates, costs, left)?;
    }
    Ok(())
}

/// Adds the row of costs where one step more is left than `left`.
fn push_step(net: &Net, gates: &[i64], costs: &mut Vec<i64>, left: u32) -> Result<(), Memory>
    requires valid { IsValid net.now }
    requires before { left < net.now.steps }
    ensures zero { AreZero gates.now → AreZero costs.old.items → OnOk result (AreZero costs.new.items) }
{
    for i in 0..net.cells.len() as u32 {
        let cost = Going::at(net, gates, costs.as_slice(), left, i).least();
        costs.push(cost)?;
    }
    Ok(())
}

/// What it costs to stay in a cell for a step, and to leave it.
#[derive(Clone, Copy, Debug)]
pub(crate) struct Going {
    pub(crate) stay: i64,
    pub(crate) go: i64,
}

impl Going {
    /// What it costs in cell i, where the table has the costs behind the step: so many steps are left then.
    pub(crate) fn at(net: &Net, gates: &[i64], costs: &[i64], left: u32, i: u32) -> Going
        requires valid { IsValid net.now }
        requires before { left < net.now.steps }
        requires inside { i < length net.now.cells }
        ensures stay { AreZero costs.now → result.stay ≡ pos 1024 }
        ensures go { AreZero gates.now → AreZero costs.now → result.go ≡ pos 0 }
    {
        let cells = net.cells.len();
        let t = net.steps - 1 - left;
        let toll = value_at(gates, place(cells, t, i));
        Going {
            stay: WAIT.saturating_add(value_at(costs, place(cells, left, i))),
            go: cost_of_going(&net.cell(i as usize).out, toll, costs, cells, left),
        }
    }

    /// The less of the two.
    pub(crate) fn least(&self) -> i64
        ensures { self.now.stay ≡ pos 1024 → self.now.go ≡ pos 0 → result ≡ pos 0 }
    {
        self.stay.min(self.go)
    }
}

/// What it costs a unit to leave by a move, with a toll for a unit of flow.
fn cost_of_going(out: &Out, toll: i64, costs: &[i64], cells: usize, left: u32) -> i64
    requires { IsSplit out.now }
    ensures zero { toll ≡ pos 0 → AreZero costs.now → result ≡ pos 0 }
{
    match out {
        Out::Exit => toll,
        Out::To(next) => toll.saturating_add(value_at(costs, place(cells, left, *next))),
        Out::Turns(turns) => {
            cost_of_parcel(turns.as_slice(), toll, costs, cells, left).div_euclid(i64::from(
                units_of_flow(out),
            ))
        }
    }
}

/// What it costs a parcel to leave by a diverge, with a toll.
fn cost_of_parcel(turns: &[(u32, u32)], toll: i64, costs: &[i64], cells: usize, left: u32) -> i64
    ensures zero { toll ≡ pos 0 → AreZero costs.now → result ≡ pos 0 }
{
    let mut cost = toll;
    for (next, units) in turns {
        cost = cost.saturating_add(cost_of_branch(
            *units,
            value_at(costs, place(cells, left, *next)),
        ));
    }
    cost
}

/// What the units of a branch cost.
fn cost_of_branch(units: u32, cost: i64) -> i64
    ensures zero { cost ≡ pos 0 → result ≡ pos 0 }
{
    i64::from(units).saturating_mul(cost)
}
