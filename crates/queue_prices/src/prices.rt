//! The prices that follow from tolls.
//!
//! With the costs of `costs`, the rows of cell i at step t are priced as follows; every other flow row has the price 0.
//!
//! (5) what the cell holds in the next step: `cost(t + 1, i)`
//! (6) what it can send: `held = stay(t, i) - cost(t, i)`; at a diverge `-held` on the floor of its parcels, and `A held` on these
//! (7) the lower row of the cap: `toll(t, i)`
//! (8) the one letter of a signal at a step: minus what the letter earns that earns most of those that the box leaves open
//! (9) a further rule row: its toll
//!
//! The seed has 1024 for `held`, and 0 for all others. So what is added to the seed is `held - 1024 = cost(t + 1, i) - cost(t, i)` there.

ghost use Rattle.std.specs.Prelude.{◌≡◌, ◌<◌, ◌≤◌, pos, unsigned_abs, length, All, IfOk, OnOk};
ghost use Rattle.certificate_model.specs.Value.{most_price};
ghost use Rattle.ct_base.specs.Validity.{IsSplit, IsValid};
ghost use Rattle.program_model.specs.Points.{program_of};
ghost use Rattle.safe_bound.specs.Prices.{ArePrices};
ghost use Rattle.seed_prices.specs.Seed.{seed_of};
ghost use Rattle.queue_prices.specs.Tolls.{IsFree};
ghost use Rattle.queue_prices.specs.Zero.{AreZero};

use crate::costs::fill_costs;
use crate::letters::{best_letter, fill_earnings, is_sum};
use crate::places::{add_at, place, value_at, zeros};
use crate::rows::Rows;
use crate::tolls::Tolls;
use certificate_model::MAX_PRICE;
use ct_base::{Memory, Net, Out};
use program_columns::units_of_flow;
use safe_bound::are_prices;
use seed_prices::laws::seeds_are_lawful;
use sparse_program::{Bounds, Program};
use std::alloc::Global;

/// The prices that follow from tolls: one of each row of a network's program, in their order, in 1024ths of a unit of delay. They are lawful,
/// and where nothing asks for a toll they are the seed.
pub(crate) fn prices_of(
    alloc: Global,
    net: &Net,
    program: &Program,
    bounds: &Bounds,
    rows: &Rows,
    seed: &[i64],
    tolls: &Tolls,
) -> Result<Vec<i64>, Memory>
    requires valid { IsValid net.now }
    requires program { program.now ≡ program_of net.now }
    requires seed { seed.now ≡ seed_of net.now }
    ensures lawful { IfOk result (λ prices. ArePrices program.now.rows prices.items) }
    ensures free { IsFree tolls.now → IfOk result (λ prices. prices.items ≡ seed.now) }
{
    seeds_are_lawful();
    let mut rises = zeros(alloc, seed.len())?;
    add_rules(alloc, program, bounds, rows, tolls, rises.as_mut_slice())?;
    add_flows(
        alloc,
        net,
        rows,
        tolls.gates.as_slice(),
        rises.as_mut_slice(),
    )?;
    lawful_sums(alloc, program, seed, rises.as_slice())
}

/// Adds what rule rows are priced beyond the seed.
fn add_rules(
    alloc: Global,
    program: &Program,
    bounds: &Bounds,
    rows: &Rows,
    tolls: &Tolls,
    rises: &mut [i64],
) -> Result<(), Memory>
    ensures free { IsFree tolls.now → AreZero rises.old → OnOk result (AreZero rises.new) }
{
    let mut earnings = zeros(alloc, program.plan_cols() as usize)?;
    fill_earnings(program, rows, tolls, earnings.as_mut_slice());
    for row in 0..rows.rules {
        let by = rise_of_rule(
            program,
            bounds,
            row,
            earnings.as_slice(),
            tolls.rules.as_slice(),
        );
        add_at(rises, row as usize, by);
    }
    Ok(())
}

/// What a rule row is priced.
fn rise_of_rule(
    program: &Program,
    bounds: &Bounds,
    row: u32,
    earnings: &[i64],
    tolls: &[i64],
) -> i64
    ensures zero { AreZero earnings.now → AreZero tolls.now → result ≡ pos 0 }
{
    if is_sum(program, row) {
        match best_letter(program, bounds, row, earnings) {
            Some(best) => 0i64.saturating_sub(best.earns),
            None => 0,
        }
    } else {
        value_at(tolls, row as usize)
    }
}

/// Adds what flow rows are priced beyond the seed.
fn add_flows(
    alloc: Global,
    net: &Net,
    rows: &Rows,
    gates: &[i64],
    rises: &mut [i64],
) -> Result<(), Memory>
    requires { IsValid net.now }
    ensures free { AreZero gates.now → AreZero rises.old → OnOk result (AreZero rises.new) }
{
    let mut costs = Vec::new(alloc);
    fill_costs(net, gates, &mut costs)?;
    for t in 0..net.steps {
        add_step(net, rows, gates, costs.as_slice(), t, rises);
    }
    Ok(())
}

/// Adds what the flow rows of step t are priced beyond the seed.
fn add_step(net: &Net, rows: &Rows, gates: &[i64], costs: &[i64], t: u32, rises: &mut [i64])
    requires valid { IsValid net.now }
    requires before { t < net.now.steps }
    ensures zero { AreZero gates.now → AreZero costs.now → AreZero rises.old → AreZero rises.new }
{
    for i in 0..net.cells.len() as u32 {
        add_cell(net, rows, gates, costs, t, i, rises);
    }
}

/// Adds what the flow rows of cell i at step t are priced beyond the seed.
fn add_cell(net: &Net, rows: &Rows, gates: &[i64], costs: &[i64], t: u32, i: u32, rises: &mut [i64])
    requires valid { IsValid net.now }
    requires before { t < net.now.steps }
    requires inside { i < length net.now.cells }
    ensures zero { AreZero gates.now → AreZero costs.now → AreZero rises.old → AreZero rises.new }
{
    let cells = net.cells.len();
    let out = &net.cell(i as usize).out;
    let stands = rows.cell(i);
    let first = rows.first(net, t, i);
    let cap = first.saturating_add(stands.cap) as usize;
    let later = place(cells, net.steps - 1 - t, i);
    let held = rise_of_holding(costs, later, place(cells, net.steps - t, i));
    add_split(rises, out, first.saturating_add(stands.parcels), held);
    add_at(rises, cap, value_at(gates, place(cells, t, i)));
    add_at(
        rises,
        cap.saturating_add(1),
        times(units_of_flow(out), held),
    );
    let holds = first.saturating_add(stands.holds) as usize;
    add_holds(rises, holds, costs, later, t + 1 < net.steps);
}

/// By how much a unit pays more than the seed lets it pay that its cell holds back for a step.
fn rise_of_holding(costs: &[i64], later: usize, now: usize) -> i64
    ensures zero { AreZero costs.now → result ≡ pos 0 }
{
    value_at(costs, later).saturating_sub(value_at(costs, now))
}

/// Adds what the row of what a cell holds in the next step is priced, where there is a next step.
fn add_holds(rises: &mut [i64], row: usize, costs: &[i64], later: usize, is_there: bool)
    ensures zero { AreZero costs.now → AreZero rises.old → AreZero rises.new }
{
    if is_there {
        add_at(rises, row, value_at(costs, later));
    }
}

/// Adds what the floor of the parcels of a diverge is priced beyond the seed.
fn add_split(rises: &mut [i64], out: &Out, row: u32, held: i64)
    ensures zero { held ≡ pos 0 → AreZero rises.old → AreZero rises.new }
{
    if let Out::Turns(_) = out {
        add_at(rises, row as usize, 0i64.saturating_sub(held));
    }
}

/// So many times a price.
fn times(units: u32, price: i64) -> i64
    ensures zero { price ≡ pos 0 → result ≡ pos 0 }
{
    i64::from(units).saturating_mul(price)
}

/// The sums of lawful prices and rises, where they are lawful: none is greater than a price can be, and if one is not allowed on its row,
/// the lawful prices alone.
fn lawful_sums(
    alloc: Global,
    program: &Program,
    seed: &[i64],
    rises: &[i64],
) -> Result<Vec<i64>, Memory>
    requires { ArePrices program.now.rows seed.now }
    ensures lawful { IfOk result (λ prices. ArePrices program.now.rows prices.items) }
    ensures zero { AreZero rises.now → IfOk result (λ prices. prices.items ≡ seed.now) }
{
    let sums = sums_of(alloc, seed, rises)?;
    if are_prices(program, sums.as_slice()) {
        Ok(sums)
    } else {
        Ok(seed.to_vec(alloc)?)
    }
}

/// The sums of prices and rises, none of them greater than a price can be.
fn sums_of(alloc: Global, seed: &[i64], rises: &[i64]) -> Result<Vec<i64>, Memory>
    requires { All (λ price. unsigned_abs price ≤ most_price) seed.now }
    ensures zero { AreZero rises.now → IfOk result (λ sums. sums.items ≡ seed.now) }
{
    let mut sums = Vec::with_capacity(alloc, seed.len())?;
    for i in 0..seed.len() {
        sums.push(sum_of(seed[i], value_at(rises, i)))?;
    }
    Ok(sums)
}

/// A price with its rise, or the greatest of that sign.
fn sum_of(price: i64, rise: i64) -> i64
    ensures zero { unsigned_abs price ≤ most_price → rise ≡ pos 0 → result ≡ price }
{
    let most = MAX_PRICE as i64;
    price.saturating_add(rise).min(most).max(-most)
}
