//! The prices of the seed, row by row in the order of the program's rows.

ghost use Rattle.std.specs.Prelude.{◌≡◌, ◌<◌, ◌*◌, ◌++◌, ◌∷◌, [], ℕ, List, if◌then◌else◌, pos, IfOk, OnOk, length, replicate};
ghost use Rattle.ct_base.specs.Validity.{IsSplit, IsValid};
ghost use Rattle.ct_base.specs.declared.cell.Cell.{Cell};
ghost use Rattle.listed.specs.Below.{join_below};
ghost use Rattle.program_layout.specs.Layout.{IsLayout};
ghost use Rattle.program_model.specs.Columns.{Column, term_count};
ghost use Rattle.program_model.specs.Points.{program_of};
ghost use Rattle.program_model.specs.SwitchRows.{Term};
ghost use Rattle.safe_bound.specs.Prices.{ArePrices};
ghost use Rattle.seed_prices.specs.Seed.{move_prices, price_of_units, seed_at, seed_of, split_prices};
ghost use Rattle.traffic_model.specs.Flow.{units_of_flow};

use crate::laws::seeds_are_lawful;
use certificate_model::SCALE;
use ct_base::{Memory, Net, Out};
use lo_program::rule_row_count;
use program_columns::units_of_flow;
use program_layout::{Layout, columns_of_split, has_room, layout_of, term_count};
use std::alloc::Global;

/// The seed of a network: a price for each row of its program, in their order, in 1024ths of a unit of delay. The prices are lawful, and
/// their value is at least 0 over every box that begins no lower than the program's columns (`laws::seeds_have_no_negative_value`).
pub fn seed(alloc: Global, net: &Net) -> Result<Vec<i64>, Memory>
    requires { IsValid net.now }
    ensures value { IfOk result (λ prices. prices.items ≡ seed_of net.now) }
    ensures lawful { IfOk result (λ prices. ArePrices (program_of net.now).rows prices.items) }
{
    seeds_are_lawful();
    let layout = layout_of(alloc, net)?;
    let mut prices = Vec::new(alloc);
    push_unpriced(&mut prices, rule_row_count(net))?;
    push_steps(&mut prices, net, &layout)?;
    Ok(prices)
}

/// Adds the prices of the flow rows of all steps.
fn push_steps(prices: &mut Vec<i64>, net: &Net, layout: &Layout) -> Result<(), Memory>
    requires valid { IsValid net.now }
    requires layout { IsLayout net.now layout.now }
    ensures { OnOk result (prices.new.items ≡ prices.old.items ++ join_below net.now.steps (λ t. join_below (length net.now.cells) (seed_at net.now t))) }
{
    for t in 0..net.steps {
        push_cells(prices, net, layout, t)?;
    }
    Ok(())
}

/// Adds the prices of the flow rows of all cells at step t.
fn push_cells(prices: &mut Vec<i64>, net: &Net, layout: &Layout, t: u32) -> Result<(), Memory>
    requires valid { IsValid net.now }
    requires layout { IsLayout net.now layout.now }
    requires before { t < net.now.steps }
    ensures { OnOk result (prices.new.items ≡ prices.old.items ++ join_below (length net.now.cells) (seed_at net.now t)) }
{
    for i in 0..net.cells.len() as u32 {
        push_cell(prices, net, layout, t, i)?;
    }
    Ok(())
}

/// Adds the prices of the flow rows of cell i at step t: of its room, its floors, its move and what it holds in the next step.
fn push_cell(
    prices: &mut Vec<i64>,
    net: &Net,
    layout: &Layout,
    t: u32,
    i: u32,
) -> Result<(), Memory>
    requires valid { IsValid net.now }
    requires layout { IsLayout net.now layout.now }
    requires before { t < net.now.steps }
    requires inside { i < length net.now.cells }
    ensures { OnOk result (prices.new.items ≡ prices.old.items ++ seed_at net.now t i) }
{
    let out = &net.cell(i as usize).out;
    push_unpriced(prices, row_where(has_room(net, layout, i)))?;
    push_split(prices, out)?;
    push_move(prices, out)?;
    push_unpriced(prices, row_where(t + 1 < net.steps))?;
    Ok(())
}

/// Adds the prices of the floors of a diverge; another move has none.
fn push_split(prices: &mut Vec<i64>, out: &Out) -> Result<(), Memory>
    requires { IsSplit out.now }
    ensures { OnOk result ((cells : List Cell) (t i : ℕ) → prices.new.items ≡ prices.old.items ++ split_prices cells t i out.now) }
{
    // Each floor has two columns.
    let floors = u64::from(columns_of_split(out)) / 2;
    if let Out::Turns(_) = out {
        prices.push(-price_of(1))?;
        push_unpriced(prices, floors - 1)?;
    }
    Ok(())
}

/// Adds the prices of the rows of a move: of its switches, and of the lower and the upper row of each of its terms.
fn push_move(prices: &mut Vec<i64>, out: &Out) -> Result<(), Memory>
    requires { IsSplit out.now }
    ensures { OnOk result ((terms : List (Term Column)) → length terms ≡ term_count out.now →
        prices.new.items ≡ prices.old.items ++ move_prices (price_of_units (units_of_flow out.now)) terms) }
{
    let terms = u64::from(term_count(out));
    push_unpriced(prices, 2)?;
    prices.push(price_of(units_of_flow(out)))?;
    push_unpriced(prices, 2 * terms - 2)?;
    Ok(())
}

/// The price of so many units.
fn price_of(units: u32) -> i64
    ensures value { result ≡ price_of_units units }
{
    i64::from(SCALE) * i64::from(units)
}

/// How many rows there are of which there is one where a test holds, and none where it does not.
fn row_where(holds: bool) -> u64
    ensures { result ≡ (if holds then 1 else 0) }
{
    if holds { 1 } else { 0 }
}

/// Adds so many prices of 0.
fn push_unpriced(prices: &mut Vec<i64>, count: u64) -> Result<(), Memory>
    ensures { OnOk result (prices.new.items ≡ prices.old.items ++ replicate count (pos 0)) }
{
    for _row in 0..count {
        prices.push(0)?;
    }
    Ok(())
}
