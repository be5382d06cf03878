//! The value of prices over a box, kept under change.

ghost use Rattle.std.specs.Prelude.{◌≡◌, ℕ, ◌*◌, ◌<◌, ◌≤◌, ◌^◌, ℤ, ◌+ℤ◌, ◌-ℤ◌, ◌*ℤ◌, ◌≤ℤ◌, true, false, IfOk, length, slice_set, unsigned_abs};
ghost use Rattle.sparse_program.specs.Box.{high_of, low_of};
ghost use Rattle.sparse_program.specs.Program.{row_of, terms_of};
ghost use Rattle.sparse_program.specs.Terms.{AreTerms, IsSmall};
ghost use Rattle.sparse_program.specs.declared.limits.TheConstants.{MAX_TERMS};
ghost use Rattle.certificate_model.specs.Value.{column_value, most_price, reduced_cost};
ghost use Rattle.safe_bound.specs.Prices.{ArePrices, price_at};
ghost use Rattle.kept_value.specs.inner.Charged.{AreModest};
ghost use Rattle.kept_value.specs.Kept.{IsKeptOf, IsSlope, gain_of, reduced_at, repriced, slope_of};

mod prices;

use crate::charged::{Slopes, charge, gain, payment, slopes_of};
use safe_bound::{column_value, reduced_cost, value};
use sparse_program::{Bounds, Memory, Program};
use std::alloc::Global;
use std::marker::Model;

/// A box and prices, one of each row, with the reduced cost of each column and the value of the prices over the box. Each method takes the
/// program that they belong to.
#[derive(Debug, Drop)]
pub struct KeptValue {
    bounds: Bounds,
    prices: Vec<i64>,
    reduced: Vec<i128>,
    value: i128,
}

impl Model for KeptValue {
    ghost use Rattle.kept_value.specs.Kept.{Kept};
    ghost use Rattle.kept_value.specs.inner.Charged.{AreModerate};

    ghost Value = { Kept };

    ghost view = { λ kept. record { box = kept.bounds; prices = kept.prices.items; reduced = kept.reduced.items; value = kept.value } };

    ghost invariant = { λ kept. AreModerate kept.reduced.items kept.value };
}

impl KeptValue {
    /// Keeps the value of lawful prices over a box of a program.
    pub fn new(
        alloc: Global,
        program: &Program,
        bounds: Bounds,
        prices: Vec<i64>,
    ) -> Result<Self, Memory>
        requires columns { length bounds.lows ≡ length program.now.columns }
        requires lawful { ArePrices program.now.rows prices.items }
        ensures ranges { IfOk result (λ kept. kept.box ≡ bounds) }
        ensures prices { IfOk result (λ kept. kept.prices ≡ prices.items) }
        ensures of { IfOk result (λ kept. IsKeptOf program.now kept) }
    {
        program.is_program();
        let value = value(program, &bounds, prices.as_slice(), true);
        let reduced = reduced_costs(alloc, program, prices.as_slice())?;
        Ok(KeptValue {
            bounds,
            prices,
            reduced,
            value,
        })
    }

    /// The value of the prices as they are now over the box as it is now, in 1024ths of a unit of delay.
    pub fn value(&self) -> i128
        ensures value { result ≡ self.now.value }
        ensures small { unsigned_abs result < 2 ^ 120 }
    {
        self.value
    }

    /// The prices, one of each row.
    pub fn prices(&self) -> &[i64]
        ensures { result.now ≡ self.now.prices }
    {
        self.prices.as_slice()
    }

    /// The price of a row.
    pub fn price(&self, row: u32) -> i64
        requires { row < length self.now.prices }
        ensures { result ≡ price_at self.now.prices row }
    {
        self.prices[row as usize]
    }

    /// The box.
    pub fn bounds(&self) -> &Bounds
        ensures { result.now ≡ self.now.box }
    {
        &self.bounds
    }

    /// By how much the value would rise if the price of a row changed by a number. It touches the columns of this row alone, and changes
    /// nothing. The changed price need not be lawful.
    pub fn gain(&self, program: &Program, row: u32, by: i64) -> i128
        requires of { IsKeptOf program.now self.now }
        requires there { row < length program.now.rows }
        requires few { unsigned_abs by ≤ 2 * most_price }
        ensures { result ≡ gain_of program.now self.now.box self.now.prices row by }
    {
        program.is_program();
        let columns = gain(
            &self.bounds,
            terms_of(program, row),
            by,
            self.reduced.as_slice(),
        );
        payment(by, side_of(program, row)) + columns
    }

    /// How steeply the value rises with the price of a row, where that price is changed by a number: as it rises further, and as it falls.
    /// So a slope up that is not above 0 says that no greater change is better, and a slope down that is not below 0 that no lesser is. It
    /// touches the columns of this row alone, and changes nothing. The changed price need not be lawful.
    pub fn slopes(&self, program: &Program, row: u32, by: i64) -> Slopes
        requires of { IsKeptOf program.now self.now }
        requires there { row < length program.now.rows }
        requires few { unsigned_abs by ≤ 2 * most_price }
        ensures rising { result.up ≡ slope_of program.now self.now.box self.now.prices row by true }
        ensures falling { result.down ≡ slope_of program.now self.now.box self.now.prices row by false }
        ensures up { IsSlope program.now self.now.box self.now.prices row by result.up }
        ensures down { IsSlope program.now self.now.box self.now.prices row by result.down }
    {
        program.is_program();
        let columns = slopes_of(
            &self.bounds,
            terms_of(program, row),
            by,
            self.reduced.as_slice(),
        );
        let side = side_of(program, row);
        Slopes {
            up: side + columns.up,
            down: side + columns.down,
        }
    }

    /// Changes the price of a row by a number, so that prices stay lawful. It touches the columns of this row alone.
    pub fn change(&mut self, program: &Program, row: u32, by: i64)
        requires of { IsKeptOf program.now self.old }
        requires there { row < length program.now.rows }
        requires lawful { ArePrices program.now.rows (repriced self.old.prices row by) }
        ensures prices { self.new.prices ≡ repriced self.old.prices row by }
        ensures ranges { self.new.box ≡ self.old.box }
        ensures of { IsKeptOf program.now self.new }
    {
        program.is_program();
        self.bounds.is_box();
        let columns = charge(
            &self.bounds,
            terms_of(program, row),
            by,
            self.reduced.as_mut_slice(),
        );
        let side = payment(by, side_of(program, row));
        self.value += side + columns;
        self.prices[row as usize] += by;
    }

    /// Raises the least value of a column within its bounds, and answers the old one.
    pub fn narrow_low(&mut self, program: &Program, j: u32, low: i64) -> i64
        requires of { IsKeptOf program.now self.old }
        requires there { j < length self.old.box.lows }
        requires rises { low_of self.old.box j ≤ℤ low }
        requires within { low ≤ℤ high_of self.old.box j }
        ensures old { result ≡ low_of self.old.box j }
        ensures new { self.new.box ≡ record self.old.box { lows = slice_set self.old.box.lows j low } }
        ensures prices { self.new.prices ≡ self.old.prices }
        ensures of { IsKeptOf program.now self.new }
    {
        program.is_program();
        let before = column_part(&self.bounds, self.reduced.as_slice(), j);
        let old = self.bounds.narrow_low(j, low);
        self.bounds.is_box();
        let after = column_part(&self.bounds, self.reduced.as_slice(), j);
        self.value = moved(self.value, before, after);
        old
    }

    /// Lowers the greatest value of a column within its bounds, and answers the old one.
    pub fn narrow_high(&mut self, program: &Program, j: u32, high: i64) -> i64
        requires of { IsKeptOf program.now self.old }
        requires there { j < length self.old.box.lows }
        requires falls { high ≤ℤ high_of self.old.box j }
        requires within { low_of self.old.box j ≤ℤ high }
        ensures old { result ≡ high_of self.old.box j }
        ensures new { self.new.box ≡ record self.old.box { highs = slice_set self.old.box.highs j high } }
        ensures prices { self.new.prices ≡ self.old.prices }
        ensures of { IsKeptOf program.now self.new }
    {
        program.is_program();
        let before = column_part(&self.bounds, self.reduced.as_slice(), j);
        let old = self.bounds.narrow_high(j, high);
        self.bounds.is_box();
        let after = column_part(&self.bounds, self.reduced.as_slice(), j);
        self.value = moved(self.value, before, after);
        old
    }

    /// Sets the least value of a column back.
    pub fn undo_low(&mut self, program: &Program, j: u32, low: i64)
        requires of { IsKeptOf program.now self.old }
        requires there { j < length self.old.box.lows }
        requires within { low ≤ℤ high_of self.old.box j }
        requires small { IsSmall low }
        ensures new { self.new.box ≡ record self.old.box { lows = slice_set self.old.box.lows j low } }
        ensures prices { self.new.prices ≡ self.old.prices }
        ensures of { IsKeptOf program.now self.new }
    {
        program.is_program();
        let before = column_part(&self.bounds, self.reduced.as_slice(), j);
        self.bounds.undo_low(j, low);
        self.bounds.is_box();
        let after = column_part(&self.bounds, self.reduced.as_slice(), j);
        self.value = moved(self.value, before, after);
    }

    /// Sets the greatest value of a column back.
    pub fn undo_high(&mut self, program: &Program, j: u32, high: i64)
        requires of { IsKeptOf program.now self.old }
        requires there { j < length self.old.box.lows }
        requires within { low_of self.old.box j ≤ℤ high }
        requires small { IsSmall high }
        ensures new { self.new.box ≡ record self.old.box { highs = slice_set self.old.box.highs j high } }
        ensures prices { self.new.prices ≡ self.old.prices }
        ensures of { IsKeptOf program.now self.new }
    {
        program.is_program();
        let before = column_part(&self.bounds, self.reduced.as_slice(), j);
        self.bounds.undo_high(j, high);
        self.bounds.is_box();
        let after = column_part(&self.bounds, self.reduced.as_slice(), j);
        self.value = moved(self.value, before, after);
    }
}

/// What a column comes to.
fn column_part(bounds: &Bounds, reduced: &[i128], j: u32) -> i128
    requires there { j < length bounds.now.lows }
    requires columns { length bounds.now.lows ≡ length reduced.now }
    requires modest { AreModest reduced.now }
    ensures value { result ≡ column_value bounds.now (reduced_at reduced.now j) j }
    ensures small { unsigned_abs result ≤ 2 ^ 99 }
{
    column_value(bounds, reduced[j as usize], j)
}

/// A value where what one column comes to changes.
fn moved(value: i128, before: i128, after: i128) -> i128
    requires value { unsigned_abs value < 2 ^ 120 }
    requires before { unsigned_abs before ≤ 2 ^ 99 }
    requires after { unsigned_abs after ≤ 2 ^ 99 }
    ensures { result ≡ value +ℤ (after -ℤ before) }
{
    value + (after - before)
}

/// The reduced cost of each column.
fn reduced_costs(alloc: Global, program: &Program, prices: &[i64]) -> Result<Vec<i128>, Memory>
    requires { ArePrices program.now.rows prices.now }
    ensures long { IfOk result (λ reduced. length reduced.items ≡ length program.now.columns) }
    ensures each { IfOk result (λ reduced. (j : ℕ) → j < length program.now.columns → reduced_at reduced.items j ≡ reduced_cost program.now true (price_at prices.now) j) }
{
    let mut reduced = Vec::with_capacity(alloc, program.cols() as usize)?;
    for j in 0..program.cols() {
        reduced.push(reduced_cost(program, prices, true, j))?;
    }
    Ok(reduced)
}

/// The terms of a row.
fn terms_of(program: &Program, i: u32) -> &[(u32, i64)]
    requires { i < length program.now.rows }
    ensures value { result.now ≡ terms_of program.now.rows i }
    ensures lawful { AreTerms (length program.now.columns) result.now }
    ensures few { length result.now ≤ MAX_TERMS }
{
    program.row(i).terms.as_slice()
}

/// The right side of a row.
fn side_of(program: &Program, i: u32) -> i64
    requires { i < length program.now.rows }
    ensures value { result ≡ (row_of program.now.rows i).rhs }
    ensures small { IsSmall result }
{
    program.row(i).rhs
}
