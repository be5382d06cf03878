//! A box that is narrowed and set back, with the least that the costs of its columns come to in it. So the value of a few prices touches
//! the columns of their rows alone: all others come to what is kept.

ghost use Rattle.std.specs.Prelude.{◌≡◌, ◌≢◌, ℕ, ◌*◌, ◌<◌, ◌≤◌, ◌^◌, ℤ, pos, ◌+ℤ◌, ◌-ℤ◌, ◌*ℤ◌, ◌≤ℤ◌, true, All, IfOk, length, slice_set, unsigned_abs};
ghost use Rattle.sparse_program.specs.Box.{IsBox, high_of, low_of, ranges_of};
ghost use Rattle.sparse_program.specs.Program.{row_of, terms_of};
ghost use Rattle.sparse_program.specs.Terms.{AreTerms, IsSmall, coefficient};
ghost use Rattle.sparse_program.specs.declared.limits.TheConstants.{MAX_NUMBER};
ghost use Rattle.certificate_model.specs.Value.{AreLawful, column_value, cost_counted, most_price, value_of_pairs};
ghost use Rattle.safe_bound.specs.Costed.{IsCostedOf, least_costs};
ghost use Rattle.safe_bound.specs.inner.Paid.{IsLight, IsUnnamed, IsUnpaid, least_left, paid_at, paid_for, paid_for_sides};

use certificate_model::SCALE;
use sparse_program::{Bounds, Memory, Program};
use std::alloc::Global;
use std::marker::Model;

/// A box of a program, and the least that the costs of the program's columns come to in it.
#[derive(Debug, Drop)]
pub struct CostedBox {
    bounds: Bounds,
    /// The least that the costs of all columns come to, in 1024ths of a unit of delay.
    costs: i128,
    /// What rows pay for each column: 0 but while a value is computed.
    paid: Vec<i128>,
}

impl Model for CostedBox {
    ghost use Rattle.std.specs.Prelude.{length};
    ghost use Rattle.safe_bound.specs.Costed.{Costed};
    ghost use Rattle.safe_bound.specs.inner.Paid.{IsUnpaid};

    ghost Value = { Costed };

    ghost view = { λ kept. record { box = kept.bounds; costs = kept.costs } };

    ghost invariant = { λ kept. IsUnpaid (length kept.bounds.lows) kept.paid.items };
}

impl CostedBox {
    /// The box of all points of a program: the bounds of its columns.
    pub fn new(alloc: Global, program: &Program) -> Result<Self, Memory>
        ensures ranges { IfOk result (λ costed. costed.box ≡ ranges_of program.now.columns) }
        ensures of { IfOk result (λ costed. IsCostedOf program.now costed) }
    {
        let bounds = Bounds::new(alloc, program)?;
        let costs = least_costs(program, &bounds);
        let paid = vec![in alloc; 0i128; program.cols() as usize]?;
        Ok(CostedBox {
            bounds,
            costs,
            paid,
        })
    }

    /// Does nothing. A caller that calls it knows what every box keeps.
    pub fn is_box(&self)
        ensures { IsBox self.now.box }
    {
        self.bounds.is_box();
    }

    /// The number of columns.
    pub fn cols(&self) -> u32
        ensures value { result ≡ length self.now.box.lows }
    {
        self.bounds.cols()
    }

    /// The least value of a column.
    pub fn low(&self, j: u32) -> i64
        requires { j < length self.now.box.lows }
        ensures value { result ≡ low_of self.now.box j }
        ensures below { result ≤ℤ high_of self.now.box j }
        ensures small { IsSmall result }
    {
        self.bounds.low(j)
    }

    /// The greatest value of a column.
    pub fn high(&self, j: u32) -> i64
        requires { j < length self.now.box.lows }
        ensures value { result ≡ high_of self.now.box j }
        ensures above { low_of self.now.box j ≤ℤ result }
        ensures small { IsSmall result }
    {
        self.bounds.high(j)
    }

    /// Does nothing. A caller that calls it knows that the kept costs are small.
    fn has_small_costs(&self, program: &Program)
        requires { IsCostedOf program.now self.now }
        ensures { unsigned_abs self.now.costs ≤ 2 ^ 70 }
    {
        program.is_program();
        self.bounds.is_box();
    }

    /// Raises the least value of a column within its bounds, and answers the old one.
    pub fn narrow_low(&mut self, program: &Program, j: u32, low: i64) -> i64
        requires of { IsCostedOf program.now self.old }
        requires there { j < length self.old.box.lows }
        requires rises { low_of self.old.box j ≤ℤ low }
        requires within { low ≤ℤ high_of self.old.box j }
        ensures old { result ≡ low_of self.old.box j }
        ensures new { self.new.box ≡ record self.old.box { lows = slice_set self.old.box.lows j low } }
        ensures of { IsCostedOf program.now self.new }
    {
        self.has_small_costs(program);
        let before = column_cost(program, &self.bounds, j);
        let old = self.bounds.narrow_low(j, low);
        let after = column_cost(program, &self.bounds, j);
        self.costs = with_change(self.costs, before, after);
        old
    }

    /// Lowers the greatest value of a column within its bounds, and answers the old one.
    pub fn narrow_high(&mut self, program: &Program, j: u32, high: i64) -> i64
        requires of { IsCostedOf program.now self.old }
        requires there { j < length self.old.box.lows }
        requires falls { high ≤ℤ high_of self.old.box j }
        requires within { low_of self.old.box j ≤ℤ high }
        ensures old { result ≡ high_of self.old.box j }
        ensures new { self.new.box ≡ record self.old.box { highs = slice_set self.old.box.highs j high } }
        ensures of { IsCostedOf program.now self.new }
    {
        self.has_small_costs(program);
        let before = column_cost(program, &self.bounds, j);
        let old = self.bounds.narrow_high(j, high);
        let after = column_cost(program, &self.bounds, j);
        self.costs = with_change(self.costs, before, after);
        old
    }

    /// Sets the least value of a column back.
    pub fn undo_low(&mut self, program: &Program, j: u32, low: i64)
        requires of { IsCostedOf program.now self.old }
        requires there { j < length self.old.box.lows }
        requires within { low ≤ℤ high_of self.old.box j }
        requires small { IsSmall low }
        ensures new { self.new.box ≡ record self.old.box { lows = slice_set self.old.box.lows j low } }
        ensures of { IsCostedOf program.now self.new }
    {
        self.has_small_costs(program);
        let before = column_cost(program, &self.bounds, j);
        self.bounds.undo_low(j, low);
        let after = column_cost(program, &self.bounds, j);
        self.costs = with_change(self.costs, before, after);
    }

    /// Sets the greatest value of a column back.
    pub fn undo_high(&mut self, program: &Program, j: u32, high: i64)
        requires of { IsCostedOf program.now self.old }
        requires there { j < length self.old.box.lows }
        requires within { low_of self.old.box j ≤ℤ high }
        requires small { IsSmall high }
        ensures new { self.new.box ≡ record self.old.box { highs = slice_set self.old.box.highs j high } }
        ensures of { IsCostedOf program.now self.new }
    {
        self.has_small_costs(program);
        let before = column_cost(program, &self.bounds, j);
        self.bounds.undo_high(j, high);
        let after = column_cost(program, &self.bounds, j);
        self.costs = with_change(self.costs, before, after);
    }

    /// The value of prices over the box, as pairs of a row and its price, in 1024ths of a unit of delay: with costs, or with all costs left
    /// out. It takes no memory, and touches the columns of the pairs' rows alone.
    ///
    /// A column for which no row pays comes to its cost within its bounds, which is kept. So the rows of the pairs pay first: each for its
    /// right side and for its columns. Then each of their columns is settled: it changes the sum by what it comes to for its reduced cost,
    /// less what it comes to for its cost, and is cleared, so that where a later row names it again it adds nothing.
    pub fn value(&mut self, program: &Program, pairs: &[(u32, i64)], with_cost: bool) -> i128
        requires of { IsCostedOf program.now self.old }
        requires lawful { AreLawful program.now.rows pairs.now }
        ensures value { result ≡ value_of_pairs program.now with_cost self.old.box pairs.now }
        ensures small { unsigned_abs result < 2 ^ 120 }
        ensures same { self.new ≡ self.old }
    {
        self.has_small_costs(program);
        let added = added(
            program,
            &self.bounds,
            with_cost,
            pairs,
            self.paid.as_mut_slice(),
        );
        if with_cost { self.costs + added } else { added }
    }
}

/// What one unit of a column costs, or nothing where costs are left out.
fn cost_of(program: &Program, with_cost: bool, j: u32) -> i64
    requires { j < length program.now.columns }
    ensures value { result ≡ cost_counted program.now with_cost j }
    ensures small { unsigned_abs result ≤ 2 ^ 30 }
{
    if with_cost {
        i64::from(SCALE) * program.col(j).cost
    } else {
        0
    }
}

/// The least that a column comes to within its bounds, where one unit of it costs so much: at its low if that costs something, at its
/// high if it saves something.
pub fn column_value(bounds: &Bounds, cost: i128, j: u32) -> i128
    requires there { j < length bounds.now.lows }
    requires few { unsigned_abs cost < 2 ^ 80 }
    ensures value { result ≡ column_value bounds.now cost j }
    ensures small { unsigned_abs result ≤ unsigned_abs cost * MAX_NUMBER }
{
    if cost >= 0 {
        cost * i128::from(bounds.low(j))
    } else {
        cost * i128::from(bounds.high(j))
    }
}

/// The same where one unit of the column costs no more than in a program, so that 64 bits hold it.
fn cost_value(bounds: &Bounds, cost: i64, j: u32) -> i64
    requires there { j < length bounds.now.lows }
    requires few { unsigned_abs cost ≤ 2 ^ 30 }
    ensures value { result ≡ column_value bounds.now cost j }
    ensures small { unsigned_abs result ≤ 2 ^ 50 }
{
    if cost >= 0 {
        cost * bounds.low(j)
    } else {
        cost * bounds.high(j)
    }
}

/// The least that the cost of a column comes to within its bounds.
fn column_cost(program: &Program, bounds: &Bounds, j: u32) -> i64
    requires there { j < length program.now.columns }
    requires columns { length bounds.now.lows ≡ length program.now.columns }
    ensures value { result ≡ column_value bounds.now (cost_counted program.now true j) j }
    ensures small { unsigned_abs result ≤ 2 ^ 50 }
{
    cost_value(bounds, cost_of(program, true, j), j)
}

/// A sum of costs where the cost of one column changes.
fn with_change(costs: i128, before: i64, after: i64) -> i128
    requires costs { unsigned_abs costs ≤ 2 ^ 70 }
    requires before { unsigned_abs before ≤ 2 ^ 50 }
    requires after { unsigned_abs after ≤ 2 ^ 50 }
    ensures { result ≡ costs +ℤ (after -ℤ before) }
{
    costs + i128::from(after - before)
}

/// The least that the costs of all columns come to.
fn least_costs(program: &Program, bounds: &Bounds) -> i128
    requires columns { length bounds.now.lows ≡ length program.now.columns }
    ensures { result ≡ least_costs program.now bounds.now }
{
    program.is_program();
    bounds.is_box();
    let mut costs = 0;
    for j in 0..program.cols() {
        costs += i128::from(column_cost(program, bounds, j));
    }
    costs
}

/// The terms of a row.
fn terms_of(program: &Program, i: u32) -> &[(u32, i64)]
    requires { i < length program.now.rows }
    ensures value { result.now ≡ terms_of program.now.rows i }
    ensures lawful { AreTerms (length program.now.columns) result.now }
{
    program.row(i).terms.as_slice()
}

/// The right side of a row.
fn side_of(program: &Program, i: u32) -> i64
    requires { i < length program.now.rows }
    ensures value { result ≡ (row_of program.now.rows i).rhs }
    ensures small { IsSmall result }
{
    program.row(i).rhs
}

/// What pairs add to what all columns come to for their costs.
fn added(
    program: &Program,
    bounds: &Bounds,
    with_cost: bool,
    pairs: &[(u32, i64)],
    paid: &mut [i128],
) -> i128
    requires lawful { AreLawful program.now.rows pairs.now }
    requires columns { length bounds.now.lows ≡ length program.now.columns }
    requires unpaid { IsUnpaid (length program.now.columns) paid.old }
    ensures value { result +ℤ least_left program.now with_cost bounds.now paid.new ≡ value_of_pairs program.now with_cost bounds.now pairs.now }
    ensures small { unsigned_abs (value_of_pairs program.now with_cost bounds.now pairs.now) < 2 ^ 120 }
    ensures few { unsigned_abs result ≤ 2 ^ 122 }
    ensures unpaid { IsUnpaid (length program.now.columns) paid.new }
{
    program.is_program();
    bounds.is_box();
    let sides = pay(program, pairs, paid);
    let settled = settle(program, bounds, with_cost, pairs, paid);
    sides + settled
}

/// Lets each row of the pairs pay for its columns, and answers what they pay for their right sides.
fn pay(program: &Program, pairs: &[(u32, i64)], paid: &mut [i128]) -> i128
    requires lawful { AreLawful program.now.rows pairs.now }
    requires unpaid { IsUnpaid (length program.now.columns) paid.old }
    ensures sides { result ≡ paid_for_sides program.now.rows pairs.now }
    ensures small { unsigned_abs result ≤ 2 ^ 79 }
    ensures paid { (j : ℕ) → j < length paid.old → paid_at paid.new j ≡ paid_for program.now.rows pairs.now j }
    ensures light { IsLight paid.new }
{
    program.is_program();
    let mut sides = 0;
    for pair in pairs {
        sides += i128::from(pair.1 * side_of(program, pair.0));
        pay_row(terms_of(program, pair.0), pair.1, paid);
    }
    sides
}

/// Lets a row with these terms pay for its columns at a price.
fn pay_row(terms: &[(u32, i64)], price: i64, paid: &mut [i128])
    requires terms { AreTerms (length paid.old) terms.now }
    requires price { unsigned_abs price ≤ most_price }
    requires light { IsLight paid.old }
    ensures { (j : ℕ) → j < length paid.old → paid_at paid.new j ≡ paid_at paid.old j +ℤ price *ℤ coefficient terms.now j }
{
    for term in terms {
        paid[term.0 as usize] += i128::from(price * term.1);
    }
}

/// Settles all columns of the rows of the pairs, and answers by how much that changes what all columns come to.
fn settle(
    program: &Program,
    bounds: &Bounds,
    with_cost: bool,
    pairs: &[(u32, i64)],
    paid: &mut [i128],
) -> i128
    requires there { All (λ (pair : ℕ × ℤ). pair.0 < length program.now.rows) pairs.now }
    requires columns { length bounds.now.lows ≡ length program.now.columns }
    requires long { length paid.old ≡ length program.now.columns }
    requires light { IsLight paid.old }
    requires named { (j : ℕ) → IsUnnamed program.now.rows pairs.now j → paid_at paid.old j ≡ pos 0 }
    ensures value { result +ℤ least_left program.now with_cost bounds.now paid.new ≡ least_left program.now with_cost bounds.now paid.old }
    ensures small { unsigned_abs result ≤ 2 ^ 121 }
    ensures unpaid { IsUnpaid (length program.now.columns) paid.new }
{
    program.is_program();
    bounds.is_box();
    let mut settled = 0;
    for pair in pairs {
        settled += settle_row(program, bounds, with_cost, terms_of(program, pair.0), paid);
    }
    settled
}

/// Settles the columns that terms name, and answers by how much that changes what all columns come to.
fn settle_row(
    program: &Program,
    bounds: &Bounds,
    with_cost: bool,
    terms: &[(u32, i64)],
    paid: &mut [i128],
) -> i128
    requires there { All (λ (term : ℕ × ℤ). term.0 < length program.now.columns) terms.now }
    requires columns { length bounds.now.lows ≡ length program.now.columns }
    requires long { length paid.old ≡ length program.now.columns }
    requires light { IsLight paid.old }
    ensures value { result +ℤ least_left program.now with_cost bounds.now paid.new ≡ least_left program.now with_cost bounds.now paid.old }
    ensures light { IsLight paid.new }
    ensures settled { (j : ℕ) → (All (λ (term : ℕ × ℤ). term.0 ≢ j) terms.now → paid_at paid.old j ≡ pos 0) → paid_at paid.new j ≡ pos 0 }
{
    program.is_program();
    bounds.is_box();
    let mut settled = 0;
    for term in terms {
        settled += settle_column(program, bounds, with_cost, term.0, paid);
    }
    settled
}

/// Settles a column: nothing is paid for it any more. Answers by how much that changes what all columns come to.
fn settle_column(
    program: &Program,
    bounds: &Bounds,
    with_cost: bool,
    j: u32,
    paid: &mut [i128],
) -> i128
    requires there { j < length program.now.columns }
    requires columns { length bounds.now.lows ≡ length program.now.columns }
    requires long { length paid.old ≡ length program.now.columns }
    requires light { IsLight paid.old }
    ensures value { result +ℤ least_left program.now with_cost bounds.now paid.new ≡ least_left program.now with_cost bounds.now paid.old }
    ensures paid { paid.new ≡ slice_set paid.old j (pos 0) }
{
    let owed = paid[j as usize];
    if owed == 0 {
        return 0;
    }
    paid[j as usize] = 0;
    let cost = cost_of(program, with_cost, j);
    let reduced = i128::from(cost) - owed;
    column_value(bounds, reduced, j) - i128::from(cost_value(bounds, cost, j))
}
