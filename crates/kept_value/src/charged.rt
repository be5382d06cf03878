//! What columns come to where a row pays more for them, and how steeply that changes with the price of the row.

ghost use Rattle.std.specs.Prelude.{◌≡◌, ◌⊎◌, ℕ, ◌*◌, ◌<◌, ◌≤◌, ◌^◌, ℤ, ◌+ℤ◌, ◌-ℤ◌, ◌*ℤ◌, ◌≤ℤ◌, pos, true, false, length, slice_set, unsigned_abs};
ghost use Rattle.sparse_program.specs.Box.{high_of, low_of};
ghost use Rattle.sparse_program.specs.Terms.{AreTerms, IsSmall, coefficient, terms_sum};
ghost use Rattle.sparse_program.specs.declared.limits.TheConstants.{MAX_TERMS};
ghost use Rattle.certificate_model.specs.Value.{column_value, most_price};
ghost use Rattle.kept_value.specs.Kept.{best_bound, goes_to_low, reduced_at};
ghost use Rattle.kept_value.specs.inner.Charged.{AreModest, IsSteepest, charged, least_of, stands_at};

use safe_bound::column_value;
use sparse_program::Bounds;

/// How steeply a value rises with a price, per 1024th of a unit of delay: where the price rises, and where it falls.
#[derive(Clone, Copy, Debug, PartialEq, Eq)]
pub struct Slopes {
    pub up: i64,
    pub down: i64,
}

/// A price, or a change of one, times a number of a program.
pub(crate) fn payment(price: i64, number: i64) -> i128
    requires price { unsigned_abs price ≤ 2 * most_price }
    requires number { IsSmall number }
    ensures value { result ≡ price *ℤ number }
    ensures small { unsigned_abs result ≤ 2 ^ 61 }
{
    price as i128 * number as i128
}

/// What one unit of a column costs once a row that names it with this coefficient pays more for it.
fn charged(cost: i128, price: i64, coefficient: i64) -> i128
    requires cost { unsigned_abs cost ≤ 2 ^ 79 }
    requires price { unsigned_abs price ≤ 2 * most_price }
    requires coefficient { IsSmall coefficient }
    ensures value { result ≡ cost -ℤ price *ℤ coefficient }
    ensures few { unsigned_abs result < 2 ^ 80 }
{
    cost - payment(price, coefficient)
}

/// By how much a column comes to more where one unit of it costs `after` and not `before`.
fn rise(bounds: &Bounds, j: u32, before: i128, after: i128) -> i128
    requires there { j < length bounds.now.lows }
    requires before { unsigned_abs before ≤ 2 ^ 79 }
    requires after { unsigned_abs after < 2 ^ 80 }
    ensures value { result ≡ column_value bounds.now after j -ℤ column_value bounds.now before j }
    ensures small { unsigned_abs result ≤ 2 ^ 101 }
{
    column_value(bounds, after, j) - column_value(bounds, before, j)
}

/// The bound of a column at which it comes to its least, where one unit of it costs so much: its low or its high if both do.
fn best_bound(bounds: &Bounds, j: u32, cost: i128, low_if_both: bool) -> i64
    requires there { j < length bounds.now.lows }
    ensures value { result ≡ best_bound bounds.now cost low_if_both j }
    ensures bound { (result ≡ low_of bounds.now j) ⊎ (result ≡ high_of bounds.now j) }
    ensures least { column_value bounds.now cost j ≡ cost *ℤ result }
    ensures small { IsSmall result }
{
    if cost > 0 {
        bounds.low(j)
    } else if cost == 0 && low_if_both {
        bounds.low(j)
    } else {
        bounds.high(j)
    }
}

/// How steeply what a column comes to rises with the price of a row that names it with this coefficient, where one unit of the column
/// costs so much: as the price rises, or as it falls. The two differ where it costs nothing, since the column then changes its bound.
fn slope(bounds: &Bounds, j: u32, cost: i128, coefficient: i64, rises: bool) -> i64
    requires there { j < length bounds.now.lows }
    requires coefficient { IsSmall coefficient }
    ensures value { result ≡ pos 0 -ℤ coefficient *ℤ best_bound bounds.now cost (goes_to_low coefficient rises) j }
    ensures slope { (more : ℤ) → column_value bounds.now (cost -ℤ more *ℤ coefficient) j ≤ℤ (column_value bounds.now cost j +ℤ more *ℤ result) }
    ensures small { unsigned_abs result ≤ 2 ^ 40 }
{
    let bound = best_bound(bounds, j, cost, (coefficient < 0) == rises);
    -(coefficient * bound)
}

/// By how much columns come to more where the terms of a row pay more for them: each its coefficient times a price.
pub(crate) fn gain(bounds: &Bounds, terms: &[(u32, i64)], price: i64, reduced: &[i128]) -> i128
    requires terms { AreTerms (length reduced.now) terms.now }
    requires few { length terms.now ≤ MAX_TERMS }
    requires price { unsigned_abs price ≤ 2 * most_price }
    requires columns { length bounds.now.lows ≡ length reduced.now }
    requires modest { AreModest reduced.now }
    ensures value { result ≡ least_of (length reduced.now) bounds.now (charged (reduced_at reduced.now) price terms.now) -ℤ least_of (length reduced.now) bounds.now (reduced_at reduced.now) }
    ensures small { unsigned_abs result ≤ 2 ^ 107 }
{
    let mut gain = 0i128;
    for term in terms {
        let cost = reduced[term.0 as usize];
        gain += rise(bounds, term.0, cost, charged(cost, price, term.1));
    }
    gain
}

/// Lets the terms of a row pay more for their columns, each its coefficient times a price, and answers by how much all columns come to
/// more.
pub(crate) fn charge(
    bounds: &Bounds,
    terms: &[(u32, i64)],
    price: i64,
    reduced: &mut [i128],
) -> i128
    requires terms { AreTerms (length reduced.old) terms.now }
    requires few { length terms.now ≤ MAX_TERMS }
    requires price { unsigned_abs price ≤ 2 * most_price }
    requires columns { length bounds.now.lows ≡ length reduced.old }
    requires modest { AreModest reduced.old }
    ensures value { result ≡ least_of (length reduced.old) bounds.now (charged (reduced_at reduced.old) price terms.now) -ℤ least_of (length reduced.old) bounds.now (reduced_at reduced.old) }
    ensures small { unsigned_abs result ≤ 2 ^ 107 }
    ensures reduced { (j : ℕ) → j < length reduced.old → reduced_at reduced.new j ≡ charged (reduced_at reduced.old) price terms.now j }
{
    let mut gain = 0i128;
    for term in terms {
        let before = reduced[term.0 as usize];
        let after = charged(before, price, term.1);
        reduced[term.0 as usize] = after;
        gain += rise(bounds, term.0, before, after);
    }
    gain
}

/// How steeply what columns come to rises with a price that the terms of a row pay more for them, at a price.
pub(crate) fn slopes_of(
    bounds: &Bounds,
    terms: &[(u32, i64)],
    price: i64,
    reduced: &[i128],
) -> Slopes
    requires terms { AreTerms (length reduced.now) terms.now }
    requires few { length terms.now ≤ MAX_TERMS }
    requires price { unsigned_abs price ≤ 2 * most_price }
    requires columns { length bounds.now.lows ≡ length reduced.now }
    requires modest { AreModest reduced.now }
    ensures rising { result.up ≡ pos 0 -ℤ terms_sum terms.now (stands_at bounds.now (reduced_at reduced.now) terms.now price true) }
    ensures falling { result.down ≡ pos 0 -ℤ terms_sum terms.now (stands_at bounds.now (reduced_at reduced.now) terms.now price false) }
    ensures up { IsSteepest (length reduced.now) bounds.now (reduced_at reduced.now) terms.now price result.up }
    ensures down { IsSteepest (length reduced.now) bounds.now (reduced_at reduced.now) terms.now price result.down }
    ensures small { (unsigned_abs result.up ≤ 2 ^ 46) × (unsigned_abs result.down ≤ 2 ^ 46) }
{
    let mut up = 0i64;
    let mut down = 0i64;
    for term in terms {
        let cost = charged(reduced[term.0 as usize], price, term.1);
        up += slope(bounds, term.0, cost, term.1, true);
        down += slope(bounds, term.0, cost, term.1, false);
    }
    Slopes { up, down }
}
