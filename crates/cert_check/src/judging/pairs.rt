//! Leaves of prices, as pairs of a row and its price.

ghost use Rattle.std.specs.Prelude.{◌≡◌, ◌+◌, ◌<◌, ◌^◌, All, None, unsigned_abs};
ghost use Rattle.program_model.specs.Points.{program_of};
ghost use Rattle.safe_bound.specs.Costed.{IsCostedOf};
ghost use Rattle.certificate_model.specs.Reasons.{ceiling, empty_reasons, pair_reasons, priced_reasons};
ghost use Rattle.certificate_model.specs.Text.{IsSpelledPair};
ghost use Rattle.cert_check.specs.inner.Firsts.{first_of, reasons_of_pair};

use certificate_model::{MAX_PRICE, SCALE, Why};
use ct_base::Net;
use safe_bound::CostedBox;
use sparse_program::Program;

/// The first reason why a priced leaf is not good in its box: one of its pairs, or that its number is below the bound.
pub fn priced_reason(
    net: &Net,
    program: &Program,
    costed: &mut CostedBox,
    bound: i64,
    pairs: &[(u32, i64)],
) -> Option<Why>
    requires program { program.now ≡ program_of net.now }
    requires of { IsCostedOf program.now costed.old }
    requires spelled { All IsSpelledPair pairs.now }
    ensures reason { result ≡ first_of (priced_reasons net.now bound costed.old.box pairs.now) }
    ensures same { costed.new ≡ costed.old }
{
    match pair_reason(program, pairs) {
        Some(why) => Some(why),
        None => {
            let number = ceiling(costed.value(program, pairs, true));
            if number < i128::from(bound) {
                Some(Why::Weak(number))
            } else {
                None
            }
        }
    }
}

/// The first reason why an empty leaf is not good in its box: one of its pairs, or that their value without costs is below 1.
pub fn empty_reason(
    net: &Net,
    program: &Program,
    costed: &mut CostedBox,
    pairs: &[(u32, i64)],
) -> Option<Why>
    requires program { program.now ≡ program_of net.now }
    requires of { IsCostedOf program.now costed.old }
    requires spelled { All IsSpelledPair pairs.now }
    ensures reason { result ≡ first_of (empty_reasons net.now costed.old.box pairs.now) }
    ensures same { costed.new ≡ costed.old }
{
    match pair_reason(program, pairs) {
        Some(why) => Some(why),
        None => {
            let value = costed.value(program, pairs, false);
            if value < 1 {
                Some(Why::NotEmpty(value))
            } else {
                None
            }
        }
    }
}

/// The least whole number that is at least a value of so many 1024ths.
fn ceiling(value: i128) -> i128
    requires { unsigned_abs value < 2 ^ 120 }
    ensures { result ≡ ceiling value }
{
    let scale = i128::from(SCALE);
    (value + (scale - 1)).div_euclid(scale)
}

/// The first reason of pairs.
fn pair_reason(program: &Program, pairs: &[(u32, i64)]) -> Option<Why>
    ensures { result ≡ first_of (pair_reasons program.now.rows 0 pairs.now) }
{
    let mut next = 0;
    for pair in pairs {
        if let Some(why) = one_reason(program, next, pair.0, pair.1) {
            return Some(why);
        }
        next = pair.0 + 1;
    }
    None
}

/// The first reason of one pair, whose row has to be at a number or behind it.
fn one_reason(program: &Program, next: u32, row: u32, price: i64) -> Option<Why>
    ensures reason { result ≡ first_of (reasons_of_pair program.now.rows next (row, price)) }
    ensures there { result ≡ None → row + 1 < 2 ^ 32 }
{
    if row >= program.rows() {
        return Some(Why::Row);
    }
    if row < next {
        return Some(Why::Order);
    }
    if price.unsigned_abs() > MAX_PRICE {
        return Some(Why::Price);
    }
    if price < 0 && !program.row(row).equal {
        return Some(Why::Sign);
    }
    None
}
