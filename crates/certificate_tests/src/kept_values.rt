//! Values of prices that are kept, worked by hand.

use crate::costed_boxes::two_rows;
use kept_value::KeptValue;
use safe_bound::are_prices;
use sparse_program::{Bounds, Memory, Program};
use std::alloc::Global;
use std::process::Abort;
use std::test::Fail;

/// Prices of both rows, their value, a row, a change of its price, and by how much that raises the value.
type Wanted = (&'static [i64], i128, u32, i64, i128);

/// Without prices the columns come to nothing. Once row 0 pays 2048, its right side is 6144, and column 0 comes to -2048; once row 1
/// pays 512 too, column 1 comes to -5120, and its right side is 512.
const ALL: [Wanted; 3] = [
    (&[0, 0], 0, 0, 2048, 4096),
    (&[2048, 0], 4096, 1, 512, -4608),
    (&[2048, 512], -512, 1, -512, 4608),
];

/// Prices have a value over all points of a program, which a change raises by a number.
fn try_kept(
    rt: &impl Abort,
    alloc: Global,
    program: &Program,
    wanted: &Wanted,
) -> Result<(), Memory> {
    let (given, value, row, by, gain) = wanted;
    let mut prices = Vec::new(alloc);
    prices.extend_from_slice(given)?;
    assert!(rt; are_prices(program, prices.as_slice()));
    let bounds = Bounds::new(alloc, program)?;
    let kept = KeptValue::new(alloc, program, bounds, prices)?;
    assert_eq!(rt; kept.value(), *value);
    assert!(rt; *row < program.rows() && by.unsigned_abs() <= 2048);
    assert_eq!(rt; kept.gain(program, *row, *by), *gain);
    Ok(())
}

#[test]
fn kept_values_are_those_worked_by_hand(rt: HostRuntime) -> Result<(), Fail> {
    let program = two_rows(rt.alloc())?;
    for wanted in &ALL {
        try_kept(&rt, rt.alloc(), &program, wanted)?;
    }
    Ok(())
}
