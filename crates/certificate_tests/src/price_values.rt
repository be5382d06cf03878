//! Values of prices over boxes, worked by hand (docs/certificate.md, "Worked by hand").

use crate::networks::one_cell;
use ct_base::valid;
use lo_program::compile;
use safe_bound::{are_prices, value};
use sparse_program::{Bounds, Builder, Linear, Memory, Program, Terms};
use std::alloc::Global;
use std::process::Abort;
use std::test::Fail;

/// Prices, whether costs count, and the value.
type Wanted = (&'static [i64], bool, i128);

/// Prices of the rows of one cell. Without prices what the cell holds comes to 3072, and the flow to -2048.
const ONE_CELL: [Wanted; 3] = [
    (&[0, 1024, 0, 0, 0], true, 1024),
    (&[0, 0, 0, 0, 0], true, 1024),
    (&[0, 1024, 0, 0, 0], false, -2048),
];

/// Prices of the one row of two columns.
const TWO_COLUMNS: [Wanted; 3] = [
    (&[2048], true, 4096),
    (&[0], true, 0),
    (&[2048], false, -18432),
];

/// Prices that are not lawful for it: two of them, one that is too great, and one below 0.
const UNLAWFUL: [&[i64]; 3] = [&[0, 0], &[1_099_511_627_777], &[-1]];

/// Column 0 of 0 to 2 that costs 1, column 1 of 0 to 10 that costs 2, and a row that asks for at least 3 of both.
fn two_columns(alloc: Global) -> Result<Program, Memory> {
    let mut builder = Builder::new(alloc);
    builder.col(0, 2, 1)?;
    builder.col(0, 10, 2)?;
    let mut terms = Terms::new(alloc);
    terms.push((0, 1))?;
    terms.push((1, 1))?;
    builder.row(false, 3, &Linear { constant: 0, terms })?;
    builder.finish(0)
}

/// The prices have these values over a box.
fn try_values(rt: &impl Abort, program: &Program, bounds: &Bounds, wanted: &[Wanted]) {
    assert_eq!(rt; bounds.cols(), program.cols());
    for (prices, with_cost, is) in wanted {
        assert!(rt; are_prices(program, prices));
        assert_eq!(rt; value(program, bounds, prices, *with_cost), *is);
    }
}

/// Lowers the greatest value of a column.
fn lower(rt: &impl Abort, bounds: &mut Bounds, j: u32, high: i64) {
    assert!(rt; j < bounds.cols());
    assert!(rt; bounds.low(j) <= high);
    assert!(rt; high <= bounds.high(j));
    bounds.narrow_high(j, high);
}

#[test]
fn values_are_those_worked_by_hand(rt: HostRuntime) -> Result<(), Fail> {
    let alloc = rt.alloc();
    let net = one_cell(alloc)?;
    assert!(rt; valid(&net));
    let cell = compile(alloc, &net).map_err(|_| "no program")?;
    try_values(&rt, &cell, &Bounds::new(alloc, &cell)?, &ONE_CELL);
    let program = two_columns(alloc)?;
    let mut bounds = Bounds::new(alloc, &program)?;
    try_values(&rt, &program, &bounds, &TWO_COLUMNS);
    for prices in UNLAWFUL {
        assert!(rt; !are_prices(&program, prices));
    }
    // At most 2 of both are left, one less than the row asks for.
    lower(&rt, &mut bounds, 0, 0);
    lower(&rt, &mut bounds, 1, 2);
    try_values(&rt, &program, &bounds, &[(&[1], false, 1)]);
    Ok(())
}
