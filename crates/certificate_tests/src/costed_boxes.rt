//! Values of pairs over a box that is narrowed and set back, worked by hand, and the same values of prices of all rows.

ghost use Rattle.sparse_program.specs.Terms.{IsSmall};
ghost use Rattle.safe_bound.specs.Costed.{IsCostedOf};

use safe_bound::{CostedBox, are_pairs, are_prices, value};
use sparse_program::{Bounds, Builder, Linear, Memory, Program, Terms};
use std::alloc::Global;
use std::process::Abort;
use std::test::Fail;

/// Prices of both rows, those that are not 0 as pairs, whether costs count, and the value.
type Wanted = (&'static [i64], &'static [(u32, i64)], bool, i128);

/// Values over all points. Both rows pay for column 1, so it comes again.
const ALL: [Wanted; 4] = [
    (&[0, 0], &[], true, 0),
    (&[2048, 0], &[(0, 2048)], true, 4096),
    (&[2048, 512], &[(0, 2048), (1, 512)], true, -512),
    (&[2048, 512], &[(0, 2048), (1, 512)], false, -23040),
];

/// Values where column 0 is 0, and column 1 at least 4. Its costs come to 8192 then.
const NARROWED: [Wanted; 4] = [
    (&[0, 0], &[], true, 8192),
    (&[0, 512], &[(1, 512)], true, 6656),
    (&[2048, 512], &[(0, 2048), (1, 512)], true, 1536),
    (&[2048, 512], &[(0, 2048), (1, 512)], false, -18944),
];

/// Column 0 of 0 to 2 that costs 1, column 1 of 0 to 10 that costs 2, a row that asks for at least 3 of both, and one that asks for at
/// least 1 of column 1.
pub fn two_rows(alloc: Global) -> Result<Program, Memory> {
    let mut builder = Builder::new(alloc);
    builder.col(0, 2, 1)?;
    builder.col(0, 10, 2)?;
    let mut both = Terms::new(alloc);
    both.push((0, 1))?;
    both.push((1, 1))?;
    builder.row(
        false,
        3,
        &Linear {
            constant: 0,
            terms: both,
        },
    )?;
    let mut one = Terms::new(alloc);
    one.push((1, 1))?;
    builder.row(
        false,
        1,
        &Linear {
            constant: 0,
            terms: one,
        },
    )?;
    builder.finish(0)
}

/// Pairs have these values over a box, and so have the prices of all rows.
fn try_values(
    rt: &impl Abort,
    program: &Program,
    costed: &mut CostedBox,
    bounds: &Bounds,
    wanted: &[Wanted],
)
    requires { IsCostedOf program.now costed.old }
    ensures { IsCostedOf program.now costed.new }
{
    for one in wanted {
        try_value(rt, program, costed, bounds, one);
    }
}

/// Pairs have this value over a box, and so have the prices of all rows.
fn try_value(
    rt: &impl Abort,
    program: &Program,
    costed: &mut CostedBox,
    bounds: &Bounds,
    wanted: &Wanted,
)
    requires { IsCostedOf program.now costed.old }
    ensures { IsCostedOf program.now costed.new }
{
    assert!(rt; are_pairs(program, wanted.1));
    assert_eq!(rt; costed.value(program, wanted.1, wanted.2), wanted.3);
    assert_eq!(rt; bounds.cols(), program.cols());
    assert!(rt; are_prices(program, wanted.0));
    assert_eq!(rt; value(program, bounds, wanted.0, wanted.2), wanted.3);
}

/// Narrows the low of a column in both boxes, and answers the old one.
fn narrow_low(
    rt: &impl Abort,
    program: &Program,
    costed: &mut CostedBox,
    bounds: &mut Bounds,
    j: u32,
    low: i64,
) -> i64
    requires { IsCostedOf program.now costed.old }
    ensures { IsCostedOf program.now costed.new }
{
    assert!(rt; j < bounds.cols());
    assert!(rt; bounds.low(j) <= low);
    assert!(rt; low <= bounds.high(j));
    let old = bounds.narrow_low(j, low);
    assert!(rt; j < costed.cols());
    assert!(rt; costed.low(j) <= low);
    assert!(rt; low <= costed.high(j));
    assert_eq!(rt; costed.narrow_low(program, j, low), old);
    old
}

/// Narrows the high of a column in both boxes, and answers the old one.
fn narrow_high(
    rt: &impl Abort,
    program: &Program,
    costed: &mut CostedBox,
    bounds: &mut Bounds,
    j: u32,
    high: i64,
) -> i64
    requires { IsCostedOf program.now costed.old }
    ensures { IsCostedOf program.now costed.new }
{
    assert!(rt; j < bounds.cols());
    assert!(rt; bounds.low(j) <= high);
    assert!(rt; high <= bounds.high(j));
    let old = bounds.narrow_high(j, high);
    assert!(rt; j < costed.cols());
    assert!(rt; costed.low(j) <= high);
    assert!(rt; high <= costed.high(j));
    assert_eq!(rt; costed.narrow_high(program, j, high), old);
    old
}

/// Sets the low of a column back in both boxes.
fn undo_low(
    rt: &impl Abort,
    program: &Program,
    costed: &mut CostedBox,
    bounds: &mut Bounds,
    j: u32,
    low: i64,
)
    requires of { IsCostedOf program.now costed.old }
    requires small { IsSmall low }
    ensures { IsCostedOf program.now costed.new }
{
    assert!(rt; j < bounds.cols());
    assert!(rt; low <= bounds.high(j));
    bounds.undo_low(j, low);
    assert!(rt; j < costed.cols());
    assert!(rt; low <= costed.high(j));
    costed.undo_low(program, j, low);
}

/// Sets the high of a column back in both boxes.
fn undo_high(
    rt: &impl Abort,
    program: &Program,
    costed: &mut CostedBox,
    bounds: &mut Bounds,
    j: u32,
    high: i64,
)
    requires of { IsCostedOf program.now costed.old }
    requires small { IsSmall high }
    ensures { IsCostedOf program.now costed.new }
{
    assert!(rt; j < bounds.cols());
    assert!(rt; bounds.low(j) <= high);
    bounds.undo_high(j, high);
    assert!(rt; j < costed.cols());
    assert!(rt; costed.low(j) <= high);
    costed.undo_high(program, j, high);
}

#[test]
fn pairs_have_the_values_of_prices(rt: HostRuntime) -> Result<(), Fail> {
    let alloc = rt.alloc();
    let program = two_rows(alloc)?;
    let mut bounds = Bounds::new(alloc, &program)?;
    let mut costed = CostedBox::new(alloc, &program)?;
    try_values(&rt, &program, &mut costed, &bounds, &ALL);
    let high = narrow_high(&rt, &program, &mut costed, &mut bounds, 0, 0);
    let low = narrow_low(&rt, &program, &mut costed, &mut bounds, 1, 4);
    assert_eq!(rt; (low, high), (0i64, 2i64));
    try_values(&rt, &program, &mut costed, &bounds, &NARROWED);
    undo_low(&rt, &program, &mut costed, &mut bounds, 1, 0);
    undo_high(&rt, &program, &mut costed, &mut bounds, 0, 2);
    try_values(&rt, &program, &mut costed, &bounds, &ALL);
    Ok(())
}
