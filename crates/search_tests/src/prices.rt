//! Prices over one box that are changed, set and raised, worked by hand (docs/certificate.md, "Worked by hand").

ghost use Rattle.std.specs.Prelude.{IfOk};
ghost use Rattle.kept_value.specs.Kept.{IsKeptOf};

use ct_base::{Cell, Kind, Listed, Net, Out, valid};
use dual_prices::{End, work};
use kept_value::KeptValue;
use lo_program::compile;
use safe_bound::are_prices;
use sparse_program::{Bounds, Builder, Linear, Memory, Program, Terms};
use std::alloc::Global;
use std::process::Abort;
use std::test::Fail;

/// Prices, a value that is enough, why the ascent from them ends, and the value then.
type Wanted = (&'static [i64], i128, End, i128);

/// Ascents over one cell, whose only plan has a delay of 1 unit. To take 1024 from the price of row 2 makes the value 1024, which is the
/// greatest.
const ONE_CELL: [Wanted; 2] = [
    (&[0, 0, 1024, 0, 0], 1025, End::Settled, 1024),
    (&[0, 0, 1024, 0, 0], 0, End::Enough, 0),
];

/// Ascents over two columns and one row. The value rises by 3 for each part of the price up to 1024, by 1 up to 2048, and falls by 9 from
/// there on. From 2100 the price goes to 2036, from where the gain of a change is 8 at most.
const TWO_COLUMNS: [Wanted; 4] = [
    (&[0], 4096, End::Enough, 4096),
    (&[0], 4097, End::Spent, 4096),
    (&[2048], 4097, End::Settled, 4096),
    (&[2100], 4097, End::Settled, 4084),
];

/// The program of one cell over one step, in which 3 units wait, of which 2 leave.
fn one_cell(alloc: Global) -> Result<Program, Fail> {
    let cell = Cell {
        kind: Kind::Road,
        cap: 2,
        store: 3,
        wave_p: 1,
        wave_q: 1,
        gate: None,
        out: Out::Exit,
        initial: 3,
        demand: Listed::new(alloc),
    };
    let net = Net {
        steps: 1,
        cells: Listed::of(vec![in alloc; cell]?),
        signals: Listed::new(alloc),
    };
    if !valid(&net) {
        return Err("no network".into());
    }
    compile(alloc, &net).map_err(|_| "no program".into())
}

/// Column 0 of 0 to 2 that costs 1, column 1 of 0 to 10 that costs 2, and a row that asks for at least 3 of both.
fn two_columns(alloc: Global) -> Result<Program, Memory> {
    let mut builder = Builder::new(alloc);
    builder.col(0, 2, 1)?;
    builder.col(0, 10, 2)?;
    let mut terms = Terms::new(alloc);
    terms.push((0, 1))?;
    terms.push((1, 1))?;
    builder.row(false, 3, &Linear { constant: 0, terms })?;
    builder.finish(0)
}

/// Keeps prices over all points of a program.
fn kept_of(
    rt: &impl Abort,
    alloc: Global,
    program: &Program,
    given: &[i64],
) -> Result<KeptValue, Memory>
    ensures { IfOk result (IsKeptOf program.now) }
{
    let mut prices = Vec::new(alloc);
    prices.extend_from_slice(given)?;
    assert!(rt; are_prices(program, prices.as_slice()));
    let bounds = Bounds::new(alloc, program)?;
    KeptValue::new(alloc, program, bounds, prices)
}

/// An ascent ends as wanted.
fn try_ascent(
    rt: &impl Abort,
    alloc: Global,
    program: &Program,
    wanted: &Wanted,
) -> Result<(), Memory> {
    let mut kept = kept_of(rt, alloc, program, wanted.0)?;
    let end = work(alloc, program, &mut kept, wanted.1)?;
    assert_eq!(rt; end, wanted.2);
    assert_eq!(rt; kept.value(), wanted.3);
    Ok(())
}

/// A change of a price that stays lawful makes this the value.
fn change(rt: &impl Abort, program: &Program, kept: &mut KeptValue, row: u32, by: i64, value: i128)
    requires { IsKeptOf program.now kept.old }
    ensures { IsKeptOf program.now kept.new }
{
    assert!(rt; row < program.rows() && by.unsigned_abs() <= 2048);
    assert!(rt; kept.can_change(program, row, by));
    kept.change(program, row, by);
    assert_eq!(rt; kept.value(), value);
}

/// A price can't be changed by a number, since it would be below 0.
fn refuse(rt: &impl Abort, program: &Program, kept: &KeptValue, row: u32, by: i64)
    requires { IsKeptOf program.now kept.now }
{
    assert!(rt; row < program.rows() && by.unsigned_abs() <= 2048);
    assert!(rt; !kept.can_change(program, row, by));
}

/// Other prices have this value.
fn set(rt: &impl Abort, program: &Program, kept: &mut KeptValue, prices: &[i64], value: i128)
    requires { IsKeptOf program.now kept.old }
{
    assert!(rt; are_prices(program, prices));
    kept.set_prices(program, prices);
    assert_eq!(rt; kept.value(), value);
}

#[test]
fn values_are_kept_where_prices_change(rt: HostRuntime) -> Result<(), Fail> {
    let program = one_cell(rt.alloc())?;
    let mut kept = kept_of(&rt, rt.alloc(), &program, &[0, 0, 0, 0, 0])?;
    assert_eq!(rt; kept.value(), 1024);
    change(&rt, &program, &mut kept, 2, 1024, 0);
    change(&rt, &program, &mut kept, 2, -1023, 1023);
    refuse(&rt, &program, &kept, 2, -2);
    set(&rt, &program, &mut kept, &[0, 0, 1024, 0, 0], 0);
    Ok(())
}

#[test]
fn prices_of_one_cell_are_raised(rt: HostRuntime) -> Result<(), Fail> {
    let program = one_cell(rt.alloc())?;
    for wanted in &ONE_CELL {
        try_ascent(&rt, rt.alloc(), &program, wanted)?;
    }
    Ok(())
}

#[test]
fn a_price_of_two_columns_is_raised(rt: HostRuntime) -> Result<(), Fail> {
    let program = two_columns(rt.alloc())?;
    for wanted in &TWO_COLUMNS {
        try_ascent(&rt, rt.alloc(), &program, wanted)?;
    }
    Ok(())
}
