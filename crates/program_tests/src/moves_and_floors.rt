//! Rows of small moves and of a floor, worked by hand.

ghost use Rattle.std.specs.Prelude.{◌≡◌, ◌≤◌, [], ◌∷◌, length, IfOk};

use crate::rows::{WantedRow, try_rows};
use flow_switches::{Term, floor_row, least, least_rows};
use sparse_program::{Builder, Linear, Memory, Terms};
use std::alloc::Global;
use std::process::Abort;
use std::test::Fail;

/// So many columns from 0 to 3, and no row.
fn columns(alloc: Global, count: u32) -> Result<Builder, Memory>
    requires { count ≤ 100 }
    ensures columns { IfOk result (λ builder. length builder.columns ≡ count) }
    ensures rows { IfOk result (λ builder. builder.rows ≡ []) }
{
    let mut builder = Builder::new(alloc);
    for _column in 0..count {
        builder.col(0, 3, 0)?;
    }
    Ok(builder)
}

/// A linear expression of one term.
fn linear(alloc: Global, constant: i64, column: u32, coefficient: i64) -> Result<Linear, Memory>
    ensures { IfOk result (λ of. of ≡ record { constant = constant; terms = (column, coefficient) ∷ [] }) }
{
    let mut terms = Terms::new(alloc);
    terms.push((column, coefficient))?;
    Ok(Linear { constant, terms })
}

/// One cell that holds 3 units in column 0, of which at most 2 leave in column 1.
fn try_exit(rt: &impl Abort, alloc: Global) -> Result<(), Memory> {
    let mut builder = columns(alloc, 4)?;
    let held = linear(alloc, 0, 0, 1)?;
    let terms = [Term { of: held, most: 3 }];
    least_rows(&mut builder, 1, 2, None, &terms, 2)?;
    let wanted: [WantedRow; 5] = [
        (true, 1, &[(2, 1), (3, 1)]),
        (false, -2, &[(1, -1), (3, -1)]),
        (false, 0, &[(0, 1), (1, -1)]),
        (false, 0, &[(1, 1), (2, -2)]),
        (false, -3, &[(0, -1), (1, 1), (3, -3)]),
    ];
    try_rows(rt, &builder.finish(0)?, &wanted);
    Ok(())
}

/// A cell behind a gate: bit 0 opens it, column 6 is what it holds, column 16 what the next one holds, which stores 2.
fn try_gated(rt: &impl Abort, alloc: Global) -> Result<(), Memory> {
    let mut builder = columns(alloc, 17)?;
    let held = linear(alloc, 0, 6, 1)?;
    let room = linear(alloc, 2, 16, -1)?;
    let terms = [Term { of: held, most: 1 }, Term { of: room, most: 2 }];
    least_rows(&mut builder, 7, 1, Some(&[0]), &terms, 8)?;
    let wanted: [WantedRow; 7] = [
        (true, 1, &[(8, 1), (9, 1), (10, 1)]),
        (false, 0, &[(0, 1), (7, -1), (9, -1), (10, -1)]),
        (false, 0, &[(6, 1), (7, -1), (10, -1)]),
        (false, -2, &[(7, -1), (16, -1)]),
        (false, -1, &[(0, -1), (7, 1), (8, -1)]),
        (false, -1, &[(6, -1), (7, 1), (9, -1)]),
        (false, 0, &[(7, 1), (10, -2), (16, 1)]),
    ];
    try_rows(rt, &builder.finish(1)?, &wanted);
    Ok(())
}

/// Half of the room of a cell that stores 2 and holds column 0, rounded down: twice column 1, and the rest in column 2.
fn try_floor(rt: &impl Abort, alloc: Global) -> Result<(), Memory> {
    let mut builder = columns(alloc, 3)?;
    floor_row(&mut builder, 1, 2, 2, &linear(alloc, 2, 0, -1)?)?;
    let wanted: [WantedRow; 1] = [(true, 2, &[(0, 1), (1, 2), (2, 1)])];
    try_rows(rt, &builder.finish(0)?, &wanted);
    Ok(())
}

#[test]
fn rows_are_those_worked_by_hand(rt: HostRuntime) -> Result<(), Fail> {
    let alloc = rt.alloc();
    assert_eq!(&rt; least(&[3, 1, 2, 1]), (1usize, 1i64));
    assert_eq!(&rt; least(&[-5]), (0usize, -5i64));
    try_exit(&rt, alloc)?;
    try_gated(&rt, alloc)?;
    try_floor(&rt, alloc)?;
    Ok(())
}
