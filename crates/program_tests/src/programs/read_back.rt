//! The program of one link, read by rows and by columns, and its box narrowed and set back.

use crate::rows::{WantedRow, try_rows};
use sparse_program::{Bounds, Col, Memory, Program};
use std::alloc::Global;
use std::process::Abort;

/// Its rows.
const ROWS: [WantedRow; 5] = [
    (true, 1, &[(2, 1), (3, 1)]),
    (false, -2, &[(1, -1), (3, -1)]),
    (false, 0, &[(0, 1), (1, -1)]),
    (false, 0, &[(1, 1), (2, -2)]),
    (false, -3, &[(0, -1), (1, 1), (3, -3)]),
];

/// Its rows are these, and none of its columns is of a plan.
pub fn try_all_rows(rt: &impl Abort, program: &Program) {
    assert_eq!(rt; program.plan_cols(), 0);
    try_rows(rt, program, &ROWS);
}

/// Its columns are these.
pub fn try_columns(rt: &impl Abort, program: &Program) {
    assert_eq!(rt; program.cols(), 4);
    let bounds = [(3i64, 3i64, 1i64), (0, 2, -1), (0, 1, 0), (0, 1, 0)];
    let wanted: [&[(u32, i64)]; 4] = [
        &[(2, 1), (4, -1)],
        &[(1, -1), (2, -1), (3, 1), (4, 1)],
        &[(0, 1), (3, -2)],
        &[(0, 1), (1, -1), (4, -3)],
    ];
    for j in 0..4u32 {
        let (low, high, cost) = bounds[j as usize];
        assert_eq!(rt; program.col(j), Col { low, high, cost });
        assert_eq!(rt; program.column(j), wanted[j as usize]);
    }
}

/// A bound that is narrowed answers the old one, and is set back by it.
pub fn try_bounds(rt: &impl Abort, alloc: Global, program: &Program) -> Result<(), Memory> {
    let mut bounds = Bounds::new(alloc, program)?;
    assert_eq!(rt; bounds.cols(), 4);
    assert_eq!(rt; (bounds.low(1), bounds.high(1)), (0i64, 2i64));
    assert_eq!(rt; bounds.narrow_low(1, 1), 0);
    assert_eq!(rt; (bounds.low(1), bounds.high(1)), (1i64, 2i64));
    assert_eq!(rt; bounds.narrow_high(1, 1), 2);
    assert_eq!(rt; (bounds.low(1), bounds.high(1)), (1i64, 1i64));
    bounds.undo_low(1, -4);
    bounds.undo_high(1, 7);
    assert_eq!(rt; (bounds.low(1), bounds.high(1)), (-4i64, 7i64));
    assert_eq!(rt; (bounds.low(0), bounds.high(3)), (3i64, 1i64));
    Ok(())
}
