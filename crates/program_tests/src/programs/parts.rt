//! The parts of programs, each filled, copied and read once.

use sparse_program::{Col, Duplicate, Linear, Memory, Row, Terms};
use std::alloc::Global;
use std::process::Abort;

/// Terms keep what is pushed and inserted, some in the list itself and some not.
pub fn try_terms(rt: &impl Abort, alloc: Global) -> Result<(), Memory> {
    let mut terms = Terms::new(alloc);
    terms.push((2, -3))?;
    terms.push((4, 0))?;
    terms.push((6, -7))?;
    terms.insert((8, 9))?;
    terms.insert((0, 1))?;
    terms.insert((5, 2))?;
    let wanted = [(0u32, 1i64), (2, -3), (4, 0), (5, 2), (6, -7), (8, 9)];
    assert_eq!(rt; terms.as_slice(), wanted.as_slice());
    let kept = [(0u32, 1i64), (2, -3), (5, 2), (6, -7), (8, 9)];
    assert_eq!(rt; terms.nonzero()?.as_slice(), kept.as_slice());
    assert_eq!(rt;
        Terms::of(wanted.to_vec(alloc)?).as_slice(),
        wanted.as_slice()
    );
    Ok(())
}

/// Columns, rows and expressions are copied whole.
pub fn try_copies(rt: &impl Abort, alloc: Global) -> Result<(), Memory> {
    let col = Col {
        low: -1,
        high: 5,
        cost: 2,
    };
    assert_eq!(rt; col.copy()?, col);

    let terms = [(0u32, 1i64), (2, -3), (4, 5), (6, -7), (8, 9)];
    let row = Row {
        equal: true,
        rhs: -4,
        terms: Terms::of(terms.to_vec(alloc)?),
    };
    let row = row.copy()?;
    assert_eq!(rt; (row.equal, row.rhs), (true, -4i64));
    assert_eq!(rt; row.terms.as_slice(), terms.as_slice());
    let linear = Linear {
        constant: 12,
        terms: row.terms,
    };
    let linear = linear.copy()?;
    assert_eq!(rt; linear.constant, 12);
    assert_eq!(rt; linear.terms.as_slice(), terms.as_slice());
    Ok(())
}
