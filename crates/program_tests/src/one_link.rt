//! The program of a network of one link over one step: 3 units wait, and at most 2 leave. Column 0 is what the cell holds,
//! column 1 the flow, and columns 2 and 3 say which of the two bounds of the flow is the least.

ghost use Rattle.std.specs.Prelude.{◌≡◌, ◌+◌, ◌<◌, ◌-ℤ◌, length, IsTrue, OnOk};
ghost use Rattle.sparse_program.specs.Terms.{AreTerms, IsSmall};

use sparse_program::{Builder, Linear, Memory, Program, Terms};
use std::alloc::Global;
use std::process::Abort;

/// Whether terms rise below a number of columns, with small coefficients.
fn are_terms(terms: &[(u32, i64)], columns: u32) -> bool
    ensures { IsTrue result → AreTerms columns terms.now }
{
    let mut from = 0;
    for term in terms {
        if term.0 < from || columns <= term.0 || term.1 < -1000 || 1000 < term.1 {
            return false;
        }
        from = term.0 + 1;
    }
    true
}

/// Adds a row that says that a constant and terms are equal to a number, or at least that, and answers which row it is.
fn add_row(
    rt: &impl Abort,
    alloc: Global,
    builder: &mut Builder,
    equal: bool,
    rhs: i64,
    constant: i64,
    terms: &[(u32, i64)],
) -> Result<u32, Memory>
    requires columns { length builder.old.columns ≡ 4 }
    requires room { length builder.old.rows < 100 }
    requires small { IsSmall (rhs -ℤ constant) }
    ensures columns { OnOk result (builder.new.columns ≡ builder.old.columns) }
    ensures rows { OnOk result (length builder.new.rows ≡ length builder.old.rows + 1) }
{
    let lawful = are_terms(terms, 4);
    assert!(rt; lawful);
    assert!(rt; terms.len() <= 10);
    let of = Linear {
        constant,
        terms: Terms::of(terms.to_vec(alloc)?),
    };
    builder.row(equal, rhs, &of)
}

/// The program, by its builder.
pub fn built(rt: &impl Abort, alloc: Global) -> Result<Program, Memory> {
    let mut builder = Builder::new(alloc);
    let columns = [
        builder.col(3, 3, 1)?,
        builder.col(0, 2, -1)?,
        builder.col(0, 1, 0)?,
        builder.col(0, 1, 0)?,
    ];
    assert_eq!(rt; columns, [0u32, 1, 2, 3]);
    let rows = [
        add_row(rt, alloc, &mut builder, true, 0, -1, &[(2, 1), (3, 1)])?,
        add_row(
            rt,
            alloc,
            &mut builder,
            false,
            0,
            2,
            &[(0, 0), (1, -1), (3, -1)],
        )?,
        add_row(rt, alloc, &mut builder, false, 0, 0, &[(0, 1), (1, -1)])?,
        add_row(
            rt,
            alloc,
            &mut builder,
            false,
            0,
            0,
            &[(1, 1), (2, -2), (3, 0)],
        )?,
        add_row(
            rt,
            alloc,
            &mut builder,
            false,
            -1,
            2,
            &[(0, -1), (1, 1), (3, -3)],
        )?,
    ];
    assert_eq!(rt; rows, [0u32, 1, 2, 3, 4]);
    builder.finish(0)
}
