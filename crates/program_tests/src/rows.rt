//! The rows of a program, compared with those that are wanted.

use sparse_program::Program;
use std::process::Abort;

/// Whether a row is an equation, its number, and its terms.
pub type WantedRow = (bool, i64, &'static [(u32, i64)]);

/// The rows are these.
pub fn try_rows(rt: &impl Abort, program: &Program, wanted: &[WantedRow]) {
    assert_eq!(rt; program.rows() as usize, wanted.len());
    for i in 0..program.rows() {
        let (equal, rhs, terms) = wanted[i as usize];
        let row = program.row(i);
        assert_eq!(rt; (row.equal, row.rhs), (equal, rhs));
        assert_eq!(rt; row.terms.as_slice(), terms);
    }
}
