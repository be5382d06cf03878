//! The program itself, which is read by rows and by columns and never changes.

ghost use Rattle.std.specs.Prelude.{◌≡◌, ◌<◌, ◌≤◌, length};
ghost use Rattle.sparse_program.specs.declared.limits.TheConstants.{MAX_ROWS, MAX_COLUMNS};

use crate::column::Col;
use crate::columns;
use crate::columns::Columns;
use crate::row::Row;
use std::marker::Model;

/// A program in whole numbers: it asks for values of the columns within their bounds that meet all rows at the least
/// cost. Its first columns are the plan's. Columns and rows are numbered from 0.
#[derive(Debug, Drop)]
pub struct Program {
    columns: Vec<Col>,
    rows: Vec<Row>,
    by_column: Columns,
    plan_cols: u32,
}

impl Model for Program {
    ghost use Rattle.sparse_program.specs.Program.{Parts};
    ghost use Rattle.sparse_program.specs.inner.Columns.{IsStored};

    ghost Value = { Parts };

    ghost view = { λ program. record { columns = program.columns.items; rows = program.rows.items; plan_cols = program.plan_cols } };

    ghost invariant = { λ program. IsStored program.columns.items program.rows.items program.plan_cols program.by_column.ends.items program.by_column.entries.items };
}

impl Program {
    ghost use Rattle.sparse_program.specs.Terms.{AreTerms};
    ghost use Rattle.sparse_program.specs.Program.{AreBuilt, IsProgram, IsCol, IsRow, col_of, row_of, column_of};
    ghost use Rattle.sparse_program.specs.inner.Columns.{AreColumns};

    /// The program of columns and rows that go together.
    pub(crate) fn new(columns: Vec<Col>, rows: Vec<Row>, by_column: Columns, plan_cols: u32) -> Self
        requires built { AreBuilt columns.items rows.items }
        requires plan { plan_cols ≤ length columns.items }
        requires by_column { AreColumns rows.items (length columns.items) by_column.ends.items by_column.entries.items }
        ensures { result ≡ record { columns = columns.items; rows = rows.items; plan_cols = plan_cols } }
    {
        Program {
            columns,
            rows,
            by_column,
            plan_cols,
        }
    }

    /// All columns.
    pub(crate) fn columns(&self) -> &[Col]
        ensures { result.now ≡ self.now.columns }
    {
        self.columns.as_slice()
    }

    /// Does nothing. A caller that calls it knows what every program keeps.
    pub fn is_program(&self)
        ensures { IsProgram self.now }
    {
        let _ = &self.plan_cols;
    }

    /// The number of rows.
    pub fn rows(&self) -> u32
        ensures value { result ≡ length self.now.rows }
        ensures few { result ≤ MAX_ROWS }
    {
        self.rows.len() as u32
    }

    /// The number of columns.
    pub fn cols(&self) -> u32
        ensures value { result ≡ length self.now.columns }
        ensures few { result ≤ MAX_COLUMNS }
    {
        self.columns.len() as u32
    }

    /// The number of columns of the plan, which come first.
    pub fn plan_cols(&self) -> u32
        ensures value { result ≡ self.now.plan_cols }
        ensures there { result ≤ length self.now.columns }
    {
        self.plan_cols
    }

    /// The column with a number.
    pub fn col(&self, j: u32) -> Col
        requires { j < length self.now.columns }
        ensures value { result ≡ col_of self.now.columns j }
        ensures lawful { IsCol result }
    {
        self.columns[j as usize]
    }

    /// The row with a number.
    pub fn row(&self, i: u32) -> &Row
        requires { i < length self.now.rows }
        ensures value { result.now ≡ row_of self.now.rows i }
        ensures lawful { IsRow (length self.now.columns) result.now }
    {
        &self.rows[i as usize]
    }

    /// The rows that name a column, rising, each with its coefficient.
    pub fn column(&self, j: u32) -> &[(u32, i64)]
        requires { j < length self.now.columns }
        ensures value { result.now ≡ column_of self.now.rows j }
        ensures lawful { AreTerms (length self.now.rows) result.now }
    {
        let ends = self.by_column.ends.as_slice();
        let start = columns::start(ends, j as usize);
        let end = ends[j as usize];
        &self.by_column.entries.as_slice()[start as usize..end as usize]
    }
}
