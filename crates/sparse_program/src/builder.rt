//! How a program is built: columns and rows are added one by one, and then it is finished.

ghost use Rattle.std.specs.Prelude.{◌≡◌, ◌<◌, ◌≤◌, [], ◌∷◌, ◌++◌, length, OnOk, OnErr, IfOk};
ghost use Rattle.sparse_program.specs.declared.limits.TheConstants.{MAX_ROWS, MAX_COLUMNS};

use crate::column::Col;
use crate::columns::Columns;
use crate::program::Program;
use crate::row::{Linear, Row};
use listed::Memory;
use std::alloc::Global;
use std::marker::Model;

/// The columns and rows of a program so far.
#[derive(Debug, Drop)]
pub struct Builder {
    columns: Vec<Col>,
    rows: Vec<Row>,
}

impl Model for Builder {
    ghost use Rattle.sparse_program.specs.Program.{Begun, AreBuilt};

    ghost Value = { Begun };

    ghost view = { λ builder. record { columns = builder.columns.items; rows = builder.rows.items } };

    ghost invariant = { λ builder. AreBuilt builder.columns.items builder.rows.items };
}

impl Builder {
    ghost use Rattle.sparse_program.specs.Program.{IsCol, IsRow, row_from};

    /// No column and no row. It takes no memory.
    pub fn new(alloc: Global) -> Self
        ensures { result ≡ record { columns = []; rows = [] } }
    {
        Builder {
            columns: Vec::new(alloc),
            rows: Vec::new(alloc),
        }
    }

    /// The allocator that the builder was made with.
    pub fn alloc(&self) -> Global
        ensures few { length self.now.columns ≤ MAX_COLUMNS }
    {
        *self.rows.allocator()
    }

    /// Adds a column, and answers its number. Where memory is wanting the builder stays as it was.
    pub fn col(&mut self, low: i64, high: i64, cost: i64) -> Result<u32, Memory>
        requires lawful { IsCol (record { low = low; high = high; cost = cost }) }
        requires room { length self.old.columns < MAX_COLUMNS }
        ensures number { IfOk result (λ number. number ≡ length self.old.columns) }
        ensures ok { OnOk result (self.new ≡ record self.old { columns = self.old.columns ++ record { low = low; high = high; cost = cost } ∷ [] }) }
        ensures err { OnErr result (self.new ≡ self.old) }
    {
        let number = self.columns.len() as u32;
        self.columns.push(Col { low, high, cost })?;
        Ok(number)
    }

    /// Adds the row that says that an expression is equal to `rhs`, or at least `rhs`, and answers its number. The
    /// constant goes to the right side, and terms with coefficient 0 are left out. Where memory is wanting the
    /// builder stays as it was.
    pub fn row(&mut self, equal: bool, rhs: i64, of: &Linear) -> Result<u32, Memory>
        requires lawful { IsRow (length self.old.columns) (row_from equal rhs of.now) }
        requires room { length self.old.rows < MAX_ROWS }
        ensures number { IfOk result (λ number. number ≡ length self.old.rows) }
        ensures ok { OnOk result (self.new ≡ record self.old { rows = self.old.rows ++ row_from equal rhs of.now ∷ [] }) }
        ensures err { OnErr result (self.new ≡ self.old) }
    {
        let number = self.rows.len() as u32;
        let rhs = rhs - of.constant;
        let terms = of.terms.nonzero()?;
        self.rows.push(Row { equal, rhs, terms })?;
        Ok(number)
    }

    /// The program of these columns and rows, of which the first `plan_cols` columns are the plan's. Where memory is
    /// wanting the builder is gone.
    pub fn finish(self, plan_cols: u32) -> Result<Program, Memory>
        requires { plan_cols ≤ length self.columns }
        ensures { IfOk result (λ program. program ≡ record { columns = self.columns; rows = self.rows; plan_cols = plan_cols }) }
    {
        let Builder { columns, rows } = self;
        let by_column = Columns::of(*rows.allocator(), columns.len(), rows.as_slice())?;
        Ok(Program::new(columns, rows, by_column, plan_cols))
    }
}
