//! Which rows a change of one price concerns: those that name one of its columns.

ghost use Rattle.std.specs.Prelude.{◌≡◌, ◌≢◌, ℕ, ◌<◌, false, pos, length};
ghost use Rattle.sparse_program.specs.Program.{entry, terms_of};
ghost use Rattle.sparse_program.specs.Terms.{AreTerms};
ghost use Rattle.dual_prices.specs.inner.Waiting.{AreApart, waits};

use sparse_program::Program;

/// Lets a row wait, and all rows that have a column in common with it.
pub(crate) fn wake(program: &Program, waiting: &mut [bool], row: u32)
    requires there { row < length program.now.rows }
    requires long { length waiting.old ≡ length program.now.rows }
    ensures long { length waiting.new ≡ length program.now.rows }
    ensures calm { (i : ℕ) → waits waiting.new i ≡ false → waits waiting.old i ≡ false }
    ensures apart { (i : ℕ) → waits waiting.new i ≡ false → AreApart program.now.rows row i }
    ensures other { (i : ℕ) → waits waiting.new i ≡ false → i ≢ row }
{
    waiting[row as usize] = true;
    wake_neighbours(program, waiting, row);
}

/// Lets all rows wait that have a column in common with a row.
fn wake_neighbours(program: &Program, waiting: &mut [bool], row: u32)
    requires there { row < length program.now.rows }
    requires long { length waiting.old ≡ length program.now.rows }
    ensures long { length waiting.new ≡ length program.now.rows }
    ensures calm { (i : ℕ) → waits waiting.new i ≡ false → waits waiting.old i ≡ false }
    ensures apart { (i : ℕ) → waits waiting.new i ≡ false → AreApart program.now.rows row i }
{
    let terms = terms_of(program, row);
    for term in terms {
        wake_column(program, waiting, term.0);
    }
}

/// Lets all rows wait that name a column.
fn wake_column(program: &Program, waiting: &mut [bool], j: u32)
    requires there { j < length program.now.columns }
    requires long { length waiting.old ≡ length program.now.rows }
    ensures long { length waiting.new ≡ length program.now.rows }
    ensures calm { (i : ℕ) → waits waiting.new i ≡ false → waits waiting.old i ≡ false }
    ensures apart { (i : ℕ) → waits waiting.new i ≡ false → entry program.now.rows i j ≡ pos 0 }
{
    let column = program.column(j);
    for term in column {
        waiting[term.0 as usize] = true;
    }
}

/// The terms of a row.
fn terms_of(program: &Program, row: u32) -> &[(u32, i64)]
    requires { row < length program.now.rows }
    ensures value { result.now ≡ terms_of program.now.rows row }
    ensures lawful { AreTerms (length program.now.columns) result.now }
{
    program.row(row).terms.as_slice()
}
