//! Laws of the definitions. Each function does nothing: its clause is a law, which a caller that calls it knows.

ghost use Rattle.std.specs.Prelude.{◌≡◌, ◌↔◌, ℕ, ◌<◌, ℤ, ◌+ℤ◌, ◌*ℤ◌, Bool, List, length, All, Contains};
ghost use Rattle.listed.specs.Below.{whole_sum_below};
ghost use Rattle.sparse_program.specs.Terms.{Rises, coefficient, terms_sum, inserted};
ghost use Rattle.sparse_program.specs.Program.{row_of, terms_of, entry, column_of, row_from, linear_value, Reaches, Holds, IsRow};
ghost use Rattle.sparse_program.specs.declared.row.Linear.{Linear};
ghost use Rattle.sparse_program.specs.declared.row.Row.{Row};

/// Rows and columns are one matrix: a column has a row with a coefficient exactly where the row has a term with this
/// coefficient at the column.
pub fn rows_and_columns_are_one_matrix()
    ensures { (rows : List Row) (i j : ℕ) (c : ℤ) →
        Contains (column_of rows j) (i, c) ↔ ((i < length rows) × Contains (terms_of rows i) (j, c)) }
{}

/// Where terms rise, a term is the coefficient at its number.
pub fn a_term_is_the_coefficient_at_its_number()
    ensures { (terms : List (ℕ × ℤ)) (j : ℕ) (c : ℤ) →
        Rises terms → Contains terms (j, c) → coefficient terms j ≡ c }
{}

/// The sum of a row is the sum over all columns of its entries times the values.
pub fn the_sum_of_a_row_is_that_of_its_entries()
    ensures { (columns : ℕ) (rows : List Row) (i : ℕ) (x : ℕ → ℤ) →
        IsRow columns (row_of rows i) →
        terms_sum (terms_of rows i) x ≡ whole_sum_below columns (λ j. entry rows i j *ℤ x j) }
{}

/// The sum of a column is the sum over all rows of its entries times the prices.
pub fn the_sum_of_a_column_is_that_of_its_entries()
    ensures { (rows : List Row) (j : ℕ) (p : ℕ → ℤ) →
        terms_sum (column_of rows j) p ≡ whole_sum_below (length rows) (λ i. entry rows i j *ℤ p i) }
{}

/// The sum over the rows of price times sum is the sum over the columns of value times sum.
pub fn prices_of_rows_are_prices_of_columns()
    ensures { (columns : ℕ) (rows : List Row) (p x : ℕ → ℤ) →
        All (IsRow columns) rows →
        whole_sum_below (length rows) (λ i. p i *ℤ terms_sum (terms_of rows i) x)
        ≡ whole_sum_below columns (λ j. x j *ℤ terms_sum (column_of rows j) p) }
{}

/// A row that is made of an expression holds exactly where the expression reaches the number.
pub fn a_row_says_what_its_expression_says()
    ensures { (equal : Bool) (rhs : ℤ) (of : Linear) (x : ℕ → ℤ) →
        Holds (row_from equal rhs of) x ↔ Reaches equal rhs (linear_value of x) }
{}

/// A term that is inserted adds its coefficient times the value at its number.
pub fn an_inserted_term_adds_its_value()
    ensures { (terms : List (ℕ × ℤ)) (term : ℕ × ℤ) (x : ℕ → ℤ) →
        terms_sum (inserted terms term) x ≡ term.1 *ℤ x term.0 +ℤ terms_sum terms x }
{}
