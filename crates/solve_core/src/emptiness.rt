//! Leaves that are empty as soon as a split makes them (docs/search.md, "How leaves close"). Only the rule rows of the column that was
//! fixed are looked at: each alone; and where the column has to be 1, each row whose sum it completes, with the rows of that sum's other
//! columns. Nothing that is promised rests on which rows are tried: whatever is answered has a value that shows the box to be empty.

ghost use Rattle.std.specs.Prelude.{◌≡◌, ◌<◌, true, IfOk, IfSome, IsTrue, length};
ghost use Rattle.sparse_program.specs.Program.{row_of, terms_of};
ghost use Rattle.sparse_program.specs.Terms.{AreTerms};
ghost use Rattle.program_model.specs.Numbers.{plan_count};
ghost use Rattle.certificate_model.specs.Leaves.{IsGoodEmpty};
ghost use Rattle.certificate_model.specs.Value.{AreLawful};
ghost use Rattle.safe_bound.specs.Costed.{IsCostedOf};
ghost use Rattle.branch_tree.specs.Boxes.{box_of};
ghost use Rattle.branch_tree.specs.OpenTree.{is_open};
ghost use Rattle.solve_core.specs.inner.Emptiness.{ShowsEmpty};
ghost use Rattle.solve_core.specs.inner.Searching.{ClosesOne, IsSearching, IsTask, KeepsTree};

use crate::laws::nodes_have_bits;
use crate::search::Search;
use branch_tree::Leaf;
use cert_format::Pairs;
use ct_base::Net;
use listed::Memory;
use safe_bound::CostedBox;
use sparse_program::Program;
use std::alloc::Global;

impl Search {
    /// Pairs that show the box in which the search stands to be empty, if those that are tried once a plan column was fixed do so.
    pub(crate) fn empty_pairs(
        &mut self,
        alloc: Global,
        net: &Net,
        program: &Program,
        budget: u32,
        column: u32,
        rule_rows: u32,
    ) -> Result<Option<Pairs>, Memory>
        requires task { IsTask net.now program.now budget }
        requires searching { IsSearching net.now budget self.old }
        requires column { column < plan_count net.now }
        ensures searching { IsSearching net.now budget self.new }
        ensures keeps { KeepsTree self.old self.new }
        ensures at { self.new.at ≡ self.old.at }
        ensures kept { self.new.kept ≡ self.old.kept }
        ensures empty { IfOk result (λ found. IfSome found (λ pairs. IsGoodEmpty net.now (box_of self.new.tree self.new.at) pairs)) }
    {
        nodes_have_bits();
        found_empty(alloc, program, &mut self.costed, column, rule_rows)
    }

    /// Closes an open leaf that pairs show to be empty.
    pub(crate) fn close_empty(&mut self, net: &Net, budget: u32, leaf: u32, pairs: Pairs)
        requires searching { IsSearching net.now budget self.old }
        requires open { IsTrue (is_open self.old.tree.tree leaf) }
        requires empty { IsGoodEmpty net.now (box_of self.old.tree leaf) pairs }
        ensures searching { IsSearching net.now budget self.new }
        ensures closes { ClosesOne self.old self.new }
    {
        self.close(net, budget, leaf, Leaf::Empty(pairs), None);
    }
}

/// Pairs that show a box to be empty, if those that are tried once a column was fixed in it do so.
fn found_empty(
    alloc: Global,
    program: &Program,
    costed: &mut CostedBox,
    column: u32,
    rule_rows: u32,
) -> Result<Option<Pairs>, Memory>
    requires of { IsCostedOf program.now costed.old }
    requires column { column < length program.now.columns }
    ensures empty { IfOk result (λ found. IfSome found (ShowsEmpty program.now costed.old.box)) }
    ensures same { costed.new ≡ costed.old }
{
    if let Some(pairs) = single_rows(alloc, program, costed, column, rule_rows)? {
        return Ok(Some(pairs));
    }
    if costed.low(column) == 1 {
        completed_sums(alloc, program, costed, column, rule_rows)
    } else {
        Ok(None)
    }
}

/// The pair of a rule row of a column, if it shows the box to be empty. The rows of a column rise.
fn single_rows(
    alloc: Global,
    program: &Program,
    costed: &mut CostedBox,
    column: u32,
    rule_rows: u32,
) -> Result<Option<Pairs>, Memory>
    requires of { IsCostedOf program.now costed.old }
    requires column { column < length program.now.columns }
    ensures empty { IfOk result (λ found. IfSome found (ShowsEmpty program.now costed.old.box)) }
    ensures same { costed.new ≡ costed.old }
{
    for entry in program.column(column) {
        if rule_rows <= entry.0 {
            return Ok(None);
        }
        if let Some(pairs) = single_row(alloc, program, costed, entry.0)? {
            return Ok(Some(pairs));
        }
    }
    Ok(None)
}

/// The pair of a row, if it shows the box to be empty: at price 1 where its left side is too small, at -1 where it is too large.
fn single_row(
    alloc: Global,
    program: &Program,
    costed: &mut CostedBox,
    row: u32,
) -> Result<Option<Pairs>, Memory>
    requires of { IsCostedOf program.now costed.old }
    requires row { row < length program.now.rows }
    ensures empty { IfOk result (λ found. IfSome found (ShowsEmpty program.now costed.old.box)) }
    ensures same { costed.new ≡ costed.old }
{
    if let Some(pairs) = shown(alloc, program, costed, &[(row, 1)])? {
        return Ok(Some(pairs));
    }
    if program.row(row).equal {
        shown(alloc, program, costed, &[(row, -1)])
    } else {
        Ok(None)
    }
}

/// The pairs of two rows, the first of them a sum that a column of 1 completes, if they show the box to be empty.
fn completed_sums(
    alloc: Global,
    program: &Program,
    costed: &mut CostedBox,
    column: u32,
    rule_rows: u32,
) -> Result<Option<Pairs>, Memory>
    requires of { IsCostedOf program.now costed.old }
    requires column { column < length program.now.columns }
    ensures empty { IfOk result (λ found. IfSome found (ShowsEmpty program.now costed.old.box)) }
    ensures same { costed.new ≡ costed.old }
{
    for entry in program.column(column) {
        if rule_rows <= entry.0 {
            return Ok(None);
        }
        if let Some(pairs) = completed_sum(alloc, program, costed, entry.0, column, rule_rows)? {
            return Ok(Some(pairs));
        }
    }
    Ok(None)
}

/// The pairs of a row and one of the rows of its other columns, if the row is a sum and they show the box to be empty.
fn completed_sum(
    alloc: Global,
    program: &Program,
    costed: &mut CostedBox,
    sum: u32,
    column: u32,
    rule_rows: u32,
) -> Result<Option<Pairs>, Memory>
    requires of { IsCostedOf program.now costed.old }
    requires sum { sum < length program.now.rows }
    ensures empty { IfOk result (λ found. IfSome found (ShowsEmpty program.now costed.old.box)) }
    ensures same { costed.new ≡ costed.old }
{
    if !program.row(sum).equal {
        return Ok(None);
    }
    for term in terms_of(program, sum) {
        if term.0 == column {
            continue;
        }
        if let Some(pairs) = needed_column(alloc, program, costed, sum, term.0, rule_rows)? {
            return Ok(Some(pairs));
        }
    }
    Ok(None)
}

/// The pairs of a sum and one of the rule rows that need another column of it, if they show the box to be empty.
fn needed_column(
    alloc: Global,
    program: &Program,
    costed: &mut CostedBox,
    sum: u32,
    column: u32,
    rule_rows: u32,
) -> Result<Option<Pairs>, Memory>
    requires of { IsCostedOf program.now costed.old }
    requires sum { sum < length program.now.rows }
    requires equal { (row_of program.now.rows sum).equal ≡ true }
    requires column { column < length program.now.columns }
    ensures empty { IfOk result (λ found. IfSome found (ShowsEmpty program.now costed.old.box)) }
    ensures same { costed.new ≡ costed.old }
{
    for entry in program.column(column) {
        if rule_rows <= entry.0 {
            return Ok(None);
        }
        if let Some(pairs) = two_rows(alloc, program, costed, sum, entry.0)? {
            return Ok(Some(pairs));
        }
    }
    Ok(None)
}

/// The pairs of a sum at price -1 and another row at price 1, if they show the box to be empty. They stand in the order of their rows.
fn two_rows(
    alloc: Global,
    program: &Program,
    costed: &mut CostedBox,
    sum: u32,
    row: u32,
) -> Result<Option<Pairs>, Memory>
    requires of { IsCostedOf program.now costed.old }
    requires sum { sum < length program.now.rows }
    requires equal { (row_of program.now.rows sum).equal ≡ true }
    requires row { row < length program.now.rows }
    ensures empty { IfOk result (λ found. IfSome found (ShowsEmpty program.now costed.old.box)) }
    ensures same { costed.new ≡ costed.old }
{
    if sum < row {
        shown(alloc, program, costed, &[(sum, -1), (row, 1)])
    } else if row < sum {
        shown(alloc, program, costed, &[(row, 1), (sum, -1)])
    } else {
        Ok(None)
    }
}

/// These pairs, if they show the box to be empty.
fn shown(
    alloc: Global,
    program: &Program,
    costed: &mut CostedBox,
    pairs: &[(u32, i64)],
) -> Result<Option<Pairs>, Memory>
    requires of { IsCostedOf program.now costed.old }
    requires lawful { AreLawful program.now.rows pairs.now }
    ensures empty { IfOk result (λ found. IfSome found (ShowsEmpty program.now costed.old.box)) }
    ensures same { costed.new ≡ costed.old }
{
    if costed.value(program, pairs, false) < 1 {
        return Ok(None);
    }
    Ok(Some(Pairs::of(Vec::from_slice(alloc, pairs)?)))
}

/// The terms of a row.
fn terms_of(program: &Program, row: u32) -> &[(u32, i64)]
    requires { row < length program.now.rows }
    ensures value { result.now ≡ terms_of program.now.rows row }
    ensures lawful { AreTerms (length program.now.columns) result.now }
{
    program.row(row).terms.as_slice()
}
