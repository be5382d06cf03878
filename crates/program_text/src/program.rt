//! From a program to its text.

ghost use Rattle.std.specs.Prelude.{◌≡◌, ◌++◌, ◌∷◌, [], flat_map, IfOk, OnOk};
ghost use Rattle.program_text.specs.ProgramText.{column_line, columns_line, program_text, relation_word, row_line, rows_line, term_word};

use crate::number::push_number;
use listed::Memory;
use sparse_program::{Col, Program, Row};
use std::alloc::Global;

/// The bytes that a line of a column takes in most programs: its cost is small, and mostly 0.
const COLUMN_BYTES: usize = 10;

/// The bytes that a line of a row takes in most programs: some three terms.
const ROW_BYTES: usize = 40;

/// The text of the program.
pub fn write_program(alloc: Global, program: &Program) -> Result<Vec<u8>, Memory>
    ensures { IfOk result (λ text. text.items ≡ program_text program.now) }
{
    let mut text = Vec::with_capacity(alloc, likely_bytes(program))?;
    text.extend_from_slice(b"ctm-program 1\n")?;
    push_column_count(&mut text, program)?;
    push_columns(&mut text, program)?;
    push_row_count(&mut text, program)?;
    push_rows(&mut text, program)?;
    text.extend_from_slice(b"end\n")?;
    Ok(text)
}

/// About how many bytes the text has. Where it has more, it grows.
fn likely_bytes(program: &Program) -> usize {
    program.cols() as usize * COLUMN_BYTES + program.rows() as usize * ROW_BYTES
}

/// Adds the line that says how many columns there are.
fn push_column_count(text: &mut Vec<u8>, program: &Program) -> Result<(), Memory>
    ensures { OnOk result (text.new.items ≡ text.old.items ++ (columns_line program.now ++ 10 ∷ [])) }
{
    text.extend_from_slice(b"columns ")?;
    push_number(text, program.cols())?;
    text.push(b' ')?;
    push_number(text, program.plan_cols())?;
    text.push(b'\n')?;
    Ok(())
}

/// Adds a line for each column.
fn push_columns(text: &mut Vec<u8>, program: &Program) -> Result<(), Memory>
    ensures { OnOk result (text.new.items ≡ text.old.items ++ flat_map (λ col. column_line col ++ 10 ∷ []) program.now.columns) }
{
    for number in 0..program.cols() {
        push_column(text, program.col(number))?;
    }
    Ok(())
}

/// Adds the line of a column.
fn push_column(text: &mut Vec<u8>, col: Col) -> Result<(), Memory>
    ensures { OnOk result (text.new.items ≡ text.old.items ++ (column_line col ++ 10 ∷ [])) }
{
    push_number(text, col.low)?;
    text.push(b' ')?;
    push_number(text, col.high)?;
    text.push(b' ')?;
    push_number(text, col.cost)?;
    text.push(b'\n')?;
    Ok(())
}

/// Adds the line that says how many rows there are.
fn push_row_count(text: &mut Vec<u8>, program: &Program) -> Result<(), Memory>
    ensures { OnOk result (text.new.items ≡ text.old.items ++ (rows_line program.now ++ 10 ∷ [])) }
{
    text.extend_from_slice(b"rows ")?;
    push_number(text, program.rows())?;
    text.push(b'\n')?;
    Ok(())
}

/// Adds a line for each row.
fn push_rows(text: &mut Vec<u8>, program: &Program) -> Result<(), Memory>
    ensures { OnOk result (text.new.items ≡ text.old.items ++ flat_map (λ row. row_line row ++ 10 ∷ []) program.now.rows) }
{
    for number in 0..program.rows() {
        push_row(text, program.row(number))?;
    }
    Ok(())
}

/// Adds the line of a row.
fn push_row(text: &mut Vec<u8>, row: &Row) -> Result<(), Memory>
    ensures { OnOk result (text.new.items ≡ text.old.items ++ (row_line row.now ++ 10 ∷ [])) }
{
    text.extend_from_slice(relation(row.equal))?;
    text.push(b' ')?;
    push_number(text, row.rhs)?;
    push_terms(text, row.terms.as_slice())?;
    text.push(b'\n')?;
    Ok(())
}

/// The word that says how a row's sum compares with its right side.
fn relation(equal: bool) -> &'static [u8]
    ensures { result.now ≡ relation_word equal }
{
    if equal { b"eq" } else { b"ge" }
}

/// Adds the terms of a row, each behind a space.
fn push_terms(text: &mut Vec<u8>, terms: &[(u32, i64)]) -> Result<(), Memory>
    ensures { OnOk result (text.new.items ≡ text.old.items ++ flat_map (λ term. 32 ∷ term_word term) terms.now) }
{
    for term in terms {
        push_term(text, *term)?;
    }
    Ok(())
}

/// Adds a term behind a space.
fn push_term(text: &mut Vec<u8>, term: (u32, i64)) -> Result<(), Memory>
    ensures { OnOk result (text.new.items ≡ text.old.items ++ 32 ∷ term_word term) }
{
    text.push(b' ')?;
    push_number(text, term.0)?;
    text.push(b':')?;
    push_number(text, term.1)?;
    Ok(())
}
