//! The rows of a move. Its flow is the least of its terms, and the switch of the first least term is on:
//!
//! 1. the sum of the switches is 1;
//! 2. each term, less the flow and the switches of later terms, is at least 0;
//! 3. the flow, less a term and less the most of that term where its switch is on, is at least minus the most.
//!
//! By 1 one switch is on; by 2 and 3 its term is the flow and no term is below the flow; by 2 each earlier term is above it.

ghost use Rattle.std.specs.Prelude.{◌≡◌, ℕ, ◌+◌, ◌*◌, ◌<◌, ◌≤◌, [], ◌∷◌, length, map, All, OnOk, OnErr};
ghost use Rattle.std.specs.Option.{option_copied};
ghost use Rattle.sparse_program.specs.declared.limits.TheConstants.{MAX_ROWS, MAX_TERMS};
ghost use Rattle.program_model.specs.SwitchRows as model;
ghost use Rattle.flow_switches.specs.Added.{Adds, AddsFront};
ghost use Rattle.flow_switches.specs.Conditions.{MoveFits, TermFits};
ghost use Rattle.flow_switches.specs.Sums.{held, term_of, terms_of};
ghost use Rattle.flow_switches.specs.inner.Columns.{HasColumns};

use crate::sums::{consecutive, insert_times};
use crate::term::{Term, capped};
use listed::Memory;
use sparse_program::{Builder, Linear, Terms};

/// The columns of a move: its flow, and its switches from a column on.
#[derive(Clone, Copy)]
struct Move {
    flow: u32,
    first: u32,
    switches: u32,
}

impl Move {
    /// Adds the row that says that one switch is on.
    fn one_switch_row(self, builder: &mut Builder) -> Result<(), Memory>
        requires columns { HasColumns builder.old self }
        requires few { self.switches ≤ MAX_TERMS }
        requires room { length builder.old.rows < MAX_ROWS }
        ensures ok { OnOk result (Adds builder.old (held (model.one_switch_row (λ m. self.first + m) self.switches) ∷ []) builder.new) }
        ensures err { OnErr result (builder.new ≡ builder.old) }
    {
        let terms = consecutive(builder.alloc(), self.first, self.switches, 1)?;
        builder.row(true, 1, &Linear { constant: 0, terms })?;
        Ok(())
    }

    /// Adds the row that says that the flow is at most a term, and below it where a later switch is on.
    fn lower_row(self, builder: &mut Builder, number: u32, term: &Term) -> Result<(), Memory>
        requires columns { HasColumns builder.old self }
        requires number { number < self.switches }
        requires fits { TermFits (length builder.old.columns) self.switches term.now }
        requires room { length builder.old.rows < MAX_ROWS }
        ensures ok { OnOk result (Adds builder.old (held (model.lower_row self.flow (λ m. self.first + m) self.switches number (term_of term.now).of) ∷ []) builder.new) }
        ensures err { OnErr result (builder.new ≡ builder.old) }
    {
        let later = number + 1;
        let mut terms = consecutive(
            builder.alloc(),
            self.first + later,
            self.switches - later,
            -1,
        )?;
        terms.insert((self.flow, -1))?;
        insert_times(&mut terms, term.of.terms.as_slice(), 1)?;
        let constant = term.of.constant;
        builder.row(false, 0, &Linear { constant, terms })?;
        Ok(())
    }

    /// Adds the row that says that the flow is at least a term where its switch is on.
    fn upper_row(self, builder: &mut Builder, number: u32, term: &Term) -> Result<(), Memory>
        requires columns { HasColumns builder.old self }
        requires number { number < self.switches }
        requires fits { TermFits (length builder.old.columns) self.switches term.now }
        requires room { length builder.old.rows < MAX_ROWS }
        ensures ok { OnOk result (Adds builder.old (held (model.upper_row self.flow (self.first + number) (term_of term.now)) ∷ []) builder.new) }
        ensures err { OnErr result (builder.new ≡ builder.old) }
    {
        let mut terms = Terms::new(builder.alloc());
        terms.insert((self.first + number, -term.most))?;
        insert_times(&mut terms, term.of.terms.as_slice(), -1)?;
        terms.insert((self.flow, 1))?;
        let constant = -term.of.constant;
        builder.row(false, -term.most, &Linear { constant, terms })?;
        Ok(())
    }

    /// Adds the rows by which the flow is at most each term. Where memory is wanting a front of them was added.
    fn lower_rows(self, builder: &mut Builder, cap: &Term, further: &[Term]) -> Result<(), Memory>
        requires columns { HasColumns builder.old self }
        requires switches { self.switches ≡ length further.now + 1 }
        requires cap { TermFits (length builder.old.columns) self.switches cap.now }
        requires further { All (TermFits (length builder.old.columns) self.switches) further.now }
        requires room { length builder.old.rows + self.switches ≤ MAX_ROWS }
        ensures ok { OnOk result (Adds builder.old (map held (model.lower_rows self.flow (λ m. self.first + m) self.switches 0 (term_of cap.now ∷ map term_of further.now))) builder.new) }
        ensures err { OnErr result (AddsFront builder.old (map held (model.lower_rows self.flow (λ m. self.first + m) self.switches 0 (term_of cap.now ∷ map term_of further.now))) builder.new) }
    {
        self.lower_row(builder, 0, cap)?;
        for (k, term) in further.iter().enumerate() {
            self.lower_row(builder, k as u32 + 1, term)?;
        }
        Ok(())
    }

    /// Adds the rows by which the flow is at least the term whose switch is on. Where memory is wanting a front of them
    /// was added.
    fn upper_rows(self, builder: &mut Builder, cap: &Term, further: &[Term]) -> Result<(), Memory>
        requires columns { HasColumns builder.old self }
        requires switches { self.switches ≡ length further.now + 1 }
        requires cap { TermFits (length builder.old.columns) self.switches cap.now }
        requires further { All (TermFits (length builder.old.columns) self.switches) further.now }
        requires room { length builder.old.rows + self.switches ≤ MAX_ROWS }
        ensures ok { OnOk result (Adds builder.old (map held (model.upper_rows self.flow (λ m. self.first + m) 0 (term_of cap.now ∷ map term_of further.now))) builder.new) }
        ensures err { OnErr result (AddsFront builder.old (map held (model.upper_rows self.flow (λ m. self.first + m) 0 (term_of cap.now ∷ map term_of further.now))) builder.new) }
    {
        self.upper_row(builder, 0, cap)?;
        for (k, term) in further.iter().enumerate() {
            self.upper_row(builder, k as u32 + 1, term)?;
        }
        Ok(())
    }
}

/// Adds the rows that say that a flow is the least of some terms, and which of them is the first least one: first the term
/// of the cap, which is the cap or the cap times the sum of the gate's columns, and then the further terms. The switches of
/// all terms stand side by side, from the column `switches` on. Where memory is wanting a front of the rows was added.
pub fn least_rows(
    builder: &mut Builder,
    flow: u32,
    cap: i64,
    gate: Option<&[u32]>,
    terms: &[Term],
    switches: u32,
) -> Result<(), Memory>
    requires { MoveFits builder.old flow cap (option_copied gate) terms.now switches }
    ensures ok { OnOk result (Adds builder.old (map held (model.least_rows flow (terms_of cap (option_copied gate.entry) terms.now) (λ m. switches + m))) builder.new) }
    ensures err { OnErr result (AddsFront builder.old (map held (model.least_rows flow (terms_of cap (option_copied gate.entry) terms.now) (λ m. switches + m))) builder.new) }
{
    let first = capped(builder.alloc(), cap, gate)?;
    let columns = Move {
        flow,
        first: switches,
        switches: terms.len() as u32 + 1,
    };
    columns.one_switch_row(builder)?;
    columns.lower_rows(builder, &first, terms)?;
    columns.upper_rows(builder, &first, terms)
}
