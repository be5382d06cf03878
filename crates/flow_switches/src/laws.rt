//! What the rows of a move say. The functions do nothing: their clauses are laws, and a caller that calls one knows its
//! law.

ghost use Rattle.std.specs.Prelude.{◌≡◌, ◌↔◌, ℕ, ℤ, List, Option, All, map};
ghost use Rattle.sparse_program.specs.Program.{Holds};
ghost use Rattle.program_model.specs.Rows.{AllMeet, SumRow};
ghost use Rattle.program_model.specs.SwitchRows.{Term, least_rows};
ghost use Rattle.flow_switches.specs.Moves.{IsLeastFlow, IsShutOrOpen, IsTermWithin, IsWithin};
ghost use Rattle.flow_switches.specs.Sums.{cap_sum, held};
ghost use Rattle.sparse_program.specs.declared.row.Row.{Row};

/// Where the terms of a move are between 0 and the most that they come to, and switches are off or on, the rows are met
/// exactly where the flow is the least term and the one switch that is on stands at the first least.
pub fn a_flow_is_the_first_least_term()
    ensures { (value : ℕ → ℤ) (flow : ℕ) (terms : List (Term ℕ)) (switch : ℕ → ℕ) → IsWithin value flow terms switch →
        AllMeet value (least_rows flow terms switch) ↔ ((place : ℕ) × IsLeastFlow value flow terms switch place) }
{}

/// The term of a cap is between 0 and the cap where its gate is shut or open, or where there is none.
pub fn a_capped_term_is_within_its_cap()
    ensures { (value : ℕ → ℤ) (cap : ℕ) (gate : Option (List ℕ)) → IsShutOrOpen value gate →
        IsTermWithin value (record { of = cap_sum cap gate; most = cap }) }
{}

/// Rows as a program holds them hold at exactly the values that meet them.
pub fn held_rows_hold_where_they_are_met()
    ensures { (value : ℕ → ℤ) (rows : List (SumRow ℕ)) → All (λ (row : Row). Holds row value) (map held rows) ↔ AllMeet value rows }
{}
