//! What the table of a replay comes to, and how far what is kept of one plan serves another. The functions do nothing: their clauses
//! are laws, and a caller that calls one knows the law.

ghost use Rattle.std.specs.Prelude.{◌≡◌, ℕ, ◌≤◌, List, sum_by};
ghost use Rattle.cell_replay.specs.Keeps.{Keeps, KeepsTo, Kept, ShowTheSame};
ghost use Rattle.cell_replay.specs.Trace.{trace_of};
ghost use Rattle.cell_replay.specs.declared.lines.Line.{Line};
ghost use Rattle.ct_base.specs.declared.cell.Cell.{Cell};
ghost use Rattle.ct_base.specs.declared.net.Net.{Net};
ghost use Rattle.ct_base.specs.declared.plan.Letter.{Letter};
ghost use Rattle.ct_base.specs.declared.plan.Plan.{Plan};
ghost use Rattle.traffic_model.specs.Delay.{delay_of};

/// The delays of all lines of the first so many steps add up to the delay of these steps.
pub fn delays_of_lines_add_up()
    ensures { (cells : List Cell) (letters : ℕ → List Letter) (k : ℕ) →
        sum_by (λ (line : Line). line.delay) (trace_of cells letters k) ≡ delay_of cells letters k }
{}

/// What is kept of one plan serves another up to the first step at which they differ.
pub fn kept_steps_serve_plans_that_agree()
    ensures { (net : Net) (old new : Plan) (k : ℕ) (kept : Kept) →
        Keeps net old kept → k ≤ net.steps → ShowTheSame old new k → KeepsTo net new k kept }
{}
