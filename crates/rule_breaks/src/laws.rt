//! What it means that bits meet the rule rows. The function does nothing: its clause is a law, and a caller that calls it knows
//! the law.

ghost use Rattle.std.specs.Prelude.{◌↔◌, ◌≤◌, ℕ, ℤ, All};
ghost use Rattle.ct_base.specs.Validity.{IsSignal};
ghost use Rattle.ct_base.specs.declared.net.Net.{Net};
ghost use Rattle.ct_base.specs.declared.plan.Plan.{Plan};
ghost use Rattle.program_model.specs.Columns.{Column};
ghost use Rattle.program_model.specs.Rows.{AllMeet};
ghost use Rattle.rule_breaks.specs.Bits.{AreBitsOfPlan, AreOffOrOn, BeginAsFixed, rule_rows_within};

/// Bits of 0 and 1 with the fixed bits at step 0 meet the rule rows of a horizon exactly where they are those of an admissible
/// plan of so many steps: the rows look through windows of a few steps, and what they see is all that a word has to keep.
pub fn bits_meet_the_rule_rows_where_they_are_a_plan()
    ensures { (net : Net) (steps : ℕ) (value : Column → ℤ) → All IsSignal net.signals → 1 ≤ steps → AreOffOrOn net steps value → BeginAsFixed net value →
        AllMeet value (rule_rows_within net steps) ↔ ((plan : Plan) × AreBitsOfPlan net steps value plan) }
{}
