//! The laws that show that the program means traffic and plans. Each function does nothing: its clause is a law, which a
//! caller that calls it knows.

ghost use Rattle.std.specs.Prelude.{◌≡◌, ◌<◌, ℕ, pos, List, length, slice_index_or};
ghost use Rattle.ct_base.specs.Validity.{IsValid};
ghost use Rattle.ct_base.specs.declared.net.Net.{Net};
ghost use Rattle.ct_base.specs.declared.plan.Letter.{Letter};
ghost use Rattle.ct_base.specs.declared.plan.Plan.{Plan};
ghost use Rattle.traffic_model.specs.Delay.{delay_of, letters_at};
ghost use Rattle.traffic_model.specs.Runs.{IsAdmissiblePlan};
ghost use Rattle.program_model.specs.Columns.{Column, columns, plan_columns};
ghost use Rattle.program_model.specs.Existence.{IsColumn};
ghost use Rattle.program_model.specs.Numbers.{number_of, plan_count};
ghost use Rattle.program_model.specs.Points.{IsIntegerPoint, objective, point_of, program_of};
ghost use Rattle.program_model.specs.Rows.{AllMeet};
ghost use Rattle.program_model.specs.RuleRows.{rule_rows};
ghost use Rattle.program_model.specs.Values.{value_of};

/// Each column of a network stands in its list of columns at its number, and the plan's are as many as counted.
pub fn columns_stand_at_their_numbers()
    ensures there { (net : Net) (c : Column) → IsColumn net c → number_of net c < length (columns net) }
    ensures at { (net : Net) (c other : Column) → IsColumn net c →
        slice_index_or (columns net) (number_of net c) other ≡ c }
    ensures plan { (net : Net) → length (plan_columns net) ≡ plan_count net }
{}

/// The bits of an admissible plan meet the rule rows.
pub fn plans_meet_the_rule_rows()
    ensures { (net : Net) (plan : Plan) → IsValid net → IsAdmissiblePlan net plan →
        AllMeet (λ c. pos (value_of net plan.words c)) (rule_rows net) }
{}

/// The point of an admissible plan is an integer point of the network's program.
pub fn points_of_plans_are_integer_points()
    ensures { (net : Net) (plan : Plan) → IsValid net → IsAdmissiblePlan net plan →
        IsIntegerPoint (program_of net) (point_of net plan.words) }
{}

/// The objective of a plan's point is the plan's delay.
pub fn the_objective_of_a_point_is_the_delay()
    ensures { (net : Net) (words : List (List Letter)) →
        objective (program_of net) (point_of net words) ≡ pos (delay_of net.cells (letters_at words) net.steps) }
{}
