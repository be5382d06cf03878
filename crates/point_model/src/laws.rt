//! The laws that show that integer points are plans. Each function does nothing: its clause is a law, which a caller that calls it
//! knows.

ghost use Rattle.std.specs.Prelude.{◌≡◌, ◌<◌, ℕ, ℤ, List, length, slice_index_or, take};
ghost use Rattle.ct_base.specs.Validity.{IsValid};
ghost use Rattle.ct_base.specs.declared.net.Net.{Net};
ghost use Rattle.ct_base.specs.declared.plan.Letter.{Letter};
ghost use Rattle.ct_base.specs.declared.plan.Plan.{Plan};
ghost use Rattle.traffic_model.specs.Runs.{IsAdmissiblePlan};
ghost use Rattle.program_model.specs.Columns.{Column, columns};
ghost use Rattle.program_model.specs.Existence.{IsColumn};
ghost use Rattle.program_model.specs.Numbers.{number_of, plan_count};
ghost use Rattle.program_model.specs.Points.{IsIntegerPoint, point_of, program_of};
ghost use Rattle.point_model.specs.PlansOfPoints.{IsPlanOf, plan_bits};

/// The list of columns has the columns of a network alone, and none of them twice: each place is the number of the column that stands
/// there.
pub fn places_are_the_numbers_of_their_columns()
    ensures is { (net : Net) (j : ℕ) (other : Column) → j < length (columns net) → IsColumn net (slice_index_or (columns net) j other) }
    ensures number { (net : Net) (j : ℕ) (other : Column) → j < length (columns net) →
        number_of net (slice_index_or (columns net) j other) ≡ j }
{}

/// Each integer point is the point of some admissible plan: the program has no point beside those of plans.
pub fn points_are_points_of_plans()
    ensures { (net : Net) (point : List ℤ) → IsValid net → IsIntegerPoint (program_of net) point → (plan : Plan) × IsPlanOf net point plan }
{}

/// Two admissible plans with one point are one plan.
pub fn plans_with_one_point_are_one()
    ensures { (net : Net) (plan other : Plan) → IsValid net → IsAdmissiblePlan net plan → IsAdmissiblePlan net other →
        point_of net plan.words ≡ point_of net other.words → plan ≡ other }
{}

/// The plan columns decide a point: two integer points that begin with the same bits are one point.
pub fn bits_decide_a_point()
    ensures { (net : Net) (point other : List ℤ) → IsValid net → IsIntegerPoint (program_of net) point →
        IsIntegerPoint (program_of net) other → take (plan_count net) point ≡ take (plan_count net) other → point ≡ other }
{}

/// The point of a plan begins with the bits of its letters, and an integer point that begins with the bits of an admissible plan is
/// that plan's. So the plan of a point can be read from its plan columns alone.
pub fn points_begin_with_the_bits_of_their_plans()
    ensures begins { (net : Net) (words : List (List Letter)) → take (plan_count net) (point_of net words) ≡ plan_bits net words }
    ensures decide { (net : Net) (point : List ℤ) (plan : Plan) → IsValid net → IsIntegerPoint (program_of net) point →
        IsAdmissiblePlan net plan → take (plan_count net) point ≡ plan_bits net plan.words → point ≡ point_of net plan.words }
{}
