//! What a list that is decoded is. Each function does nothing: its clause is a law, which a caller that calls it knows.

ghost use Rattle.std.specs.Prelude.{◌≡◌, ◌↔◌, ℤ, List, [], Ok};
ghost use Rattle.ct_base.specs.Validity.{IsValid};
ghost use Rattle.ct_base.specs.declared.net.Net.{Net};
ghost use Rattle.ct_base.specs.declared.plan.Plan.{Plan};
ghost use Rattle.sparse_program.specs.Program.{Parts};
ghost use Rattle.traffic_model.specs.Delay.{delay_of, letters_at};
ghost use Rattle.traffic_model.specs.Runs.{IsAdmissiblePlan};
ghost use Rattle.program_model.specs.Points.{IsIntegerPoint, point_of};
ghost use Rattle.point_decode.specs.Breaks.{point_breaks};
ghost use Rattle.point_decode.specs.Decoded.{decoded, plan_shown};

/// Nothing breaks a list exactly where it is an integer point.
pub fn unbroken_lists_are_integer_points()
    ensures { (program : Parts) (point : List ℤ) → (point_breaks program point ≡ []) ↔ IsIntegerPoint program point }
{}

/// The plan that the point of an admissible plan shows is that plan. So no two admissible plans have one point.
pub fn points_show_their_plans()
    ensures { (net : Net) (plan : Plan) → IsValid net → IsAdmissiblePlan net plan →
        plan_shown net (point_of net plan.words) ≡ plan }
{}

/// The point of an admissible plan is decoded to that plan and its delay.
pub fn points_of_plans_are_decoded()
    ensures { (net : Net) (plan : Plan) → IsValid net → IsAdmissiblePlan net plan →
        decoded net (point_of net plan.words)
        ≡ Ok (record { plan = plan; delay = delay_of net.cells (letters_at plan.words) net.steps }) }
{}
