//! Reading and writing are each other's inverse, and what has a text are the admissible plans.

ghost use Rattle.std.specs.Prelude.{◌≡◌, ◌↔◌, ℕ, List, Ok};
ghost use Rattle.ct_base.specs.declared.plan.Plan.{Plan};
ghost use Rattle.traffic_model.specs.Runs.{IsAdmissiblePlan};
ghost use Rattle.plan_file.specs.PlanText.{Spells};
ghost use Rattle.plan_file.specs.Spelled.{spelled_plan};

use named_net::NamedNet;

/// A text is read as a plan exactly where it spells the plan.
pub fn is_read_where_it_spells(named: &NamedNet)
    ensures { (text : List ℕ) (plan : Plan) → (spelled_plan named.now text ≡ Ok plan) ↔ Spells named.now text plan }
{
    // What a named network keeps of its names: they fit it.
    let _names = named.names();
}

/// A plan has one text: so reading a text that was written gives the plan back, and writing a plan that was read gives
/// the text back.
pub fn has_one_text(named: &NamedNet)
    ensures { (text other : List ℕ) (plan : Plan) → Spells named.now text plan → Spells named.now other plan → text ≡ other }
{
    // What a named network keeps of its names: they fit it.
    let _names = named.names();
}

/// Each admissible plan has a text.
pub fn every_admissible_plan_has_a_text(named: &NamedNet)
    ensures { (plan : Plan) → IsAdmissiblePlan named.now.net plan → (text : List ℕ) × Spells named.now text plan }
{
    // What a named network keeps of its names: they fit it.
    let _names = named.names();
}

/// What a text spells is admissible.
pub fn spelled_plans_are_admissible(named: &NamedNet)
    ensures { (text : List ℕ) (plan : Plan) → Spells named.now text plan → IsAdmissiblePlan named.now.net plan }
{
    // What a named network keeps of its names: they fit it.
    let _names = named.names();
}
