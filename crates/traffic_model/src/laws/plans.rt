//! That there are admissible words and plans: a valid signal can always go on.

ghost use Rattle.std.specs.Prelude.{◌≡◌, ℕ, ◌≤◌, List, length};
ghost use Rattle.ct_base.specs.Validity.{IsSignal, IsValid};
ghost use Rattle.ct_base.specs.declared.net.Net.{Net};
ghost use Rattle.ct_base.specs.declared.plan.Letter.{Letter};
ghost use Rattle.ct_base.specs.declared.plan.Plan.{Plan};
ghost use Rattle.ct_base.specs.declared.signal.Signal.{Signal};
ghost use Rattle.traffic_model.specs.Runs.{GoesOnFrom, IsAdmissible, IsAdmissiblePlan, IsAdmissiblePlanOfLength, front_of_plan};

/// A valid signal has an admissible word of each length.
pub fn signals_have_words()
    ensures { (signal : Signal) (t : ℕ) → IsSignal signal →
        (word : List Letter) × (IsAdmissible signal word × (length word ≡ t)) }
{}

/// An admissible word goes on to any greater length.
pub fn words_go_on()
    ensures { (signal : Signal) (front : List Letter) (n : ℕ) →
        IsSignal signal → IsAdmissible signal front → length front ≤ n →
        (word : List Letter) × GoesOnFrom signal front word n }
{}

/// A valid network has an admissible plan, and one of each other length.
pub fn networks_have_plans()
    ensures whole { (net : Net) → IsValid net → (plan : Plan) × IsAdmissiblePlan net plan }
    ensures of_length { (net : Net) (t : ℕ) → IsValid net → (plan : Plan) × IsAdmissiblePlanOfLength net t plan }
{}

/// An admissible plan of the first t steps is the front of an admissible plan of any greater length.
pub fn plans_go_on()
    ensures { (net : Net) (t n : ℕ) (front : Plan) →
        IsValid net → IsAdmissiblePlanOfLength net t front → t ≤ n →
        (plan : Plan) × (IsAdmissiblePlanOfLength net n plan × (front_of_plan t plan ≡ front)) }
{}
