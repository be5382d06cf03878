//! The first letters of words and plans.

ghost use Rattle.std.specs.Prelude.{◌≡◌, ℕ, ◌<◌, ◌≤◌, List, take};
ghost use Rattle.ct_base.specs.declared.cell.Cell.{Cell};
ghost use Rattle.ct_base.specs.declared.net.Net.{Net};
ghost use Rattle.ct_base.specs.declared.plan.Letter.{Letter};
ghost use Rattle.ct_base.specs.declared.plan.Plan.{Plan};
ghost use Rattle.ct_base.specs.declared.signal.Signal.{Signal};
ghost use Rattle.traffic_model.specs.Delay.{delay_of, letters_at};
ghost use Rattle.traffic_model.specs.Runs.{IsAdmissible, IsAdmissiblePlanOfLength, front_of_plan};

/// The first letters of an admissible word are an admissible word.
pub fn fronts_of_words_are_admissible()
    ensures { (signal : Signal) (word : List Letter) (t : ℕ) →
        IsAdmissible signal word → IsAdmissible signal (take t word) }
{}

/// The first t letters of each word of an admissible plan are an admissible plan of length t.
pub fn fronts_of_plans_are_admissible()
    ensures { (net : Net) (n t : ℕ) (plan : Plan) →
        IsAdmissiblePlanOfLength net n plan → t ≤ n →
        IsAdmissiblePlanOfLength net t (front_of_plan t plan) }
{}

/// The front of a plan shows in its steps what the plan shows.
pub fn fronts_show_the_same_letters()
    ensures { (plan : Plan) (t u : ℕ) →
        u < t → letters_at (front_of_plan t plan).words u ≡ letters_at plan.words u }
{}

/// A plan has at least the delay of its front.
pub fn fronts_have_no_more_delay()
    ensures { (cells : List Cell) (plan : Plan) (t k : ℕ) → t ≤ k →
        delay_of cells (letters_at (front_of_plan t plan).words) t ≤ delay_of cells (letters_at plan.words) k }
{}
