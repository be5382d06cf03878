//! The delay of the first steps of a run: what decides it, that it never falls, and that it is small.

ghost use Rattle.std.specs.Prelude.{◌≡◌, ℕ, ◌^◌, ◌<◌, ◌≤◌, List};
ghost use Rattle.ct_base.specs.Validity.{IsValid};
ghost use Rattle.ct_base.specs.declared.cell.Cell.{Cell};
ghost use Rattle.ct_base.specs.declared.net.Net.{Net};
ghost use Rattle.ct_base.specs.declared.plan.Letter.{Letter};
ghost use Rattle.traffic_model.specs.Delay.{delay_of, left_of};
ghost use Rattle.traffic_model.specs.Occupancy.{occupancies};

/// A delay is below 2 ^ 49.
pub fn delays_are_small()
    ensures { (net : Net) (letters : ℕ → List Letter) (k : ℕ) →
        IsValid net → k ≤ net.steps → delay_of net.cells letters k < 2 ^ 49 }
{}

/// The delay of more steps is no less.
pub fn delays_never_fall()
    ensures { (cells : List Cell) (letters : ℕ → List Letter) (j k : ℕ) →
        j ≤ k → delay_of cells letters j ≤ delay_of cells letters k }
{}

/// Letters that are the same in the first k steps make the cells hold the same at each step up to k.
pub fn earlier_letters_decide_the_occupancies()
    ensures { (cells : List Cell) (letters others : ℕ → List Letter) (k : ℕ) →
        ((t : ℕ) → t < k → letters t ≡ others t) →
        (t : ℕ) → t ≤ k → occupancies cells letters t ≡ occupancies cells others t }
{}

/// And they have the same delay of the first k steps.
pub fn earlier_letters_decide_the_delay()
    ensures { (cells : List Cell) (letters others : ℕ → List Letter) (k : ℕ) →
        ((t : ℕ) → t < k → letters t ≡ others t) →
        delay_of cells letters k ≡ delay_of cells others k }
{}

/// And as much is left after them.
pub fn earlier_letters_decide_what_is_left()
    ensures { (cells : List Cell) (letters others : ℕ → List Letter) (k : ℕ) →
        ((t : ℕ) → t < k → letters t ≡ others t) →
        left_of cells letters k ≡ left_of cells others k }
{}
