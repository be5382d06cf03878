//! What the words of the definitions mean. The function does nothing: its clause is a law, and a caller that calls it knows the law.

ghost use Rattle.std.specs.Prelude.{ℕ, ◌<◌, ◌^◌};
ghost use Rattle.plan_rounding.specs.Named.{IsLowest, lowest_of};

/// The lowest-numbered phase of a set is one of them, and none before it is.
pub fn the_lowest_phase_comes_first()
    ensures { (phases : ℕ) → 0 < phases → phases < 2 ^ 8 → IsLowest phases (lowest_of phases) }
{}
