//! No unit is lost and none is made.

ghost use Rattle.std.specs.Prelude.{◌≡◌, ℕ, ◌+◌, List, length, sum};
ghost use Rattle.ct_base.specs.Validity.{IsValid};
ghost use Rattle.ct_base.specs.declared.net.Net.{Net};
ghost use Rattle.ct_base.specs.declared.plan.Letter.{Letter};
ghost use Rattle.listed.specs.Below.{sum_below};
ghost use Rattle.traffic_model.specs.Conservation.{arriving, leaving};
ghost use Rattle.traffic_model.specs.Delay.{left_of};
ghost use Rattle.traffic_model.specs.Occupancy.{initial_units, next_units, occupancies};

/// Over one step no unit is lost and none is made: what the cells hold after it, and what left by exits,
/// is what they held and the demand.
pub fn units_are_conserved_over_a_step()
    ensures { (net : Net) (letters : List Letter) (t : ℕ) (units : List ℕ) →
        IsValid net → length units ≡ length net.cells →
        sum (next_units net.cells letters t units) + leaving net.cells letters units
        ≡ sum units + arriving net.cells t }
{}

/// Over a whole run no unit is lost and none is made.
pub fn units_are_conserved_over_a_run()
    ensures { (net : Net) (letters : ℕ → List Letter) (k : ℕ) →
        IsValid net →
        left_of net.cells letters k
        + sum_below k (λ t. leaving net.cells (letters t) (occupancies net.cells letters t))
        ≡ sum (initial_units net.cells) + sum_below k (arriving net.cells) }
{}
