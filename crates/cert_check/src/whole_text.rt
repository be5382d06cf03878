//! The verdict of a whole text.

ghost use Rattle.std.specs.Prelude.{◌≡◌, ◌<◌, ◌≤◌, ℤ, ◌≤ℤ◌, Ok, Err, length};
ghost use Rattle.ct_base.specs.Validity.{IsValid};
ghost use Rattle.ct_base.specs.declared.plan.Plan.{Plan};
ghost use Rattle.traffic_model.specs.Runs.{IsAdmissiblePlan};
ghost use Rattle.program_model.specs.Points.{rows};
ghost use Rattle.sparse_program.specs.declared.limits.TheConstants.{MAX_ROWS};
ghost use Rattle.certificate_model.specs.Leaves.{plan_delay};
ghost use Rattle.certificate_model.specs.declared.constants.TheConstants.{MAX_CERTIFICATE_BYTES};
ghost use Rattle.certificate_model.specs.declared.verdict.Verdict.TheVariants.{Accepted};
ghost use Rattle.cert_check.specs.Deserved.{Deserves};
ghost use Rattle.lo_program.specs.declared.fault.CompileFault.TheVariants.{TooLarge};

use crate::pieces::Checker;
use certificate_model::Verdict;
use certificate_model::laws::accepted_bounds_are_safe;
use ct_base::Net;
use lo_program::CompileFault;
use std::alloc::Global;

/// The verdict that the text of a certificate deserves for a network. Where it is accepted, no admissible plan has a delay below the
/// bound. A network whose program has too many rows is refused with their number before any memory is taken.
pub fn verdict(alloc: Global, net: &Net, bytes: &[u8]) -> Result<Verdict, CompileFault>
    requires valid { IsValid net.now }
    requires short { length bytes.now ≤ MAX_CERTIFICATE_BYTES }
    ensures value { Deserves net.now bytes.now result }
    ensures large { MAX_ROWS < length (rows net.now) → result ≡ Err (TooLarge (length (rows net.now))) }
    ensures safe { (bound : ℤ) (plan : Plan) → result ≡ Ok (Accepted bound) → IsAdmissiblePlan net.now plan → bound ≤ℤ plan_delay net.now plan }
{
    accepted_bounds_are_safe();
    let mut checker = Checker::start(alloc, net)?;
    checker.feed(net, bytes)?;
    Ok(checker.finish())
}
