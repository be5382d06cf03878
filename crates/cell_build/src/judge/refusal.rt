//! A refusal where a test holds.

ghost use Rattle.std.specs.Prelude.{◌≡◌};
ghost use Rattle.refusals.specs.Faults.{unless, where_so};

use crate::fault::BuildFault;

/// Refuses with the fault where the test holds.
pub(super) fn refuse_where(holds: bool, fault: BuildFault) -> Result<(), BuildFault>
    ensures { result ≡ unless (where_so holds fault) tt }
{
    if holds { Err(fault) } else { Ok(()) }
}
