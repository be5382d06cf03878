//! Counts that rise and never fall.

ghost use Rattle.std.specs.Prelude.{◌≡◌, ◌≤◌, IfOk, OnOk, OnErr, IsErr};
ghost use Rattle.shelf_io.specs.Counts.{risen};

use crate::shelf::Failed;

/// Raises a count by one, as long as it can rise.
pub fn raise(count: &mut u64)
    ensures risen { count.new ≡ risen count.old }
    ensures kept { count.old ≤ count.new }
{
    *count = count.saturating_add(1);
}

/// What a call gave. A failure is counted.
pub fn counted<T, E: Drop>(outcome: Result<T, E>, faults: &mut u64) -> Result<T, Failed>
    ensures ok { IfOk result (λ gave. outcome ≡ Ok gave) }
    ensures err { OnErr result (IsErr outcome) }
    ensures same { OnOk result (faults.new ≡ faults.old) }
    ensures kept { faults.old ≤ faults.new }
    ensures rose { OnErr result (faults.new ≡ risen faults.old) }
{
    match outcome {
        Ok(gave) => Ok(gave),
        Err(_) => {
            raise(faults);
            Err(Failed)
        }
    }
}
