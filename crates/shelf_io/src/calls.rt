//! Calls that are numbered, some of which are to fail.

ghost use Rattle.std.specs.Prelude.{◌≡◌, ◌≤◌, is_err, OnOk, OnErr};
ghost use Rattle.shelf_io.specs.Counts.{risen};
ghost use Rattle.shelf_io.specs.InMemory.{is_to_fail};

use crate::counts::raise;
use crate::shelf::Failed;
use listed::Listed;

/// The numbers of calls, which count from 1.
pub type CallList = Listed<u64>;

/// How many calls there were, and the numbers of those that are to fail.
#[derive(Debug, Drop)]
pub struct Calls {
    made: u64,
    failing: CallList,
}

impl Calls {
    /// No call so far.
    pub fn new(failing: CallList) -> Calls
        ensures made { result.made ≡ 0 }
        ensures failing { result.failing ≡ failing }
    {
        Calls { made: 0, failing }
    }

    /// Counts a call. One that is to fail fails, and its count of faults rises.
    pub fn begin(&mut self, faults: &mut u64) -> Result<(), Failed>
        ensures fails { is_err result ≡ is_to_fail self.old.made self.old.failing }
        ensures made { self.new.made ≡ risen self.old.made }
        ensures failing { self.new.failing ≡ self.old.failing }
        ensures same { OnOk result (faults.new ≡ faults.old) }
        ensures rose { OnErr result (faults.new ≡ risen faults.old) }
        ensures kept { faults.old ≤ faults.new }
    {
        raise(&mut self.made);
        if self.failing.as_slice().contains(&self.made) {
            raise(faults);
            return Err(Failed);
        }
        Ok(())
    }
}
