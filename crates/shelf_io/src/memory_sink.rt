//! A sink in memory, of which some calls are to fail.

ghost use Rattle.std.specs.Prelude.{◌≡◌, ◌≤◌, [], Some, IsErr, IsTrue, IfOk, OnErr, length, min, take};
ghost use Rattle.shelf_io.specs.Told.{IsSomeOf};
ghost use Rattle.shelf_io.specs.InMemory.{is_to_fail, after_take, after_failed_take, sink_state_of};

use crate::calls::{CallList, Calls};
use crate::counts::counted;
use crate::shelf::Failed;
use crate::sink::Sink;
use std::alloc::Global;
use std::marker::Model;

/// Bytes taken in memory. A call whose number is listed fails, and no call takes more than `most` bytes. Calls
/// are numbered from 1.
#[derive(Debug, Drop)]
pub struct MemorySink {
    taken: Vec<u8>,
    calls: Calls,
    most: usize,
    faults: u64,
}

impl Model for MemorySink {
    ghost use Rattle.std.specs.Prelude.{◌≤◌};
    ghost use Rattle.shelf_io.specs.InMemory.{SinkInMemory, sink_code};

    ghost Value = { SinkInMemory };

    ghost coded = { sink_code };

    ghost view = { λ sink. record {
      taken = sink.taken.items;
      calls = sink.calls.made;
      failing = sink.calls.failing;
      most = sink.most;
      faults = sink.faults;
    } };

    ghost invariant = { λ sink. 1 ≤ sink.most };
}

impl MemorySink {
    /// A sink that took nothing, of which no call was made. It takes no memory.
    pub fn new(alloc: Global, failing: CallList, most: usize) -> MemorySink
        requires { 1 ≤ most }
        ensures { result ≡ record { taken = []; calls = 0; failing = failing; most = most; faults = 0 } }
    {
        MemorySink {
            taken: Vec::new(alloc),
            calls: Calls::new(failing),
            most,
            faults: 0,
        }
    }

    /// The bytes that were taken so far.
    pub fn bytes(&self) -> &[u8]
        ensures { result.now ≡ self.now.taken }
    {
        self.taken.as_slice()
    }

    /// How many calls have failed.
    pub fn faults(&self) -> u64
        ensures { result ≡ self.now.faults }
    {
        self.faults
    }
}

impl Sink for MemorySink {
    ghost state = { λ sink. sink_state_of sink };

    /// Takes all bytes, but at most `most`. Fails where the call is listed. It may take memory, and where that is
    /// wanting it fails too.
    fn take(&mut self, bytes: &[u8]) -> Result<usize, Failed>
        ensures listed { IsTrue (is_to_fail self.old.calls self.old.failing) → IsErr result }
        ensures most { IfOk result (λ k. k ≡ min self.old.most (length bytes.now)) }
        ensures some { IfOk result (IsSomeOf bytes.now) }
        ensures ok { IfOk result (λ k. self.new ≡ after_take self.old (take k bytes.now)) }
        ensures err { OnErr result (self.new ≡ after_failed_take self.old) }
    {
        self.calls.begin(&mut self.faults)?;
        let count = bytes.len().min(self.most);
        let outcome = self.taken.extend_from_slice(&bytes[..count]);
        counted(outcome, &mut self.faults)?;
        Ok(count)
    }
}
