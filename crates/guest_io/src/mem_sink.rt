ghost use Rattle.std.specs.Prelude.{◌≡◌, [], Some};

use crate::numbered::NumberedCalls;
use crate::sink::{PutFault, Sink};
use std::alloc::Global;

/// A sink in memory, whose calls with given numbers fail.
#[derive(Debug, Drop)]
pub struct MemSink {
    written: Vec<u8>,
    calls: NumberedCalls,
}

impl MemSink {
    ghost use Rattle.guest_io.specs.MemSink.{written_in, faults_of, failing_of, calls_of, NeverFails};

    /// An empty sink. The calls of `put` whose numbers, counted from 1, stand in `failing` answer
    /// `Failed` and write nothing.
    pub fn new(alloc: Global, failing: Vec<u64>) -> MemSink
        ensures written { written_in result ≡ Some [] }
        ensures faults { faults_of result ≡ 0 }
        ensures failing { failing_of result ≡ failing.items }
        ensures calls { calls_of result ≡ 0 }
        ensures never_fails { failing.items ≡ [] → NeverFails result }
    {
        MemSink {
            written: Vec::new(alloc),
            calls: NumberedCalls::new(failing),
        }
    }

    /// All bytes written so far, in order.
    pub fn written(&self) -> &[u8]
        ensures { written_in self.now ≡ Some result.now }
    {
        self.written.as_slice()
    }
}

impl Sink for MemSink {
    ghost use Rattle.std.specs.Prelude.{◌≡◌, ◌+◌, ◌≤◌, ◌↔◌, true, OnOk, OnErr, IsErrOf};
    ghost use Rattle.guest_io.specs.Writing.{appended};
    ghost use Rattle.guest_base.specs.Counts.{raised_by};
    ghost use Rattle.guest_base.specs.Failing.{fails_at};
    ghost use Rattle.guest_io.specs.Faults.{faults_after};
    ghost use Rattle.guest_io.specs.MemSink.{written_in, faults_of, failing_of, calls_of, NeverFails};

    ghost written = { written_in };

    ghost faults = { faults_of };

    ghost never_fails = { NeverFails };

    ghost no_fault = { λ sink h. h.1 };

    /// Writes these bytes after those before. `Failed` comes exactly where the call is one of those
    /// that are to fail; no refusal writes anything.
    fn put(&mut self, alloc: Global, bytes: &[u8]) -> Result<(), PutFault>
        ensures ok { OnOk result (written_in self.new ≡ appended (written_in self.old) bytes.now) }
        ensures err { OnErr result (written_in self.new ≡ written_in self.old) }
        ensures fails { IsErrOf result PutFault.Failed
            ↔ (fails_at (failing_of self.old) (calls_of self.old + 1) ≡ true) }

        ensures same_failing { failing_of self.new ≡ failing_of self.old }
        ensures calls { calls_of self.new ≡ raised_by 1 (calls_of self.old) }
        ensures faults { faults_of self.new
            ≡ faults_after (fails_at (failing_of self.old) (calls_of self.old + 1))
            (faults_of self.old) }
        ensures faults_kept { faults_of self.old ≤ faults_of self.new }
    {
        if self.calls.count() {
            return Err(PutFault::Failed);
        }
        self.written.extend_from_slice(bytes)?;
        Ok(())
    }
}

#[cfg(test)]
mod tests {
    use super::*;
    use std::test::Fail;

    #[test]
    fn keeps_what_was_put(rt: HostRuntime) -> Result<(), Fail> {
        let alloc = rt.alloc();
        let mut sink = MemSink::new(alloc, vec![in alloc; 2]?);
        sink.put(alloc, b"cpu 0\n")?;
        assert_eq!(rt; sink.put(alloc, b"pages\n"), Err(PutFault::Failed));
        sink.put(alloc, b"end\n")?;
        assert_eq!(rt; sink.written(), b"cpu 0\nend\n".as_slice());
        Ok(())
    }
}
