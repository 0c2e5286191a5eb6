ghost use Rattle.std.specs.Prelude.{◌≡◌, ℕ, take};
ghost use Rattle.std.specs.Bool.{OnTrue};
ghost use Rattle.std.specs.Io.KnownBytes.{Appends};

use crate::sink::{PutFault, Sink};
use std::alloc::Global;
use std::io;
use std::io::Write;

/// Standard output, through the system's runtime. What was written is not known to contracts.
#[derive(Debug, Drop)]
pub struct RealSink<R> {
    runtime: R,
    faults: u64,
}

impl<R> RealSink<R> {
    ghost use Rattle.guest_io.specs.RealSink.{faults_of};

    /// The standard output of this runtime.
    pub fn new(runtime: R) -> RealSink<R>
        ensures { faults_of result ≡ 0 }
    {
        RealSink { runtime, faults: 0 }
    }
}

/// Writes these bytes to a stream, in order, and tells whether it took all of them. If not it took a prefix.
fn write_whole<W: Write>(out: &mut W, bytes: &[u8]) -> bool
    ensures all { OnTrue result (Appends (W.contents out.old) (W.contents out.new) bytes.now) }
    ensures prefix { (sent : ℕ)
        × Appends (W.contents out.old) (W.contents out.new) (take sent bytes.now) }
{
    let mut left = bytes;
    while !left.is_empty() {
        match out.write(left) {
            Ok(0) | Err(_) => return false,
            Ok(taken) => left = &left[taken..],
        }
    }
    true
}

impl<R: Print> Sink for RealSink<R> {
    ghost use Rattle.std.specs.Prelude.{◌≡◌, ◌≤◌, None, IsErrOf};
    ghost use Rattle.guest_io.specs.Faults.{faults_after};
    ghost use Rattle.guest_io.specs.Writing.{is_failed};
    ghost use Rattle.guest_io.specs.RealSink.{faults_of};

    ghost written = { λ _. None };

    ghost faults = { faults_of };

    ghost never_fails = { λ _. ⊥ };

    ghost no_fault = { λ _ h. absurd h };

    /// Writes these bytes to standard output. A write that takes none of them is a fault. No memory
    /// is needed.
    fn put(&mut self, alloc: Global, bytes: &[u8]) -> Result<(), PutFault>
        ensures faults { faults_of self.new ≡ faults_after (is_failed result) (faults_of self.old) }
        ensures faults_kept { faults_of self.old ≤ faults_of self.new }
        ensures memory { IsErrOf result PutFault.NoMemory → ⊥ }
    {
        if write_whole(&mut io::writer(&self.runtime), bytes) {
            Ok(())
        } else {
            self.faults = self.faults.saturating_add(1);
            Err(PutFault::Failed)
        }
    }
}

#[cfg(test)]
mod tests {
    use super::*;
    use std::io::ErrorKind;
    use std::test::Fail;

    /// A stream that takes one byte, and then fails.
    #[derive(Drop)]
    struct Broken {
        took: bool,
    }

    impl Write for Broken {
        fn write(&mut self, buf: &[u8]) -> io::Result<usize> {
            if self.took {
                return Err(io::Error::from(ErrorKind::Other));
            }
            self.took = true;
            Ok(buf.len().min(1))
        }

        fn flush(&mut self) -> io::Result<()> {
            Ok(())
        }
    }

    #[test]
    fn writes_all_or_says_so(rt: HostRuntime) -> Result<(), Fail> {
        let mut text = Vec::new(rt.alloc());
        assert!(rt; write_whole(&mut text, b"guest"));
        assert_eq!(rt; text.as_slice(), b"guest".as_slice());
        assert!(rt; !write_whole(&mut Broken { took: false }, b"guest"));
        Ok(())
    }

    #[test]
    fn writes_to_standard_output(rt: HostRuntime) -> Result<(), Fail> {
        let mut sink = RealSink::new(rt);
        sink.put(rt.alloc(), b"guest\n")?;
        assert_eq!(rt; sink.faults, 0);
        Ok(())
    }
}
