ghost use Rattle.std.specs.Prelude.{◌≡◌, ℕ, ◌+◌, ◌<◌, ◌≤◌, List, [], ◌++◌, length, vec_len, IfOk, OnOk, IsErrOf};
ghost use Rattle.std.specs.Io.KnownBytes.{IsAtEnd};
ghost use Rattle.guest_base.specs.Counts.{raised_by, RoseByMoreThan};
ghost use Rattle.guest_io.specs.Reading.{Gives, GivesAtMost};

use crate::files::{Files, ReadFault};
use guest_base::Bytes;
use std::alloc::Global;
use std::io::Read;
use std::{fs, rt};

/// The bytes asked of a file at once, at most.
const CHUNK: usize = 4096;

/// The files of the system, through its runtime. What they hold is not known to contracts.
#[derive(Debug, Drop)]
pub struct RealFiles<R> {
    runtime: R,
    asked: Vec<String>,
    faults: u64,
    bytes_read: u64,
}

impl<R> RealFiles<R> {
    ghost use Rattle.guest_io.specs.RealFiles.{names_asked, faults_of, bytes_of};

    /// The files of this runtime.
    pub fn new(alloc: Global, runtime: R) -> RealFiles<R>
        ensures asked { names_asked result ≡ [] }
        ensures faults { faults_of result ≡ 0 }
        ensures bytes_read { bytes_of result ≡ 0 }
    {
        RealFiles {
            runtime,
            asked: Vec::new(alloc),
            faults: 0,
            bytes_read: 0,
        }
    }
}

/// Reads at most `room` more bytes of a stream, counts them and tells how many; none is the stream's end. Whatever the answer,
/// the count rises by the bytes that the stream gave.
fn read_some<F: Read>(
    file: &mut F,
    bytes: &mut Vec<u8>,
    room: u64,
    bytes_read: &mut u64,
) -> Result<usize, ReadFault>
    requires { 0 < room }
    ensures appends { IfOk result (λ taken. (given : List ℕ) × (length given ≡ taken)
        × (bytes.new.items ≡ bytes.old.items ++ given)
        × Gives (F.remaining file.old) (F.remaining file.new) given bytes_read.old bytes_read.new) }
    ensures within { IfOk result (λ taken. taken ≤ room) }
    ensures at_end { IfOk result (λ taken. taken ≡ 0 → IsAtEnd (F.remaining file.new)) }
    ensures gives { GivesAtMost room
        (F.remaining file.old) (F.remaining file.new) bytes_read.old bytes_read.new }
    ensures no_length { IsErrOf result ReadFault.TooLong → ⊥ }
{
    let before = *bytes_read;
    let mut chunk = [0u8; CHUNK];
    let wanted = room.min(CHUNK as u64) as usize;
    let Ok(taken) = file.read(&mut chunk[..wanted]) else {
        return Err(ReadFault::Failed);
    };
    *bytes_read = before.saturating_add(taken as u64);
    bytes.extend_from_slice(&chunk[..taken])?;
    Ok(taken)
}

/// All bytes of a stream that gives at most `max`, counting those that it gave: what it gave is read in order, up to its end.
/// `TooLong` comes only where it gave more than `max` bytes. At most `max + 1` are read, whatever the answer.
fn read_whole<F: Read>(
    alloc: Global,
    file: &mut F,
    max: u64,
    bytes_read: &mut u64,
) -> Result<Vec<u8>, ReadFault>
    ensures within { IfOk result (λ bytes. vec_len bytes ≤ max) }
    ensures whole { IfOk result (λ bytes. Gives
        (F.remaining file.old) (F.remaining file.new) bytes.items bytes_read.old bytes_read.new) }
    ensures at_end { OnOk result (IsAtEnd (F.remaining file.new)) }
    ensures too_long { IsErrOf result ReadFault.TooLong → (given : List ℕ) × (max < length given)
        × Gives (F.remaining file.old) (F.remaining file.new) given bytes_read.old bytes_read.new }
    ensures gives { GivesAtMost (max + 1)
        (F.remaining file.old) (F.remaining file.new) bytes_read.old bytes_read.new }
{
    // A count that was read is known to be in its range.
    let _before = *bytes_read;
    let mut bytes = Vec::new(alloc);
    while bytes.len() as u64 <= max {
        let room = max - bytes.len() as u64;
        if read_some(file, &mut bytes, room.saturating_add(1), bytes_read)? == 0 {
            return Ok(bytes);
        }
    }
    Err(ReadFault::TooLong)
}

/// All bytes of the file of this name, which has at most `max`, counting those that it read.
fn read_named<R: rt::Files>(
    alloc: Global,
    runtime: &R,
    name: &str,
    max: u64,
    bytes_read: &mut u64,
) -> Result<Vec<u8>, ReadFault>
    ensures within { IfOk result (λ bytes. vec_len bytes ≤ max) }
    ensures counts { IfOk result (λ bytes. bytes_read.new
        ≡ raised_by (vec_len bytes) bytes_read.old) }
    ensures too_long { IsErrOf result ReadFault.TooLong
        → RoseByMoreThan max bytes_read.old bytes_read.new }
    ensures never_falls { bytes_read.old ≤ bytes_read.new }
    ensures at_most { bytes_read.new ≤ bytes_read.old + (max + 1) }
{
    // A count that was read is known to be in its range.
    let _before = *bytes_read;
    let Ok(mut file) = fs::open(runtime, name) else {
        return Err(ReadFault::Failed);
    };
    read_whole(alloc, &mut file, max, bytes_read)
}

impl<R: rt::Files> Files for RealFiles<R> {
    ghost use Rattle.std.specs.Prelude.{◌≡◌, ◌+◌, ◌≤◌, length, None, IfOk, IsErrOf};
    ghost use Rattle.guest_base.specs.Counts.{raised_by, RoseByMoreThan};
    ghost use Rattle.guest_io.specs.Faults.{faults_after};
    ghost use Rattle.guest_io.specs.Reading.{AsksFor, is_failed};
    ghost use Rattle.guest_io.specs.RealFiles.{names_asked, faults_of, bytes_of};

    ghost holds = { λ _ _. None };

    ghost asked = { names_asked };

    ghost faults = { faults_of };

    ghost bytes_read = { bytes_of };

    ghost never_fails = { λ _. ⊥ };

    ghost no_fault = { λ _ h. absurd h };

    /// All bytes of the file of this name. Whatever the system refuses is a fault; at most
    /// `max + 1` bytes are read.
    fn read_all(&mut self, alloc: Global, name: &str, max: u64) -> Result<Bytes, ReadFault>
        ensures within { IfOk result (λ bytes. length bytes ≤ max) }
        ensures counts { IfOk result (λ bytes. bytes_of self.new
            ≡ raised_by (length bytes) (bytes_of self.old)) }
        ensures too_long { IsErrOf result ReadFault.TooLong
            → RoseByMoreThan max (bytes_of self.old) (bytes_of self.new) }

        ensures asks { AsksFor name.now result (names_asked self.old) (names_asked self.new) }
        ensures faults { faults_of self.new ≡ faults_after (is_failed result) (faults_of self.old) }
        ensures faults_kept { faults_of self.old ≤ faults_of self.new }
        ensures bytes_kept { bytes_of self.old ≤ bytes_of self.new }
        ensures bytes_within { bytes_of self.new ≤ bytes_of self.old + (max + 1) }
    {
        self.asked.push(String::from_str(alloc, name)?)?;
        let read = read_named(alloc, &self.runtime, name, max, &mut self.bytes_read);
        if let Err(ReadFault::Failed) = read {
            self.faults = self.faults.saturating_add(1);
        }
        Ok(Bytes::from_vec(read?))
    }
}

#[cfg(test)]
mod tests {
    use super::*;
    use std::io::ErrorKind;
    use std::test::Fail;
    use std::{env, io, process};

    /// A stream that gives three bytes at once, and then fails.
    #[derive(Drop)]
    struct Broken {
        gave: bool,
    }

    impl Read for Broken {
        fn read(&mut self, buf: &mut [u8]) -> io::Result<usize> {
            if self.gave {
                return Err(io::Error::from(ErrorKind::Other));
            }
            self.gave = true;
            Ok(buf.len().min(3))
        }
    }

    #[test]
    fn counts_what_a_stream_gave(rt: HostRuntime) -> Result<(), Fail> {
        let alloc = rt.alloc();
        let mut count = 0;
        let mut text = b"guest".as_slice();
        assert_eq!(rt;
            read_whole(alloc, &mut text, 5, &mut count)?.as_slice(),
            b"guest".as_slice()
        );
        assert_eq!(rt; count, 5);

        let mut text = b"guest".as_slice();
        let long = read_whole(alloc, &mut text, 3, &mut count).err();
        assert_eq!(rt; long, Some(ReadFault::TooLong));
        assert_eq!(rt; count, 9);

        let mut broken = Broken { gave: false };
        let failed = read_whole(alloc, &mut broken, 8, &mut count).err();
        assert_eq!(rt; failed, Some(ReadFault::Failed));
        assert_eq!(rt; count, 12);
        Ok(())
    }

    #[test]
    fn reads_what_was_written(rt: HostRuntime) -> Result<(), Fail> {
        let alloc = rt.alloc();
        let name = format!(in alloc; "guest_io_{}", process::id(rt.process()))?;
        let path = env::temp_dir(&rt)?.join(alloc, name.as_str())?;
        let content = vec![in alloc; 7; 5000]?;
        fs::write(&rt, path.as_str(), content.as_slice())?;

        let mut files = RealFiles::new(alloc, rt);
        let read = files.read_all(alloc, path.as_str(), 5000);
        let long = files.read_all(alloc, path.as_str(), 4999).err();
        fs::remove_file(&rt, path.as_str())?;
        assert_eq!(rt; read?.as_slice(), content.as_slice());
        assert_eq!(rt; long, Some(ReadFault::TooLong));
        assert_eq!(rt; files.bytes_read, 10_000);

        assert_eq!(rt; files.faults, 0);
        assert_eq!(rt;
            files.read_all(alloc, path.as_str(), 1).err(),
            Some(ReadFault::Failed)
        );
        assert_eq!(rt; files.faults, 1);
        Ok(())
    }
}
