ghost use Rattle.std.specs.Prelude.{◌≡◌, ℕ, List, [], Some, find, string_bytes};
ghost use Rattle.std.specs.Option.{option_copied};
ghost use Rattle.std.specs.Str.{bytes_eq};
ghost use Rattle.guest_io.specs.Reading.{content_of};

use crate::files::{Files, ReadFault};
use crate::numbered::NumberedCalls;
use guest_base::Bytes;
use std::alloc::Global;

/// Files in memory, whose calls with given numbers fail.
#[derive(Debug, Drop)]
pub struct MemFiles {
    files: Vec<(String, Vec<u8>)>,
    calls: NumberedCalls,
    asked: Vec<String>,
    bytes_read: u64,
}

impl MemFiles {
    ghost use Rattle.guest_io.specs.MemFiles.{content_in, known, names_asked, faults_of, bytes_of, failing_of, calls_of, NeverFails};

    /// The files by their names. A name that isn't there is an empty file; of several entries with
    /// one name the first counts. The calls of `read_all` whose numbers, counted from 1, stand in
    /// `failing` answer `Failed`, however long the file is.
    pub fn new(alloc: Global, files: Vec<(String, Vec<u8>)>, failing: Vec<u64>) -> MemFiles
        ensures holds { (name : List ℕ) → known result name ≡ Some (content_of files.items name) }
        ensures asked { names_asked result ≡ [] }
        ensures faults { faults_of result ≡ 0 }
        ensures bytes_read { bytes_of result ≡ 0 }
        ensures failing { failing_of result ≡ failing.items }
        ensures calls { calls_of result ≡ 0 }
        ensures never_fails { failing.items ≡ [] → NeverFails result }
    {
        MemFiles {
            files,
            calls: NumberedCalls::new(failing),
            asked: Vec::new(alloc),
            bytes_read: 0,
        }
    }
}

/// The first entry of this name.
fn first_named<'a>(files: &'a [(String, Vec<u8>)], name: &str) -> Option<&'a (String, Vec<u8>)>
    ensures { option_copied result
        ≡ find (λ file. bytes_eq (string_bytes file.0) name.now) files.now }
{
    files.iter().find(|file| file.0.as_str() == name)
}

/// The bytes of the first entry of this name, none where there is no such entry.
fn find_content<'a>(files: &'a [(String, Vec<u8>)], name: &str) -> &'a [u8]
    ensures { result.now ≡ content_of files.now name.now }
{
    match first_named(files, name) {
        Some(file) => file.1.as_slice(),
        None => &[],
    }
}

impl Files for MemFiles {
    ghost use Rattle.std.specs.Prelude.{◌≡◌, ◌+◌, Some, ◌<◌, ◌≤◌, length, true, if◌then◌else◌, IfOk, IsErrOf, ◌⊎◌, is_ok};
    ghost use Rattle.guest_base.specs.Counts.{raised_by};
    ghost use Rattle.guest_base.specs.Failing.{fails_at};
    ghost use Rattle.guest_io.specs.Faults.{faults_after};
    ghost use Rattle.guest_io.specs.Reading.{AsksFor};
    ghost use Rattle.guest_io.specs.MemFiles.{content_in, known, names_asked, faults_of, bytes_of, failing_of, calls_of, NeverFails};

    ghost holds = { known };

    ghost asked = { names_asked };

    ghost faults = { faults_of };

    ghost bytes_read = { bytes_of };

    ghost never_fails = { NeverFails };

    ghost no_fault = { λ files h. h.1 };

    /// The bytes of the first entry of this name. `Failed` comes exactly where the call is one of
    /// those that are to fail, and else `TooLong` exactly where the file has more than `max` bytes,
    /// unless memory runs out.
    fn read_all(&mut self, alloc: Global, name: &str, max: u64) -> Result<Bytes, ReadFault>
        ensures whole { IfOk result (λ bytes. known self.old name.now ≡ Some bytes) }
        ensures within { IfOk result (λ bytes. length bytes ≤ max) }

        ensures failed { IsErrOf result ReadFault.Failed
            → fails_at (failing_of self.old) (calls_of self.old + 1) ≡ true }
        ensures fails { fails_at (failing_of self.old) (calls_of self.old + 1) ≡ true
            → IsErrOf result ReadFault.Failed ⊎ IsErrOf result ReadFault.NoMemory }
        ensures too_long { IsErrOf result ReadFault.TooLong
            → max < length (content_in self.old name.now) }

        ensures same_files { known self.new ≡ known self.old }
        ensures same_failing { failing_of self.new ≡ failing_of self.old }
        ensures asks { AsksFor name.now result (names_asked self.old) (names_asked self.new) }
        ensures calls { calls_of self.new ≡ raised_by 1 (calls_of self.old) }
        ensures faults { faults_of self.new
            ≡ faults_after (fails_at (failing_of self.old) (calls_of self.old + 1))
            (faults_of self.old) }
        ensures faults_kept { faults_of self.old ≤ faults_of self.new }
        ensures bytes_read { bytes_of self.new
            ≡ (if is_ok result
            then raised_by (length (content_in self.old name.now)) (bytes_of self.old)
            else bytes_of self.old) }
        ensures bytes_kept { bytes_of self.old ≤ bytes_of self.new }
        ensures bytes_within { bytes_of self.new ≤ bytes_of self.old + (max + 1) }
    {
        let fails = self.calls.count();
        self.asked.push(String::from_str(alloc, name)?)?;
        if fails {
            return Err(ReadFault::Failed);
        }
        let content = find_content(&self.files, name);
        if content.len() as u64 > max {
            return Err(ReadFault::TooLong);
        }
        let bytes = Vec::from_slice(alloc, content)?;
        self.bytes_read = self.bytes_read.saturating_add(content.len() as u64);
        Ok(Bytes::from_vec(bytes))
    }
}

#[cfg(test)]
mod tests {
    use super::*;
    use std::test::Fail;

    #[test]
    fn reads_the_first_entry_and_fails_where_named(rt: HostRuntime) -> Result<(), Fail> {
        let alloc = rt.alloc();
        let mut entries = Vec::new(alloc);
        entries.push((String::from_str(alloc, "map")?, b"one".to_vec(alloc)?))?;
        entries.push((String::from_str(alloc, "map")?, b"two".to_vec(alloc)?))?;
        let mut files = MemFiles::new(alloc, entries, vec![in alloc; 4]?);
        assert_eq!(rt;
            files.read_all(alloc, "map", 3)?.as_slice(),
            b"one".as_slice()
        );
        assert!(rt; files.read_all(alloc, "script", 3)?.is_empty());
        assert_eq!(rt;
            files.read_all(alloc, "map", 2).err(),
            Some(ReadFault::TooLong)
        );
        assert_eq!(rt;
            files.read_all(alloc, "map", 2).err(),
            Some(ReadFault::Failed)
        );
        assert_eq!(rt; files.asked.len(), 4);
        Ok(())
    }
}
