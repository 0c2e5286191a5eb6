//! The bytes of a block.
ghost use Rattle.std.specs.Prelude.{◌≡◌, ℕ, [], ◌∷◌, ◌++◌, ◌+◌, ◌<◌, ◌≤◌, ◌^◌, not, length, replicate, vec_len, vec_capacity, IfOk, OnOk, OnErr};
ghost use Rattle.std.specs.List.{filter, repeat};
ghost use Rattle.event_core.specs.Bytes.{row_of, written, zeros};
ghost use Rattle.sparse_bytes.specs.Runs.{byte_of, bytes_in, is_covered, kept_in, laid_over, Wrote};

use crate::run::{Content, Run};
use guest_base::{Bytes, Items};
use std::alloc::{AllocError, Global};
use std::marker::Model;

/// The bytes of a block of private memory, by their places from its first byte on. A byte that was never written is zero.
///
/// It keeps the runs that were written and filled, in their order, the latest of which counts at a place, and drops a run
/// once a later one covers the whole of it. So a block that was never written keeps nothing, a fill of any length keeps one
/// run of a few words, a write keeps its bytes and one such run, and of writes to one range the last alone is kept. A write and
/// a fill look once at each run that is kept, and so does a read, which then copies the bytes that each run has there.
///
/// Its room is the number of writes and fills that it can take with no further memory.
#[derive(Debug, Drop)]
pub struct SparseBytes {
    runs: Vec<Run>,
}

impl Model for SparseBytes {
    ghost use Rattle.std.specs.Prelude.{◌-◌, vec_len, vec_capacity};
    ghost use Rattle.sparse_bytes.specs.Runs.{Laid};

    ghost Value = { Laid };

    ghost view = { λ a. record {
      runs = a.runs.items;
      room = vec_capacity a.runs - vec_len a.runs;
    } };
}

impl SparseBytes {
    /// A block that was never written.
    pub fn new(alloc: Global) -> SparseBytes
        ensures zeros { (place : ℕ) → byte_of result place ≡ 0 }
        ensures none { result.runs ≡ [] }
    {
        SparseBytes {
            runs: Vec::new(alloc),
        }
    }

    /// Makes room for this many writes and fills. `AllocError` is out of memory. Whatever the answer, every byte is as before,
    /// and the room may have grown.
    pub fn reserve(&mut self, writes: u64) -> Result<(), AllocError>
        ensures ok { OnOk result (writes ≤ self.new.room) }
        ensures runs { self.new.runs ≡ self.old.runs }
        ensures room { self.old.room ≤ self.new.room }
    {
        self.runs.reserve(writes as usize)
    }

    /// Writes bytes from a place on, which it keeps. It needs room for one write, and can't fail.
    pub fn write_reserved(&mut self, at: u64, bytes: Bytes)
        requires room { 0 < self.old.room }
        ensures wrote { Wrote at bytes (length bytes) self.old.runs self.new.runs }
        ensures room { self.old.room ≤ self.new.room + 1 }
    {
        lay(&mut self.runs, at, Content::Written(bytes));
    }

    /// Fills `len` bytes from a place on with a byte, of which it keeps only how many they are. It needs room for one fill, and
    /// can't fail.
    pub fn fill_reserved(&mut self, at: u64, len: u64, byte: u8)
        requires room { 0 < self.old.room }
        ensures wrote { Wrote at (repeat len (byte ∷ [])) 0 self.old.runs self.new.runs }
        ensures room { self.old.room ≤ self.new.room + 1 }
    {
        lay(&mut self.runs, at, Content::Filled { len, byte });
    }

    /// Writes bytes from a place on, of which it keeps a copy. `AllocError` is out of memory, and then every byte is as before.
    pub fn write(&mut self, alloc: Global, at: u64, bytes: &[u8]) -> Result<(), AllocError>
        ensures ok { OnOk result
            (Wrote at bytes.now (length bytes.now) self.old.runs self.new.runs) }
        ensures err { OnErr result (self.new.runs ≡ self.old.runs) }
        ensures room { self.old.room ≤ self.new.room + 1 }
    {
        let copy = Items::from_vec(Vec::from_slice(alloc, bytes)?);
        self.reserve(1)?;
        self.write_reserved(at, copy);
        Ok(())
    }

    /// Fills `len` bytes from a place on with a byte. `AllocError` is out of memory, and then every byte is as before.
    pub fn fill(&mut self, at: u64, len: u64, byte: u8) -> Result<(), AllocError>
        ensures ok { OnOk result
            (Wrote at (repeat len (byte ∷ [])) 0 self.old.runs self.new.runs) }
        ensures err { OnErr result (self.new.runs ≡ self.old.runs) }
        ensures room { self.old.room ≤ self.new.room + 1 }
    {
        self.reserve(1)?;
        self.fill_reserved(at, len, byte);
        Ok(())
    }

    /// The bytes of `len` places from `at` on, in order, where the last of these places lies below 2^64 - 1. `AllocError` is out
    /// of memory.
    pub fn read(&self, alloc: Global, at: u64, len: u64) -> Result<Bytes, AllocError>
        requires { at + len < 2 ^ 64 }
        ensures { IfOk result (λ bytes. bytes ≡ row_of (byte_of self.now) at len) }
    {
        let mut bytes = zero_bytes(alloc, len)?;
        lay_all(&self.runs, at, bytes.as_mut_slice());
        Ok(Bytes::from_vec(bytes))
    }
}

/// This many bytes, each zero.
fn zero_bytes(alloc: Global, len: u64) -> Result<Vec<u8>, AllocError>
    ensures { IfOk result (λ bytes. bytes.items ≡ replicate len 0) }
{
    let mut bytes = Vec::new(alloc);
    bytes.resize(len as usize, 0)?;
    Ok(bytes)
}

/// Lays runs in turn over zeros that stand at the places from `at` on.
fn lay_all(runs: &Vec<Run>, at: u64, bytes: &mut [u8])
    requires zeros { bytes.old ≡ replicate (length bytes.old) 0 }
    requires end { at + length bytes.old < 2 ^ 64 }
    ensures { bytes.new ≡ row_of (laid_over zeros runs.now.items) at (length bytes.old) }
{
    for run in runs {
        run.lay_over(at, bytes);
    }
}

/// Lays a run over the others, and drops those that it covers.
fn lay(runs: &mut Vec<Run>, start: u64, content: Content)
    requires room { vec_len runs.old < vec_capacity runs.old }
    ensures wrote { Wrote start (bytes_in content) (kept_in content)
        runs.old.items runs.new.items }
    ensures len { vec_len runs.new ≤ vec_len runs.old + 1 }
    ensures capacity { vec_capacity runs.new ≡ vec_capacity runs.old }
{
    drop_covered(runs, start, content.len());
    runs.push_reserved(Run { start, content });
}

/// Drops the runs whose places are all among `len` places from `at` on.
fn drop_covered(runs: &mut Vec<Run>, at: u64, len: u64)
    ensures items { runs.new.items ≡ filter (λ run. not (is_covered at len run)) runs.old.items }
    ensures len { vec_len runs.new ≤ vec_len runs.old }
    ensures capacity { vec_capacity runs.new ≡ vec_capacity runs.old }
{
    runs.retain(|run| !run.is_covered(at, len));
}
