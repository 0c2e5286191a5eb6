//! Runs of bytes.
ghost use Rattle.std.specs.Prelude.{◌≡◌, ℕ, ◌+◌, ◌^◌, ◌<◌, min, length, slice_index};
ghost use Rattle.sparse_bytes.specs.Runs.{bytes_in, is_covered, laid_at};

use guest_base::Bytes;

/// What stands in a run.
#[derive(Debug, Drop)]
pub(crate) enum Content {
    Filled { len: u64, byte: u8 },
    Written(Bytes),
}

/// Bytes that were laid from a place on.
#[derive(Debug, Drop)]
pub(crate) struct Run {
    pub(crate) start: u64,
    pub(crate) content: Content,
}

impl Content {
    /// The number of bytes.
    #[tactic(auto, using(crate::proofs::FillLemmas::size_of))]
    pub(crate) fn len(&self) -> u64
        ensures { result ≡ length (bytes_in self.now) }
    {
        match self {
            Content::Filled { len, .. } => *len,
            Content::Written(bytes) => bytes.len(),
        }
    }

    /// The byte at a place, counted from the first one.
    #[tactic(auto, using(crate::proofs::FillLemmas::size_of, crate::proofs::FillLemmas::byte_in))]
    fn byte(&self, at: u64) -> u8
        requires { at < length (bytes_in self.now) }
        ensures { result ≡ slice_index (bytes_in self.now) at }
    {
        match self {
            Content::Filled { byte, .. } => *byte,
            Content::Written(bytes) => *bytes.get(at),
        }
    }
}

impl Run {
    /// Lays the run over bytes that stand at the places from `at` on.
    pub(crate) fn lay_over(&self, at: u64, bytes: &mut [u8])
        requires end { at + length bytes.old < 2 ^ 64 }
        ensures len { length bytes.new ≡ length bytes.old }
        ensures bytes { (k : ℕ) → k < length bytes.old → slice_index bytes.new k
            ≡ laid_at self.now at bytes.old k }
    {
        let first = self.start.max(at);
        let end = self.end_within(at + bytes.len() as u64);
        for place in first..end {
            bytes[(place - at) as usize] = self.content.byte(place - self.start);
        }
    }

    /// The place behind its last one, and `end` where this is above it.
    fn end_within(&self, end: u64) -> u64
        ensures { result ≡ min (self.now.start + length (bytes_in self.now.content)) end }
    {
        let own = self.content.len();
        if self.start < end && own < end - self.start {
            self.start + own
        } else {
            end
        }
    }

    /// Whether each of its places is one of `len` places from `at` on.
    pub(crate) fn is_covered(&self, at: u64, len: u64) -> bool
        ensures { result ≡ is_covered at len self.now }
    {
        let own = self.content.len();
        at <= self.start && own <= len && self.start - at <= len - own
    }
}
