//! Compares bytes with others that are put piece by piece.

ghost use Rattle.std.specs.Prelude.{◌≡◌, ◌≤◌, ◌++◌, [], ℕ, List, length, nat_eq, OnOk, MatchOption};
ghost use Rattle.std.specs.List.{common_prefix_len};
ghost use Rattle.ats_index.specs.Inner.Comparing.{IsCompared};
ghost use Rattle.ats_index.specs.LoadFaults.{IsDifference};

use crate::memory::OutOfMemory;
use ats_base::Bytes;

/// A target for bytes, which are put into it piece by piece.
pub(crate) trait Takes {
    /// The third argument is all that was put. The second is the bytes that it is compared with, if it compares.
    ghost has: { Self → List ℕ → List ℕ → Type 0 };

    fn put(&mut self, piece: &[u8]) -> Result<(), OutOfMemory>
        ensures { (about front : List ℕ) → has self.old about front
            → OnOk result (has self.new about (front ++ piece.now)) };
}

impl Takes for Bytes {
    ghost use Rattle.std.specs.Prelude.{◌≡◌};

    ghost has = { λ bytes about front. bytes ≡ front };

    fn put(&mut self, piece: &[u8]) -> Result<(), OutOfMemory> {
        self.extend(piece)?;
        Ok(())
    }
}

/// Compares bytes with what is put into it, without allocating.
#[derive(Drop)]
pub(crate) struct Comparer<'a> {
    bytes: &'a [u8],
    same: usize,
    differs: bool,
    ghost within: { same ≤ length bytes.now },
}

impl Takes for Comparer<'_> {
    ghost has = { λ c about front. (c.bytes.now ≡ about) × IsCompared about c.same c.differs front };

    fn put(&mut self, piece: &[u8]) -> Result<(), OutOfMemory> {
        if !self.differs {
            let same = common(&self.bytes[self.same..], piece);
            self.same += same;
            self.differs = same < piece.len();
        }
        Ok(())
    }
}

impl<'a> Comparer<'a> {
    pub(crate) fn new(bytes: &'a [u8]) -> Self
        ensures bytes { result.bytes.now ≡ bytes.now }
        ensures none { IsCompared bytes.now result.same result.differs [] }
    {
        Comparer {
            bytes,
            same: 0,
            differs: false,
        }
    }

    /// The first place where the bytes differ from what was put, if they do. If one of the two ends first, they differ
    /// there.
    pub(crate) fn difference(&self) -> Option<u64>
        ensures { (put : List ℕ) → IsCompared self.now.bytes.now self.now.same self.now.differs put
            → MatchOption result (self.now.bytes.now ≡ put) (IsDifference self.now.bytes.now put) }
    {
        if self.differs || self.same < self.bytes.len() {
            return Some(self.same as u64);
        }
        None
    }
}

// The length of the longest common prefix.
fn common(xs: &[u8], ys: &[u8]) -> usize
    ensures { result ≡ common_prefix_len nat_eq xs.now ys.now }
{
    for (i, x) in xs.iter().enumerate() {
        if i >= ys.len() || *x != ys[i] {
            return i;
        }
    }
    xs.len()
}
