//! Runs of digests, one after another.

ghost use Rattle.std.specs.Prelude.{◌≡◌, ℕ, List, ◌+◌, ◌*◌, ◌^◌, ◌<◌, ◌≤◌, length, drop, All, slice_get};
ghost use Rattle.ats_grammar.specs.Position.{AreDigests};
ghost use Rattle.std.specs.Option.{option_copied};
ghost use Rattle.ats_proof.specs.Parts.{parts_in, counted_in, counted_size};
ghost use Rattle.ats_proof.specs.Reading.{digest_size, digest_in};

use crate::bytes::{number_2, number_4};
use ats_hash::Steps;

/// The digests of a section, or of a file of another kind, that are left.
#[derive(Clone, Copy)]
pub struct DigestRun<'a> {
    pub(crate) left: u32,
    pub(crate) bytes: &'a [u8],
    pub ghost fits: { left * 32 ≤ length bytes.now },
}

// The `left` digests at the front of bytes, and the bytes after them.
fn cut_digests(left: u32, bytes: &[u8]) -> (DigestRun<'_>, &[u8])
    requires { left * 32 ≤ length bytes.now }
    ensures left { result.0.left ≡ left }
    ensures bytes { result.0.bytes.now ≡ bytes.now }
    ensures rest { result.1.now ≡ drop (left * 32) bytes.now }
{
    let (_, rest) = bytes.split_at(left as usize * 32);
    (DigestRun { left, bytes }, rest)
}

/// The digests after their number, which has two bytes, and the bytes after them.
pub(crate) fn counted_digests_2(bytes: &[u8]) -> (DigestRun<'_>, &[u8])
    requires { counted_size 2 digest_size bytes.now ≤ length bytes.now }
    ensures digests { parts_in digest_size digest_in result.0.left result.0.bytes.now
        ≡ counted_in 2 digest_size digest_in bytes.now }
    ensures rest { result.1.now ≡ drop (counted_size 2 digest_size bytes.now) bytes.now }
{
    let left = u32::from(number_2(bytes));
    let (_, digests) = bytes.split_at(2);
    cut_digests(left, digests)
}

/// The digests after their number, which has four bytes.
pub(crate) fn counted_digests_4(bytes: &[u8]) -> DigestRun<'_>
    requires { counted_size 4 digest_size bytes.now ≤ length bytes.now }
    ensures { parts_in digest_size digest_in result.left result.bytes.now
        ≡ counted_in 4 digest_size digest_in bytes.now }
{
    let left = number_4(bytes);
    let (_, digests) = bytes.split_at(4);
    cut_digests(left, digests).0
}

impl<'a> DigestRun<'a> {
    ghost use Rattle.ats_proof.specs.Seen.{digests_of};

    /// The digests that these bytes are, 32 bytes each.
    pub fn of(bytes: &'a [u8]) -> DigestRun<'a>
        requires { length bytes.now < 2 ^ 32 }
        ensures digests { (count : ℕ) (all : List (List ℕ)) → AreDigests count bytes.now all → digests_of result ≡ all }
    {
        DigestRun {
            left: (bytes.len() / 32) as u32,
            bytes,
        }
    }

    /// Removes and returns the first digest left, `None` if none is left.
    pub fn pass(&mut self, steps: &mut Steps) -> Option<&'a [u8]>
        requires { steps.old + 1 < 2 ^ 64 }
        ensures first { option_copied result ≡ slice_get (digests_of self.old) 0 }
        ensures passed { digests_of self.new ≡ drop 1 (digests_of self.old) }
        ensures cost { steps.new ≡ steps.old + 1 }
    {
        steps.tick();
        if self.left == 0 {
            return None;
        }
        let (first, rest) = self.bytes.split_at(32);
        self.left -= 1;
        self.bytes = rest;
        Some(first)
    }

    /// How many digests are left.
    pub fn len(&self) -> u32
        ensures { result ≡ length (digests_of self.now) }
    {
        self.left
    }

    /// Each digest has 32 bytes.
    pub fn facts(&self)
        ensures { All (λ d. length d ≡ 32) (digests_of self.now) }
    {}
}
