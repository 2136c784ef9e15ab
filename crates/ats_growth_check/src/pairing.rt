//! The two roots that the digests of a growth give.

ghost use Rattle.std.specs.Prelude.{◌≡◌, ◌+◌, ◌*◌, ◌^◌, ◌<◌, ◌≤◌, length, drop, Some, slice_get};
ghost use Rattle.ats_proof.specs.Seen.{digests_of};
ghost use Rattle.ats_growth_check.specs.Inner.Paired.{ArePaired};
ghost use Rattle.ats_growth_check.specs.Shape.{turns, need};

use ats_hash::{Hash32, Steps};
use ats_proof::DigestRun;
use ats_tree::cut_of;

/// A digest of a part of the old tree, and one of the part of the new tree that has grown from it.
#[derive(Clone, Copy)]
pub(crate) struct RootPair {
    pub(crate) old: [u8; 32],
    pub(crate) new: [u8; 32],
}

/// How many digests show the growth from the first `m` of `n` leaves to all of them. If all are old, it is none if
/// their digest is known.
pub fn digests_needed(m: u32, n: u32, known: bool) -> u32
    requires some { 1 ≤ m }
    requires within { m ≤ n }
    ensures number { result ≡ need (turns m n) known }
    ensures few { result ≤ n }
{
    if m == n {
        return if known { 0 } else { 1 };
    }
    let k = cut_of(n);
    if m <= k {
        1 + digests_needed(m, k, known)
    } else {
        1 + digests_needed(m - k, n - k, false)
    }
}

/// The roots that the first digests give for the first `m` of `n` leaves and for all of them. The old root is `root` if it
/// is known, that is, if these are all old leaves. The digests that come after those that are needed are left.
pub(crate) fn roots_of<H: Hash32>(
    root: &[u8; 32],
    m: u32,
    n: u32,
    known: bool,
    digests: &mut DigestRun<'_>,
    steps: &mut Steps,
) -> RootPair
    requires some { 1 ≤ m }
    requires within { m ≤ n }
    requires enough { need (turns m n) known ≤ length (digests_of digests.old) }
    requires space { steps.old + 3 * length (turns m n) + 1 < 2 ^ 64 }
    ensures paired { ArePaired H.hash root.now (turns m n) known (digests_of digests.old) result.old result.new
        (digests_of digests.new) }
    ensures cost { steps.new ≤ steps.old + 3 * length (turns m n) + 1 }
{
    if m == n {
        if known {
            return RootPair {
                old: *root,
                new: *root,
            };
        }
        let digest = next_digest(digests, steps);
        return RootPair {
            old: digest,
            new: digest,
        };
    }
    let k = cut_of(n);
    if m <= k {
        let left = roots_of::<H>(root, m, k, known, digests, steps);
        let right = next_digest(digests, steps);
        RootPair {
            old: left.old,
            new: H::digest2(1, &left.new, &right, steps),
        }
    } else {
        let right = roots_of::<H>(root, m - k, n - k, false, digests, steps);
        let left = next_digest(digests, steps);
        RootPair {
            old: H::digest2(1, &left, &right.old, steps),
            new: H::digest2(1, &left, &right.new, steps),
        }
    }
}

/// Takes the first digest.
pub fn next_digest(digests: &mut DigestRun<'_>, steps: &mut Steps) -> [u8; 32]
    requires some { 1 ≤ length (digests_of digests.old) }
    requires space { steps.old + 1 < 2 ^ 64 }
    ensures first { slice_get (digests_of digests.old) 0 ≡ Some result }
    ensures passed { digests_of digests.new ≡ drop 1 (digests_of digests.old) }
    ensures cost { steps.new ≡ steps.old + 1 }
{
    digests.facts();
    let Some(digest) = digests.pass(steps) else {
        unreachable!()
    };
    let mut copy = [0; 32];
    copy.copy_from_slice(digest);
    copy
}
