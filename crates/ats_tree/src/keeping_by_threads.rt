//! The digests of all nodes of a large tree, hashed by several threads.

ghost use Rattle.std.specs.Prelude.{◌≡◌, ◌+◌, ◌-◌, ◌*◌, ◌^◌, ◌<◌, ◌≤◌, length, take, drop};
ghost use Rattle.std.specs.Thread.{IsSync};
ghost use Rattle.ats_tree.specs.Kept.{kept_digests};

use crate::cut::cut_of;
use crate::hashing::Leaves;
use crate::keeping::keep_part;
use ats_hash::{Hash32, Steps};
use rayon::join_mut;
use std::alloc::Global;
use std::thread::Threads;

/// Puts the digests of the tree of the `n` leaves from leaf `from` on in their places. The tree is cut in two, and its
/// parts again, `halvings` times in all; the parts of each cut may be hashed by two threads.
#[cycle(parts)]
pub(crate) fn keep_by_threads<H: Hash32 + Sync, L: Leaves + Sync, R: Threads + Sync>(
    rt: &R,
    alloc: Global,
    leaves: &L,
    from: u32,
    n: u32,
    halvings: u32,
    digests: &mut [[u8; 32]],
)
    requires some { 1 ≤ n }
    requires within { from + n ≤ length (L.items leaves.now) }
    requires ends { from + n < 2 ^ 32 }
    requires nodes { length digests.old + 1 ≡ 2 * n }
    ensures { digests.new ≡ kept_digests H.hash (take n (drop from (L.items leaves.now))) }
{
    if halvings == 0 || n == 1 {
        keep_part::<H, L>(leaves, from, n, digests, &mut Steps::new(alloc));
        return;
    }
    let k = cut_of(n);
    let (own, parts) = digests.split_at_mut(1);
    let (left, right) = parts.split_at_mut(2 * k as usize - 1);
    keep_both::<H, L, R>(rt, alloc, leaves, from, k, n, halvings - 1, left, right);
    own[0] = H::digest2(1, &left[0], &right[0], &mut Steps::new(alloc));
}

// Both parts of the tree of the `n` leaves from leaf `from` on, which is cut after `k` of them.
#[cycle(parts)]
fn keep_both<H: Hash32 + Sync, L: Leaves + Sync, R: Threads + Sync>(
    rt: &R,
    alloc: Global,
    leaves: &L,
    from: u32,
    k: u32,
    n: u32,
    halvings: u32,
    left: &mut [[u8; 32]],
    right: &mut [[u8; 32]],
)
    requires some { 1 ≤ k }
    requires below { k < n }
    requires within { from + n ≤ length (L.items leaves.now) }
    requires ends { from + n < 2 ^ 32 }
    requires left { length left.old + 1 ≡ 2 * k }
    requires right { length right.old + 1 ≡ 2 * (n - k) }
    ensures left { left.new ≡ kept_digests H.hash (take k (drop from (L.items leaves.now))) }
    ensures right { right.new ≡ kept_digests H.hash (take (n - k) (drop (from + k) (L.items leaves.now))) }
{
    let mut front = ||
        requires sync { IsSync R.row × IsSync H.row × IsSync L.row }
        requires some { 1 ≤ k }
        requires within { from + k ≤ length (L.items leaves.now) }
        requires ends { from + k < 2 ^ 32 }
        requires nodes { length left.now + 1 ≡ 2 * k }
        ensures { left.exit.now ≡ kept_digests H.hash (take k (drop from (L.items leaves.entry.now))) }
    { keep_by_threads::<H, L, R>(rt, alloc, leaves, from, k, halvings, left) };
    let mut back = ||
        requires sync { IsSync R.row × IsSync H.row × IsSync L.row }
        requires below { k < n }
        requires within { from + n ≤ length (L.items leaves.now) }
        requires ends { from + n < 2 ^ 32 }
        requires nodes { length right.now + 1 ≡ 2 * (n - k) }
        ensures { right.exit.now ≡ kept_digests H.hash (take (n - k) (drop (from + k) (L.items leaves.entry.now))) }
    { keep_by_threads::<H, L, R>(rt, alloc, leaves, from + k, n - k, halvings, right) };
    join_mut(rt, &mut front, &mut back);
}
