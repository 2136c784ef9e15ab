//! The digest of a list in blocks from its first leaves and the digests of the rest.

ghost use Rattle.std.specs.Prelude.{◌≡◌, ℕ, ◌+◌, ◌*◌, ◌^◌, ◌<◌, ◌≤◌, List, [], length, drop, min, All, Some, IfSome, IfNone, is_some, slice_get, if◌then◌else◌};
ghost use Rattle.std.specs.List.{range_with_len};
ghost use Rattle.ats_tree.specs.Shown.{positions_of};
ghost use Rattle.ats_lists.specs.Blocks.{blocks_in};
ghost use Rattle.ats_lists.specs.Inner.BlockRoots.{AreBlockRoots};
ghost use Rattle.ats_lists.specs.Chain.{chain, chain_digest, no_block};
ghost use Rattle.ats_lists.specs.ChainPrefix.{block_need, chain_rebuilt};
ghost use Rattle.ats_lists.specs.ChainBound.{IsChainBoundTo, chain_inner_nodes};

use ats_hash::{Hash32, Steps};
use ats_tree::{Revealed, rebuild_part};

/// How many leaves a block has, if it is not the last one.
pub(crate) const BLOCK: u32 = 64;

/// The most blocks of which a leaf is shown.
pub(crate) const BLOCKS: usize = 1024;

/// The digest of a list of `f` leaves in blocks, from its first `k` leaves and the digests of `revealed`. There is none
/// if `f` is less than `k`, or if the digests are not as many as are needed.
///
/// After `Some` nothing is left in `revealed`; after `None` what is left there is unspecified.
pub fn chain_rebuild<'a, H: Hash32, R: Revealed<'a>>(
    f: u32,
    k: u32,
    revealed: &mut R,
    steps: &mut Steps,
) -> Option<[u8; 32]>
    requires some { 1 ≤ k }
    requires few { k ≤ 65536 }
    requires front { positions_of (R.shown revealed.old) ≡ range_with_len 0 k }
    requires space { steps.old ≤ 2 ^ 63 }
    ensures value { result ≡ chain_rebuilt H.hash f (R.shown revealed.old) (R.digests revealed.old) }
    ensures used { IfSome result (λ x. (R.shown revealed.new ≡ []) × (R.digests revealed.new ≡ [])) }
    // Nothing is assumed of the hash function.
    ensures bound { IfSome result (λ x. (leaves : List (List ℕ)) → length leaves ≡ f → chain H.hash leaves ≡ x
        → IsChainBoundTo H.hash f (R.shown revealed.old) (R.digests revealed.old) leaves) }
    // Two for each leaf that is passed, one for each digest, one for a try that finds no digest, one for each node with
    // two parts, and one for each shown block.
    ensures cost { steps.new + 2 * length (R.shown revealed.new) + length (R.digests revealed.new)
        ≤ steps.old + 2 * k + length (R.digests revealed.old) + chain_inner_nodes f (R.shown revealed.old)
        + blocks_in k + 1 }
    ensures by_items { steps.new ≤ steps.old + 3 * k + 2 * length (R.digests revealed.old) + 1 }
    ensures by_places { steps.new ≤ steps.old + 3 * f + 1 }
{
    if f < k {
        return None;
    }
    // To clear all roots would take longer than to rebuild one.
    if k <= BLOCK {
        return rebuild_front::<H, R>(f, &mut [[0; 32]], revealed, steps);
    }
    let mut all = [[0; 32]; BLOCKS];
    let blocks = k.div_ceil(BLOCK);
    rebuild_front::<H, R>(f, &mut all[..blocks as usize], revealed, steps)
}

/// The digest of a list of `f` leaves in blocks, from the leaves and digests of `revealed`, with room for the roots of
/// the blocks of which some leaf is shown.
fn rebuild_front<'a, H: Hash32, R: Revealed<'a>>(
    f: u32,
    roots: &mut [[u8; 32]],
    revealed: &mut R,
    steps: &mut Steps,
) -> Option<[u8; 32]>
    requires some { 1 ≤ length (R.shown revealed.old) }
    requires few { length (R.shown revealed.old) ≤ 65536 }
    requires front { positions_of (R.shown revealed.old) ≡ range_with_len 0 (length (R.shown revealed.old)) }
    requires within { length (R.shown revealed.old) ≤ f }
    requires size { length roots.old ≡ blocks_in (length (R.shown revealed.old)) }
    requires space { steps.old ≤ 2 ^ 63 }
    ensures value { result ≡ chain_rebuilt H.hash f (R.shown revealed.old) (R.digests revealed.old) }
    ensures used { IfSome result (λ x. (R.shown revealed.new ≡ []) × (R.digests revealed.new ≡ [])) }
    ensures bound { IfSome result (λ x. (leaves : List (List ℕ)) → length leaves ≡ f → chain H.hash leaves ≡ x
        → IsChainBoundTo H.hash f (R.shown revealed.old) (R.digests revealed.old) leaves) }
    ensures cost { steps.new + 2 * length (R.shown revealed.new) + length (R.digests revealed.new)
        ≤ steps.old + 2 * length (R.shown revealed.old) + length (R.digests revealed.old)
        + chain_inner_nodes f (R.shown revealed.old) + blocks_in (length (R.shown revealed.old)) + 1 }
    ensures by_items { steps.new
        ≤ steps.old + 3 * length (R.shown revealed.old) + 2 * length (R.digests revealed.old) + 1 }
    ensures by_places { steps.new ≤ steps.old + 3 * f + 1 }
{
    // Digests have 32 bytes.
    let _facts = revealed.position();
    let follows = BLOCK as usize * roots.len() < f as usize;
    rebuild_blocks::<H, R>(f, roots, revealed, steps)?;
    let next = pass_next::<R>(follows, revealed, steps)?;
    match revealed.pass_digest(steps) {
        Some(_) => None,
        None => Some(link_blocks::<H>(roots, next, steps)),
    }
}

/// Rebuilds the roots of the blocks of which some leaf is shown, of a list of `f` leaves. `None` if digests are missing.
fn rebuild_blocks<'a, H: Hash32, R: Revealed<'a>>(
    f: u32,
    roots: &mut [[u8; 32]],
    revealed: &mut R,
    steps: &mut Steps,
) -> Option<()>
    requires some { 1 ≤ length (R.shown revealed.old) }
    requires front { positions_of (R.shown revealed.old) ≡ range_with_len 0 (length (R.shown revealed.old)) }
    requires within { length (R.shown revealed.old) ≤ f }
    requires size { length roots.old ≡ blocks_in (length (R.shown revealed.old)) }
    requires space { steps.old ≤ 2 ^ 63 }
    ensures whole { IfSome result (λ x. AreBlockRoots H.hash f (R.shown revealed.old) (R.digests revealed.old) roots.new
        (R.shown revealed.new) (R.digests revealed.new)) }
    ensures short { IfNone result (length (R.digests revealed.old) < block_need f (R.shown revealed.old)) }
    ensures cost { steps.new + 2 * length (R.shown revealed.new) + length (R.digests revealed.new)
        ≤ steps.old + 2 * length (R.shown revealed.old) + length (R.digests revealed.old)
        + chain_inner_nodes f (R.shown revealed.old) + (if is_some result then 0 else 1) }
    // Each block leaves one step, which its own string takes.
    ensures by_items { steps.new + 2 * length (R.digests revealed.new) + (if is_some result then blocks_in (length (R.shown revealed.old)) else 0)
        ≤ steps.old + 3 * length (R.shown revealed.old) + 2 * length (R.digests revealed.old)
        + (if is_some result then 0 else 1) }
    ensures by_places { steps.new + (if is_some result then blocks_in (length (R.shown revealed.old)) else 0)
        ≤ steps.old + 3 * min f (64 * blocks_in (length (R.shown revealed.old))) }
{
    for j in 0..roots.len() {
        let start = BLOCK * j as u32;
        roots[j] = rebuild_part::<H, R>(start, BLOCK.min(f - start), revealed, steps)?;
    }
    Some(())
}

/// The digest of the block after the shown ones: the first digest left, or 32 zero bytes if no block follows.
pub(crate) fn pass_next<'a, R: Revealed<'a>>(
    follows: bool,
    revealed: &mut R,
    steps: &mut Steps,
) -> Option<[u8; 32]>
    requires sized { All (λ d. length d ≡ 32) (R.digests revealed.old) }
    requires space { steps.old + 1 < 2 ^ 64 }
    ensures value { result ≡ (if follows then slice_get (R.digests revealed.old) 0 else Some no_block) }
    ensures digests { R.digests revealed.new ≡ drop (if follows then 1 else 0) (R.digests revealed.old) }
    ensures leaves { R.shown revealed.new ≡ R.shown revealed.old }
    ensures cost { steps.new ≡ steps.old + (if follows then 1 else 0) }
{
    let mut next = [0; 32];
    if follows {
        next.copy_from_slice(revealed.pass_digest(steps)?);
    }
    Some(next)
}

/// The digest of the first of some blocks with these roots, if `next` is the digest after the last of them.
fn link_blocks<H: Hash32>(roots: &[[u8; 32]], next: [u8; 32], steps: &mut Steps) -> [u8; 32]
    requires space { steps.old + length roots.now < 2 ^ 64 }
    ensures value { result ≡ chain_digest H.hash roots.now next }
    ensures cost { steps.new ≡ steps.old + length roots.now }
{
    let mut digest = next;
    for j in (0..roots.len()).rev() {
        digest = H::digest2(3, &roots[j], &digest, steps);
    }
    digest
}
