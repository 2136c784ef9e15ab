//! Whether what a proof shows of a list is the list's own.

ghost use Rattle.std.specs.Prelude.{◌≡◌, ◌≢◌, ◌↔◌, ◌^◌, ◌≤◌, ◌+◌, length, map, All, IsTrue, IfSome, IfNone};
ghost use Rattle.ats_lists.specs.Formats.{first_leaves};
ghost use Rattle.ats_lists.specs.KeptChain.{kept_chain};
ghost use Rattle.ats_lists.specs.KeptList.{kept_list, format_of};
ghost use Rattle.ats_lists.specs.Leaf.{leaf_bytes};
ghost use Rattle.ats_lists.specs.declared.format.Format.TheVariants.{Two};
ghost use Rattle.ats_commit.specs.OwnShown.{IsOwnFront, IsOwnListShown};

use ats_hash::{HashKind, Steps};
use ats_lists::{Chain, ListDigests, ListLeaves};
use ats_postings::Entry;
use ats_tree::{Leaves, PartialTree, ShortLeaves};

/// Whether what is shown of a list of `n` entries is of the list of these entries, whose digests these are.
pub(crate) fn list_has_shown<H: HashKind, S: PartialTree>(
    digests: &ListDigests,
    entries: &[Entry],
    n: u32,
    shown: &mut S,
    steps: &mut Steps,
) -> bool
    requires few { length entries.now ≤ 65536 }
    requires kept { digests.now ≡ kept_list H.hash (format_of digests.now) entries.now }
    requires short { All (λ s. length s.1 ≤ 127) (S.shown shown.old) }
    requires space { steps.old ≤ 2 ^ 63 }
    ensures { IsTrue result ↔ IsOwnListShown H.hash (format_of digests.now) entries.now n
        (S.shown shown.old) (S.digests shown.old) }
{
    match digests {
        ListDigests::Tree(nodes) => {
            let leaves = ListLeaves { entries };
            nodes.has_shown::<H, ListLeaves, S>(&leaves, n, shown, steps)
        }
        ListDigests::Blocks(chain) => chain_has_shown::<H, S>(chain, entries, n, shown, steps),
    }
}

// The same of a list in blocks: the first entries are shown, at least one, and the digests that they need.
fn chain_has_shown<H: HashKind, S: PartialTree>(
    chain: &Chain,
    entries: &[Entry],
    n: u32,
    shown: &mut S,
    steps: &mut Steps,
) -> bool
    requires few { length entries.now ≤ 65536 }
    requires kept { chain.now ≡ kept_chain H.hash (map leaf_bytes entries.now) }
    requires short { All (λ s. length s.1 ≤ 127) (S.shown shown.old) }
    requires space { steps.old ≤ 2 ^ 63 }
    ensures { IsTrue result ↔ IsOwnFront H.hash Two entries.now n (S.shown shown.old) (S.digests shown.old) }
{
    if entries.len() as u32 != n {
        return false;
    }
    match first_shown::<S>(entries, shown, steps) {
        Some(k) if k > 0 => chain.has_digests::<S>(k, shown, steps),
        _ => false,
    }
}

// How many leaves are shown, if they are those of the first entries.
fn first_shown<S: PartialTree>(entries: &[Entry], shown: &mut S, steps: &mut Steps) -> Option<u32>
    requires few { length entries.now ≤ 65536 }
    requires short { All (λ s. length s.1 ≤ 127) (S.shown shown.old) }
    requires space { steps.old ≤ 2 ^ 63 }
    ensures count { IfSome result (λ k. k ≡ length (S.shown shown.old)) }
    ensures within { IfSome result (λ k. k ≤ length entries.now) }
    ensures first { IfSome result (λ k. S.shown shown.old ≡ first_leaves entries.now k) }
    ensures none { IfNone result (length (S.shown shown.old) ≤ length entries.now
        → S.shown shown.old ≢ first_leaves entries.now (length (S.shown shown.old))) }
    ensures sized { All (λ d. length d ≡ 32) (S.digests shown.old) }
    ensures others { S.digests shown.new ≡ S.digests shown.old }
    ensures cost { steps.new ≤ steps.old + 65536 }
{
    let leaves = ListLeaves { entries };
    for i in 0..leaves.len() {
        match shown.position() {
            Some(at) if at == i => {
                if shown.take_leaf(steps).bytes() != leaves.leaf_string(i).bytes() {
                    return None;
                }
            }
            Some(_) => return None,
            None => return Some(i),
        }
    }
    match shown.position() {
        Some(_) => None,
        None => Some(leaves.len()),
    }
}
