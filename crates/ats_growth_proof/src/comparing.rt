//! The strings of both roots of a growth, beside those of the two archives.

ghost use Rattle.std.specs.Prelude.{◌≡◌, ◌+◌, ◌*◌, ◌^◌, ◌<◌, ◌≤◌, ◌∷◌, ◌++◌, length, [], option_map};
ghost use Rattle.ats_proof.specs.Seen.{digests_of};
ghost use Rattle.ats_tree.specs.Tree.{digest_of};
ghost use Rattle.ats_growth_check.specs.Inner.Paired.{ArePaired};
ghost use Rattle.ats_growth_check.specs.Shape.{turns, need};
ghost use Rattle.ats_growth_check.specs.Strings.{part_of};
ghost use Rattle.ats_growth_proof.specs.Inner.Compared.{IsEnd, IsJoined, AreCompared};
ghost use Rattle.ats_growth_proof.specs.Inner.FirstDifference.{strings_of};

use crate::joining::{Children, Compared, Side, joined};
use ats_commit::TextLeaves;
use ats_growth_check::next_digest;
use ats_hash::{Hash32, Steps};
use ats_impact::Collection;
use ats_proof::DigestRun;
use ats_tree::{cut_of, root};

/// The texts of both archives from a document on.
#[derive(Clone, Copy)]
pub(crate) struct Texts<'a> {
    pub(crate) old: &'a Collection,
    pub(crate) new: &'a Collection,
    pub(crate) from: u32,
}

/// The digest of the `n` texts from document `from` on.
pub(crate) fn digest_of_range<H: Hash32>(
    texts: &Collection,
    from: u32,
    n: u32,
    steps: &mut Steps,
) -> [u8; 32]
    requires some { 1 ≤ n }
    requires inside { from + n ≤ length texts.now }
    requires space { steps.old ≤ 2 ^ 63 }
    ensures digest { result ≡ digest_of H.hash (part_of from n texts.now) }
    ensures cost { steps.new ≤ steps.old + 2 * n }
{
    let _facts = texts.documents();
    let range = TextLeaves::new(texts, from, from + n);
    root::<H, _>(&range, steps)
}

// One side at the end of the turns: this digest, and that of the `n` texts from document `from` on.
fn at_end<'a, H: Hash32>(
    digest: [u8; 32],
    texts: &Collection,
    from: u32,
    n: u32,
    steps: &mut Steps,
) -> Side<'a>
    requires some { 1 ≤ n }
    requires inside { from + n ≤ length texts.now }
    requires space { steps.old ≤ 2 ^ 63 }
    ensures end { IsEnd H.hash digest (part_of from n texts.now) result }
    ensures cost { steps.new ≤ steps.old + 2 * n }
{
    Side {
        theirs: digest,
        own: digest_of_range::<H>(texts, from, n, steps),
        unlike: None,
    }
}

// The digest at the end of the turns: the root if it is known, and else the first digest.
fn last_digest<H: Hash32>(
    known: bool,
    known_root: &[u8; 32],
    digests: &mut DigestRun<'_>,
    steps: &mut Steps,
) -> [u8; 32]
    requires enough { need [] known ≤ length (digests_of digests.old) }
    requires space { steps.old + 1 < 2 ^ 64 }
    ensures paired { ArePaired H.hash known_root.now [] known (digests_of digests.old) result result (digests_of digests.new) }
    ensures cost { steps.new ≤ steps.old + 1 }
{
    if known {
        *known_root
    } else {
        next_digest(digests, steps)
    }
}

// A node of one side whose right part is this one, from the digests of its left part.
fn after<'a, H: Hash32>(
    their_left: [u8; 32],
    own_left: [u8; 32],
    right: Side<'a>,
    steps: &mut Steps,
) -> Side<'a>
    requires { steps.old + 2 < 2 ^ 64 }
    ensures joined { IsJoined H.hash (1 ∷ their_left ++ right.entry.theirs) (1 ∷ own_left ++ right.entry.own)
        (option_map strings_of right.entry.unlike) result }
    ensures cost { steps.new ≡ steps.old + 2 }
{
    let theirs = Children {
        left: their_left,
        right: right.theirs,
    };
    let own = Children {
        left: own_left,
        right: right.own,
    };
    joined::<H>(theirs, own, right.unlike, steps)
}

/// What the first digests of a growth and the two archives give for the first `m` of `n` leaves and for all of them, from
/// document `texts.from` on: the digests of both, and the first strings from the top down that differ, on either side.
/// Each range of either archive is hashed once. The digests that come after those that are needed are left.
pub(crate) fn compare<'a, H: Hash32>(
    texts: Texts<'a>,
    m: u32,
    n: u32,
    known: bool,
    known_root: &[u8; 32],
    digests: &mut DigestRun<'_>,
    steps: &mut Steps,
) -> Compared<'a>
    requires some { 1 ≤ m }
    requires within { m ≤ n }
    requires inside_old { texts.from + m ≤ length texts.old.now }
    requires inside_new { texts.from + n ≤ length texts.new.now }
    requires enough { need (turns m n) known ≤ length (digests_of digests.old) }
    requires space { steps.old + 9 * n ≤ 2 ^ 63 }
    ensures compared { AreCompared H.hash known_root.now (turns m n) known
        (digests_of digests.old) (part_of texts.entry.from m texts.entry.old.now)
        (part_of texts.entry.from n texts.entry.new.now) result (digests_of digests.new) }
    ensures cost { steps.new ≤ steps.old + 9 * n }
{
    let Texts { old, new, from } = texts;
    let _facts = new.documents();
    if m == n {
        let digest = last_digest::<H>(known, known_root, digests, steps);
        return Compared {
            old: at_end::<H>(digest, old, from, m, steps),
            new: at_end::<H>(digest, new, from, n, steps),
        };
    }
    let k = cut_of(n);
    if m <= k {
        let below = compare::<H>(texts, m, k, known, known_root, digests, steps);
        let beside = next_digest(digests, steps);
        let own = digest_of_range::<H>(new, from + k, n - k, steps);
        let theirs = Children {
            left: below.new.theirs,
            right: beside,
        };
        let ours = Children {
            left: below.new.own,
            right: own,
        };
        return Compared {
            old: below.old,
            new: joined::<H>(theirs, ours, below.new.unlike, steps),
        };
    }
    let right = Texts {
        old,
        new,
        from: from + k,
    };
    let below = compare::<H>(right, m - k, n - k, false, known_root, digests, steps);
    let beside = next_digest(digests, steps);
    let old_own = digest_of_range::<H>(old, from, k, steps);
    let new_own = digest_of_range::<H>(new, from, k, steps);
    Compared {
        old: after::<H>(beside, old_own, below.old, steps),
        new: after::<H>(beside, new_own, below.new, steps),
    }
}
