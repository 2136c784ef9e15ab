//! The texts of two archives in the ranges whose digests form both roots.

ghost use Rattle.std.specs.Prelude.{◌≡◌, ◌+◌, ◌*◌, ◌^◌, ◌<◌, ◌≤◌, ◌∷◌, ◌++◌, length, None, option_map};
ghost use Rattle.std.specs.List.{flat_map};
ghost use Rattle.ats_growth_check.specs.Shape.{turns};
ghost use Rattle.ats_growth_check.specs.Strings.{ranges, range_pairs, second_of, part_of};
ghost use Rattle.ats_growth_proof.specs.Inner.Compared.{IsRange};
ghost use Rattle.ats_growth_proof.specs.Inner.FirstDifference.{strings_of, first_unlike, unlike_or, or_two};

use crate::joining::{Children, FirstDifference, Side, joined};
use ats_hash::{Hash32, Steps};
use ats_impact::Collection;
use ats_tree::cut_of;

// Two texts, if they differ.
fn unlike_texts<'a>(first: &'a [u8], second: &'a [u8]) -> Option<FirstDifference<'a>>
    ensures { option_map strings_of result ≡ unlike_or (0 ∷ first.now) (0 ∷ second.now) None }
{
    if second == first {
        None
    } else {
        Some(FirstDifference::Texts { first, second })
    }
}

// The two texts of a document.
fn at_document<'a, H: Hash32>(
    old: &'a Collection,
    new: &'a Collection,
    doc: u32,
    steps: &mut Steps,
) -> Side<'a>
    requires inside_old { doc < length old.now }
    requires inside_new { doc < length new.now }
    requires space { steps.old + 2 < 2 ^ 64 }
    ensures range { IsRange H.hash (part_of doc 1 old.now) (part_of doc 1 new.now) result }
    ensures cost { steps.new ≡ steps.old + 2 }
{
    let first = old.text(doc).as_bytes();
    let second = new.text(doc).as_bytes();
    Side {
        theirs: H::digest2(0, first, &[], steps),
        own: H::digest2(0, second, &[], steps),
        unlike: unlike_texts(first, second),
    }
}

// The first of two places that come one after the other.
fn earlier<'a>(
    first: Option<FirstDifference<'a>>,
    later: Option<FirstDifference<'a>>,
) -> Option<FirstDifference<'a>>
    ensures { option_map strings_of result ≡ or_two (option_map strings_of first.entry) (option_map strings_of later.entry) }
{
    match first {
        Some(unlike) => Some(unlike),
        None => later,
    }
}

// The digests of the `n` texts from document `from` on of both archives, and their first strings in pre-order that differ.
fn compare_range<'a, H: Hash32>(
    old: &'a Collection,
    new: &'a Collection,
    from: u32,
    n: u32,
    steps: &mut Steps,
) -> Side<'a>
    requires some { 1 ≤ n }
    requires inside_old { from + n ≤ length old.now }
    requires inside_new { from + n ≤ length new.now }
    requires space { steps.old + 4 * n ≤ 2 ^ 63 }
    ensures range { IsRange H.hash (part_of from n old.now) (part_of from n new.now) result }
    ensures cost { steps.new + 2 ≤ steps.old + 4 * n }
{
    let _facts = new.documents();
    if n == 1 {
        return at_document::<H>(old, new, from, steps);
    }
    let k = cut_of(n);
    let left = compare_range::<H>(old, new, from, k, steps);
    let right = compare_range::<H>(old, new, from + k, n - k, steps);
    let theirs = Children {
        left: left.theirs,
        right: right.theirs,
    };
    let own = Children {
        left: left.own,
        right: right.own,
    };
    joined::<H>(theirs, own, earlier(left.unlike, right.unlike), steps)
}

/// Where the texts of two archives first differ in the ranges that the first `m` of `n` leaves from document `from` on share
/// with all of them: the ranges come in the order of their digests, each in pre-order.
pub(crate) fn compare_ranges<'a, H: Hash32>(
    old: &'a Collection,
    new: &'a Collection,
    from: u32,
    m: u32,
    n: u32,
    steps: &mut Steps,
) -> Option<FirstDifference<'a>>
    requires some { 1 ≤ m }
    requires within { m ≤ n }
    requires inside_old { from + m ≤ length old.now }
    requires inside_new { from + n ≤ length new.now }
    requires space { steps.old + 4 * n ≤ 2 ^ 63 }
    ensures unlike { option_map strings_of result ≡ first_unlike second_of
        (flat_map (range_pairs H.hash) (ranges (turns m n) (part_of from m old.now) (part_of from n new.now))) }
    ensures cost { steps.new ≤ steps.old + 4 * n }
{
    let _facts = new.documents();
    if m == n {
        return compare_range::<H>(old, new, from, n, steps).unlike;
    }
    let k = cut_of(n);
    if m <= k {
        return compare_ranges::<H>(old, new, from, m, k, steps);
    }
    match compare_ranges::<H>(old, new, from + k, m - k, n - k, steps) {
        Some(unlike) => Some(unlike),
        None => compare_range::<H>(old, new, from, k, steps).unlike,
    }
}
