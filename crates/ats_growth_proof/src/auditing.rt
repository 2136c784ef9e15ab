//! The audit of a growth.

ghost use Rattle.std.specs.Prelude.{◌≡◌, ◌∷◌, IfOk, MatchOption, option_map};
ghost use Rattle.ats_commit.specs.Root.{root_of};
ghost use Rattle.ats_commit.specs.Inner.Root.{HasOwnHeader};
ghost use Rattle.ats_tree.specs.Differences.{first_difference};
ghost use Rattle.ats_growth_check.specs.Rules.{AcceptsGrowth};
ghost use Rattle.ats_growth_check.specs.Strings.{second_of, growth_collision};
ghost use Rattle.ats_growth_proof.specs.Inner.Found.{IsHeaderCollision, difference_in, difference_of, new_pairs, old_pairs, shared_pairs, texts_pairs};
ghost use Rattle.ats_growth_proof.specs.Inner.FirstDifference.{strings_of, first_unlike};
ghost use Rattle.ats_growth_proof.specs.Verdicts.{IsGrowthVerdict, IsCollisionSound};

use crate::comparing::{Texts, compare};
use crate::growing::first_apart;
use crate::joining::{Compared, FirstDifference, string_of};
use crate::memory::OutOfMemory;
use crate::ranges::compare_ranges;
use crate::verdict::GrowthVerdict;
use ats_base::Bytes;
use ats_commit::string_of_header;
use ats_dict::Header;
use ats_growth_check::{GrowthView, check_growth};
use ats_hash::{Hash32, Steps};
use ats_index::Index;
use ats_lists::Format;
use std::alloc::Global;

/// Two different strings with equal digests, and their part.
#[derive(Drop)]
pub(crate) struct Collided {
    pub(crate) part: u8,
    pub(crate) first: Bytes,
    pub(crate) second: Bytes,
}

/// Where strings of the texts differ, and in which part.
#[derive(Clone, Copy)]
pub(crate) struct Found<'a> {
    pub(crate) part: u8,
    pub(crate) unlike: FirstDifference<'a>,
}

// The two headers' strings, if they differ.
fn header_collision<H: Hash32>(
    alloc: Global,
    part: u8,
    index: &Index<H>,
    format: Format,
    header: &Header,
) -> Result<Option<Collided>, OutOfMemory>
    ensures { IfOk result (λ found. MatchOption found (HasOwnHeader H.hash index.now format header.now)
        (IsHeaderCollision H.hash part index.now format header.now)) }
{
    let first = string_of_header(format, header);
    let second = string_of_header(index.format(), index.header());
    if second.bytes() == first.bytes() {
        return Ok(None);
    }
    Ok(Some(Collided {
        part,
        first: Bytes::of(alloc, first.bytes())?,
        second: Bytes::of(alloc, second.bytes())?,
    }))
}

// What the digests of a growth and the texts of two archives give, if both headers are the archives' own.
fn compare_texts<'a, H: Hash32>(
    alloc: Global,
    old: &'a Index<H>,
    new: &'a Index<H>,
    proof: &GrowthView<'_>,
) -> Compared<'a>
    requires accepts { AcceptsGrowth H.hash (root_of H.hash old.now) (root_of H.hash new.now) proof.now }
    requires old_header { HasOwnHeader H.hash old.now proof.now.old_format proof.now.old }
    requires new_header { HasOwnHeader H.hash new.now proof.now.new_format proof.now.new }
    ensures old { option_map strings_of result.old.unlike ≡ first_unlike second_of (old_pairs H.hash old.now proof.now) }
    ensures new { option_map strings_of result.new.unlike ≡ first_unlike second_of (new_pairs H.hash new.now proof.now) }
{
    proof.facts();
    let texts = Texts {
        old: old.collection(),
        new: new.collection(),
        from: 0,
    };
    let (m, n) = (texts.old.documents(), texts.new.documents());
    let (_, header) = proof.old();
    let (_, mut digests) = proof.shown();
    let mut steps = Steps::new(alloc);
    compare::<H>(
        texts,
        m,
        n,
        true,
        &header.texts_root,
        &mut digests,
        &mut steps,
    )
}

// Where the texts of two archives first differ in the ranges that both have, if both headers are the archives' own. Texts
// that are all kept differ nowhere, and are not hashed again.
fn compare_shared<'a, H: Hash32>(
    alloc: Global,
    old: &'a Index<H>,
    new: &'a Index<H>,
    proof: &GrowthView<'_>,
) -> Option<FirstDifference<'a>>
    requires accepts { AcceptsGrowth H.hash (root_of H.hash old.now) (root_of H.hash new.now) proof.now }
    requires old_header { HasOwnHeader H.hash old.now proof.now.old_format proof.now.old }
    requires new_header { HasOwnHeader H.hash new.now proof.now.new_format proof.now.new }
    ensures { option_map strings_of result ≡ first_unlike second_of (shared_pairs H.hash old.now new.now proof.now) }
{
    proof.facts();
    let (older, newer) = (old.collection(), new.collection());
    let (m, n) = (older.documents(), newer.documents());
    let Some(_) = first_apart(older, newer) else {
        return None;
    };
    let mut steps = Steps::new(alloc);
    compare_ranges::<H>(older, newer, 0, m, n, &mut steps)
}

// Where the strings of the texts first differ, if both headers are the archives' own.
fn texts_found<'a, H: Hash32>(
    alloc: Global,
    old: &'a Index<H>,
    new: &'a Index<H>,
    proof: &GrowthView<'_>,
) -> Option<Found<'a>>
    requires accepts { AcceptsGrowth H.hash (root_of H.hash old.now) (root_of H.hash new.now) proof.now }
    requires old_header { HasOwnHeader H.hash old.now proof.now.old_format proof.now.old }
    requires new_header { HasOwnHeader H.hash new.now proof.now.new_format proof.now.new }
    ensures { option_map difference_in result
        ≡ first_difference second_of (texts_pairs H.hash old.now new.now proof.now) }
{
    let compared = compare_texts::<H>(alloc, old, new, proof);
    if let Some(unlike) = compared.new.unlike {
        return Some(Found { part: 3, unlike });
    }
    if let Some(unlike) = compared.old.unlike {
        return Some(Found { part: 4, unlike });
    }
    match compare_shared::<H>(alloc, old, new, proof) {
        Some(unlike) => Some(Found { part: 5, unlike }),
        None => None,
    }
}

// The string of a text: its tag, 0, and the text.
fn string_of_text(alloc: Global, text: &[u8]) -> Result<Bytes, OutOfMemory>
    ensures { IfOk result (λ string. string ≡ 0 ∷ text.now) }
{
    let mut string = Bytes::with_room(alloc, text.len().saturating_add(1))?;
    string.push(0)?;
    string.extend(text)?;
    Ok(string)
}

// The two strings of what was found, as they are hashed.
fn strings_at(alloc: Global, found: Found<'_>) -> Result<Collided, OutOfMemory>
    ensures { IfOk result (λ collided. difference_of collided ≡ difference_in found.entry) }
{
    let Found { part, unlike } = found;
    let (first, second) = match unlike {
        FirstDifference::Node { first, second } => (
            Bytes::of(alloc, string_of(&first).bytes())?,
            Bytes::of(alloc, string_of(&second).bytes())?,
        ),
        FirstDifference::Texts { first, second } => {
            (
                string_of_text(alloc, first)?,
                string_of_text(alloc, second)?,
            )
        }
    };
    Ok(Collided {
        part,
        first,
        second,
    })
}

// The first collision of an accepted growth with the two archives: the roots are those of both sides, so the first strings
// that differ have equal digests.
fn first_collision<'a, H: Hash32>(
    alloc: Global,
    old: &'a Index<H>,
    new: &'a Index<H>,
    proof: &GrowthView<'_>,
) -> Result<Option<Collided>, OutOfMemory>
    requires { AcceptsGrowth H.hash (root_of H.hash old.now) (root_of H.hash new.now) proof.now }
    ensures { IfOk result (λ found. option_map difference_of found ≡ growth_collision H.hash old.now new.now proof.now) }
{
    // Indexes have texts within the limits.
    let (_older, _newer) = (old.collection(), new.collection());
    proof.facts();
    let (old_format, old_header) = proof.old();
    let (new_format, new_header) = proof.new_archive();
    if let Some(found) = header_collision::<H>(alloc, 1, old, old_format, &old_header)? {
        return Ok(Some(found));
    }
    if let Some(found) = header_collision::<H>(alloc, 2, new, new_format, &new_header)? {
        return Ok(Some(found));
    }
    match texts_found::<H>(alloc, old, new, proof) {
        Some(found) => Ok(Some(strings_at(alloc, found)?)),
        None => Ok(None),
    }
}

/// Checks the bytes of a growth under the roots of two indexes. If they are accepted, searches for a string that the growth
/// or the old texts hash, that differs from the one at the same place of an archive and has the same digest.
pub fn audit_growth<H: Hash32>(
    alloc: Global,
    old: &Index<H>,
    new: &Index<H>,
    bytes: &[u8],
) -> Result<GrowthVerdict, OutOfMemory>
    ensures verdict { IfOk result (IsGrowthVerdict H.hash old.now new.now bytes.now) }
    // A collision is two different strings with equal digests.
    ensures collision { IfOk result (IsCollisionSound H.hash) }
{
    // Indexes have texts within the limits.
    let (_older, _newer) = (old.collection(), new.collection());
    let proof = match GrowthView::read(bytes) {
        Ok(proof) => proof,
        Err(fault) => return Ok(GrowthVerdict::BadShape(fault)),
    };
    let mut steps = Steps::new(alloc);
    let grown = match check_growth::<H>(&old.root(), &new.root(), &proof, &mut steps) {
        Ok(grown) => grown,
        Err(refusal) => return Ok(GrowthVerdict::Refused(refusal)),
    };
    match first_collision::<H>(alloc, old, new, &proof)? {
        Some(
            Collided {
                part,
                first,
                second,
            },
        ) => Ok(GrowthVerdict::Collision {
            part,
            first,
            second,
        }),
        None => Ok(GrowthVerdict::Right(grown)),
    }
}
