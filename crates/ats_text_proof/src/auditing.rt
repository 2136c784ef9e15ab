//! The audit of a text.

ghost use Rattle.std.specs.Prelude.{◌≡◌, ◌+◌, ◌*◌, ◌≤◌, ◌<◌, ◌^◌, ℕ, List, ◌∷◌, length, map, true, IfOk, IfSome, MatchOption, option_map};
ghost use Rattle.std.specs.Str.{bytes_eq};
ghost use Rattle.ats_commit.specs.Root.{root_of};
ghost use Rattle.ats_commit.specs.Inner.Root.{HasOwnHeader};
ghost use Rattle.ats_tree.specs.Differences.{moved, first_collision};
ghost use Rattle.ats_tree.specs.Nodes.{numbers_of};
ghost use Rattle.ats_tree.specs.Strings.{node_strings};
ghost use Rattle.ats_text_check.specs.Accepts.{AcceptsText, shown_text};
ghost use Rattle.ats_text_check.specs.Strings.{text_collision, in_texts, own_text_string};
ghost use Rattle.ats_text_proof.specs.Inner.Clashes.{IsHeaderClash, difference_in};
ghost use Rattle.ats_text_proof.specs.Verdicts.{IsTextVerdict, IsCollisionSound, IsPlaced, difference_of};

use crate::memory::OutOfMemory;
use crate::own_texts::{OwnTexts, TextString};
use crate::verdict::{TextClash, TextVerdict};
use ats_base::Bytes;
use ats_commit::string_of_header;
use ats_hash::{Hash32, Steps};
use ats_index::Index;
use ats_text_check::{TextCursor, TextView, check_text};
use ats_tree::{Clash, first_clash};
use std::alloc::Global;
use std::marker::PhantomData;

// A clash of the texts tree, with copies of its strings.
fn copied(alloc: Global, clash: &Clash<TextString<'_>>) -> Result<TextClash, OutOfMemory>
    ensures clash { IfOk result (λ told. difference_of told ≡ difference_in clash.now) }
    ensures place { clash.now.turns < 2 ^ clash.now.depth → IfOk result IsPlaced }
{
    Ok(TextClash {
        header: false,
        depth: clash.depth,
        turns: clash.turns,
        ours: clash.ours.copied(alloc)?,
        theirs: clash.theirs.copied(alloc)?,
    })
}

// The two headers' strings, if they differ.
fn header_clash<H: Hash32>(
    alloc: Global,
    index: &Index<H>,
    proof: &TextView<'_>,
) -> Result<Option<TextClash>, OutOfMemory>
    ensures clash { IfOk result (λ found.
        MatchOption found (HasOwnHeader H.hash index.now proof.now.format proof.now.header) (IsHeaderClash H.hash index.now proof.now)) }
    ensures place { IfOk result (λ found. IfSome found IsPlaced) }
{
    let ours = string_of_header(index.format(), index.header());
    let (format, header) = proof.archive();
    let theirs = string_of_header(format, &header);
    if ours.bytes() == theirs.bytes() {
        return Ok(None);
    }
    Ok(Some(TextClash {
        header: true,
        depth: 0,
        turns: 0,
        ours: Bytes::of(alloc, ours.bytes())?,
        theirs: Bytes::of(alloc, theirs.bytes())?,
    }))
}

// The first collision in the texts tree.
fn tree_clash<H: Hash32>(
    alloc: Global,
    index: &Index<H>,
    doc: u32,
    proof: &TextView<'_>,
) -> Result<Option<TextClash>, OutOfMemory>
    requires { AcceptsText H.hash (root_of H.hash index.now) doc proof.now }
    ensures clash { IfOk result (λ found. option_map difference_of found
        ≡ first_collision H.hash (own_text_string H.hash index.now)
        (map (moved in_texts) (map (moved numbers_of)
        (node_strings H.hash proof.now.header.documents (shown_text doc proof.now.text) proof.now.digests)))) }
    ensures place { IfOk result (λ found. IfSome found IsPlaced) }
{
    let own: OwnTexts<'_, H> = OwnTexts {
        texts: index.collection(),
        alloc,
        kind: PhantomData,
    };
    let (_, header) = proof.archive();
    let mut shown = TextCursor::of(proof, doc);
    let mut steps = Steps::new(alloc);
    match first_clash::<H, _, TextString<'_>, _>(header.documents, &mut shown, &own, &mut steps) {
        Some(clash) => Ok(Some(copied(alloc, &clash)?)),
        None => Ok(None),
    }
}

// The first collision of an accepted text with the archive: its root is that of both sides, so the first strings that
// differ have equal digests.
fn text_clash<H: Hash32>(
    alloc: Global,
    index: &Index<H>,
    doc: u32,
    proof: &TextView<'_>,
) -> Result<Option<TextClash>, OutOfMemory>
    requires { AcceptsText H.hash (root_of H.hash index.now) doc proof.now }
    ensures clash { IfOk result (λ found. option_map difference_of found ≡ text_collision H.hash index.now doc proof.now) }
    ensures place { IfOk result (λ found. IfSome found IsPlaced) }
{
    // An index has texts within the limits.
    let _facts = index.collection();
    proof.facts();
    match header_clash::<H>(alloc, index, proof)? {
        Some(clash) => Ok(Some(clash)),
        None => tree_clash::<H>(alloc, index, doc, proof),
    }
}

/// Checks the bytes that give the text of document `doc`, from 0, under the root of an index. If they are accepted,
/// searches for a string that the check hashes, that differs from the archive's own and has the same digest.
pub fn audit_text<H: Hash32>(
    alloc: Global,
    index: &Index<H>,
    doc: u32,
    bytes: &[u8],
) -> Result<TextVerdict, OutOfMemory>
    ensures verdict { IfOk result (IsTextVerdict H.hash index.now doc bytes.now) }
    // A collision is two different strings with equal digests, and its turns have no digit beyond the depth.
    ensures collision { IfOk result (IsCollisionSound H.hash) }
{
    // An index has texts within the limits.
    let _facts = index.collection();
    let proof = match TextView::read(bytes) {
        Ok(proof) => proof,
        Err(fault) => return Ok(TextVerdict::BadShape(fault)),
    };
    let mut steps = Steps::new(alloc);
    if let Err(refusal) = check_text::<H>(&index.root(), doc, &proof, &mut steps) {
        return Ok(TextVerdict::Refused(refusal));
    }
    match text_clash::<H>(alloc, index, doc, &proof)? {
        Some(clash) => Ok(TextVerdict::Collision(clash)),
        None => Ok(TextVerdict::Right),
    }
}
