//! What a call shows for bytes, or why it shows nothing.

ghost use Rattle.std.specs.Prelude.{◌≡◌, ◌≤◌, ℕ, List, length, IfOk, IfErr, OnOk};
ghost use Rattle.sha2.specs.Sha256.{sha256};
ghost use Rattle.ats_terms.specs.Query.{IsQueryOf};
ghost use Rattle.ats_client.specs.Bytes.{AreVerifiedRows};
ghost use Rattle.ats_catalog_check.specs.Bytes.{AreVerifiedRows as AreCatalogRows};
ghost use Rattle.ats_reader.specs.Answer.{IsFault};
ghost use Rattle.ats_reader.specs.Asked.{IsReadFault, IsAsked, IsAskedFault};
ghost use Rattle.ats_reader.specs.Both.{AreDocuments, IsBothFault};
ghost use Rattle.ats_reader.specs.Catalog.{IsCatalogFault, AreRoots, IsRootFault};
ghost use Rattle.ats_reader.specs.Growth.{IsGrowthFault, IsGrown};
ghost use Rattle.ats_reader.specs.Query.{IsQueryFault};
ghost use Rattle.ats_reader.specs.Text.{IsTextFault, IsTextAt};

use crate::fault::Fault;
use ats_all_check::{both_documents, check_both};
use ats_bound::{Picks, Work};
use ats_catalog_bytes::MAX_SHARDS;
use ats_catalog_check::{CatalogFault, CatalogRows, verify_catalog};
use ats_client::{VerifyFault, verify};
use ats_growth_check::{Grown, GrowthView, check_growth};
use ats_hash::{Sha, Steps};
use ats_impact::{Rows, Top};
use ats_proof::ProofView;
use ats_refusal::Rejection;
use ats_terms::Query;
use ats_text_check::{TextView, check_text};
use std::alloc::Global;
use std::str;

/// Where the text begins in the bytes of the file that gives it.
const TEXT_AT: u64 = 114;

/// Where a text lies in the bytes that give it.
#[derive(Clone, Copy)]
pub(crate) struct TextAt {
    pub(crate) first: u64,
    pub(crate) size: u64,
}

/// The query of a text, and a number of rows that there is room for.
fn asked_for(alloc: Global, text: &[u8], r: u32, room: usize) -> Result<(Query, Top), Fault>
    ensures query { IfOk result (λ asked. IsQueryOf text.now asked.0 × (asked.1 ≡ r)) }
    ensures asked { OnOk result (IsAsked text.now r room) }
    ensures fault { IfErr result (IsAskedFault text.now r room) }
{
    let Ok(text) = str::from_utf8(text) else {
        return Err(Fault::NoText);
    };
    let Ok(top) = Top::new(r) else {
        return Err(Fault::RowsOut { r });
    };
    if room < r as usize {
        return Err(Fault::FewRows { room });
    }
    Ok((Query::read(alloc, text)?, top))
}

/// The rows of bytes that are accepted under the root for the text of a query.
pub(crate) fn rows_for(
    alloc: Global,
    proof: &[u8],
    root: &[u8; 32],
    text: &[u8],
    r: u32,
    room: usize,
) -> Result<Rows, Fault>
    ensures rows { IfOk result (λ rows. (query : List (List ℕ × ℕ)) × IsQueryOf text.now query
        × AreVerifiedRows sha256 root.now query r proof.now rows) }
    ensures asked { OnOk result (IsAsked text.now r room) }
    ensures few { IfOk result (λ rows. length rows ≤ room) }
    ensures fault { IfErr result (IsFault root.now text.now r proof.now room) }
{
    let (query, top) = asked_for(alloc, text, r, room)?;
    match verify::<Sha>(alloc, proof, root, &query, top) {
        Ok(rows) => Ok(rows),
        Err(VerifyFault::Rejected(Rejection::Shape(fault))) => Err(Fault::BadShape(fault)),
        Err(VerifyFault::Rejected(Rejection::Check(refusal))) => Err(Fault::Refused(refusal)),
        Err(VerifyFault::OutOfMemory) => Err(Fault::OutOfMemory),
    }
}

/// The rows of bytes that are accepted under the root of a catalog for the text of a query.
pub(crate) fn catalog_rows_for(
    alloc: Global,
    proof: &[u8],
    root: &[u8; 32],
    text: &[u8],
    r: u32,
    room: usize,
) -> Result<CatalogRows, Fault>
    ensures rows { IfOk result (λ held. (query : List (List ℕ × ℕ)) × IsQueryOf text.now query
        × AreCatalogRows sha256 root.now query r proof.now held.rows) }
    ensures asked { OnOk result (IsAsked text.now r room) }
    ensures few { IfOk result (λ held. length held.rows ≤ room) }
    ensures fault { IfErr result (IsCatalogFault root.now text.now r proof.now room) }
{
    let (query, top) = asked_for(alloc, text, r, room)?;
    match verify_catalog::<Sha>(alloc, proof, root, &query, top) {
        Ok(rows) => Ok(rows),
        Err(CatalogFault::Shape(fault)) => Err(Fault::BadShape(fault)),
        Err(CatalogFault::Refused(refusal)) => Err(Fault::CatalogRefused(refusal)),
        Err(CatalogFault::OutOfMemory) => Err(Fault::OutOfMemory),
    }
}

/// The roots of shards that bytes are, one after another.
pub(crate) fn roots_in(bytes: &[u8]) -> Result<&[[u8; 32]], Fault>
    ensures roots { IfOk result (λ roots. AreRoots bytes.now roots.now) }
    ensures fault { IfErr result (IsRootFault bytes.now) }
{
    let size = bytes.len();
    if size % 32 != 0 || size < 32 || size > 32 * MAX_SHARDS as usize {
        return Err(Fault::RootsOut { bytes: size });
    }
    let (roots, _) = bytes.as_chunks::<32>();
    Ok(roots)
}

/// The query of a text.
fn query_of(alloc: Global, text: &[u8]) -> Result<Query, Fault>
    ensures query { IfOk result (IsQueryOf text.now) }
    ensures fault { IfErr result (IsReadFault text.now) }
{
    let Ok(text) = str::from_utf8(text) else {
        return Err(Fault::NoText);
    };
    Ok(Query::read(alloc, text)?)
}

/// The query of a text, if there is room for its terms.
pub(crate) fn terms_for(alloc: Global, text: &[u8], room: usize) -> Result<Query, Fault>
    ensures query { IfOk result (IsQueryOf text.now) }
    ensures few { IfOk result (λ query. length query ≤ room) }
    ensures fault { IfErr result (IsQueryFault text.now room) }
{
    let query = query_of(alloc, text)?;
    let terms = query.len();
    if room < terms {
        return Err(Fault::FewTerms { room, terms });
    }
    Ok(query)
}

/// The documents of bytes that are accepted under the root as a proof of all with every term of a query, if there is room
/// for them.
pub(crate) fn documents_for(
    alloc: Global,
    bytes: &[u8],
    root: &[u8; 32],
    text: &[u8],
    room: usize,
) -> Result<Picks, Fault>
    ensures documents { IfOk result (AreDocuments root.now text.now bytes.now) }
    ensures few { IfOk result (λ documents. length documents ≤ room) }
    ensures fault { IfErr result (IsBothFault root.now text.now bytes.now room) }
{
    let query = query_of(alloc, text)?;
    let proof = ProofView::read(bytes)?;
    let mut work = Work::with_room(alloc, proof.met())?;
    check_both::<Sha>(root, &query, &proof, &mut work, &mut Steps::new(alloc))?;
    let shown = both_documents(alloc, &proof)?;
    let documents = shown.len();
    if room < documents {
        return Err(Fault::FewDocuments { room, documents });
    }
    Ok(shown)
}

/// Where the text lies in bytes that are accepted under the root as that of a document.
pub(crate) fn text_for(
    alloc: Global,
    bytes: &[u8],
    root: &[u8; 32],
    doc: u32,
) -> Result<TextAt, Fault>
    ensures text { IfOk result (IsTextAt root.now doc bytes.now) }
    ensures fault { IfErr result (IsTextFault root.now doc bytes.now) }
{
    let proof = TextView::read(bytes)?;
    if let Err(refusal) = check_text::<Sha>(root, doc, &proof, &mut Steps::new(alloc)) {
        return Err(Fault::TextRefused(refusal));
    }
    Ok(TextAt {
        first: TEXT_AT,
        size: proof.text().len() as u64,
    })
}

/// The numbers of documents of bytes that are accepted as the growth from one root to the other.
pub(crate) fn growth_for(
    alloc: Global,
    bytes: &[u8],
    old: &[u8; 32],
    new: &[u8; 32],
) -> Result<Grown, Fault>
    ensures grown { IfOk result (IsGrown old.now new.now bytes.now) }
    ensures fault { IfErr result (IsGrowthFault old.now new.now bytes.now) }
{
    let growth = GrowthView::read(bytes)?;
    match check_growth::<Sha>(old, new, &growth, &mut Steps::new(alloc)) {
        Ok(grown) => Ok(grown),
        Err(refusal) => Err(Fault::GrowthRefused(refusal)),
    }
}
