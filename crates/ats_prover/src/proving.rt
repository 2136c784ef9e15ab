//! The proof of a query's best documents.

ghost use Rattle.std.specs.Prelude.{◌≡◌, ◌≤◌, ◌<◌, ◌^◌, length, map, IfOk, IfErr, IfSome, MatchBool, MatchOption, OnOk};
ghost use Rattle.ats_commit.specs.Own.{AreTexts};
ghost use Rattle.ats_bound.specs.Ranked.{docs_of};
ghost use Rattle.ats_bound.specs.Schedule.{AreBracketsBy, IsCut, shown, whole_lanes};
ghost use Rattle.ats_proof.specs.declared.record.Algorithm.TheVariants.{Tnra};
ghost use Rattle.ats_proof.specs.Value.{Proof};
ghost use Rattle.ats_prover.specs.declared.fault.ProveFault.TheVariants.{OutOfMemory as MemoryWanted};
ghost use Rattle.ats_honest.specs.Lanes.{bounding, lanes_of};
ghost use Rattle.ats_honest.specs.Honest.{AreMet, IsCutProved, IsCutShown, IsHonest, IsHonestShare, IsHonestWithin, IsProved, IsProvedBy, IsShareProved, length_of};
ghost use Rattle.ats_prover.specs.Inner.Found.{AreFound};
ghost use Rattle.ats_prover.specs.Fault.{IsAnswerWithin, IsCutFault, IsFault, IsFaultBy, IsFoundWithin, IsShareFault};
ghost use Rattle.ats_prover.specs.Inner.Writing.{IsCutWritten, IsShownWith, IsWritten};

use crate::answer::{documents, write_answer};
use crate::dictionary::write_terms;
use crate::documents::write_documents;
use crate::fault::{OutOfMemory, ProveFault};
use crate::found::{QueryTerms, query_terms};
use crate::met::met_documents;
use crate::prefixes::write_lists;
use crate::shown::keep_positions;
use crate::walking::{walk, walk_share};
use ats_base::Bytes;
use ats_bound::{Share, Span, Walk};
use ats_grammar::MAX_PROOF;
use ats_hash::HashKind;
use ats_impact::Top;
use ats_index::Index;
use ats_proof::{Algorithm, ProofWriter, records_are_joined};
use ats_terms::Query;
use ats_tree::Leaves;
use std::alloc::Global;

// Writes what a proof shows at a cut: the met documents, the fronts of the lists, and what is shown of the documents.
// Then it writes the answer.
fn write_cut<H: HashKind>(
    alloc: Global,
    writer: &mut ProofWriter,
    index: &Index<H>,
    query: &Query,
    terms: &QueryTerms<'_>,
    met: &[u32],
    cut: &[u32],
    picks: &[u32],
    algorithm: Algorithm,
) -> Result<(), OutOfMemory>
    requires terms { AreFound H.hash index.now query.now terms.now.spots.items terms.now.present
        (whole_lanes terms.now.lists.lanes.items) (map (λ n. n.now) terms.now.lists.digests.items) }
    requires cut { IsCut (lanes_of index.now.texts query.now) cut.now }
    requires met { AreMet (shown (lanes_of index.now.texts query.now) cut.now) met.now }
    requires rows { length picks.now ≤ 1000 }
    requires space { writer.old.asked ≤ 2 ^ 55 }
    ensures { OnOk result
        (IsCutWritten algorithm H.hash index.now query.now met.now cut.now picks.now writer.old writer.new) }
{
    write_lists::<H>(
        alloc,
        writer,
        met,
        &terms.lists.lanes,
        &terms.lists.digests,
        cut,
    )?;
    write_documents(alloc, writer, index, &terms.present, met, algorithm)?;
    write_answer(writer, picks)
}

// Writes a whole proof: what it shows at a cut, with these met documents, and these rows.
fn write_shown<H: HashKind>(
    alloc: Global,
    writer: &mut ProofWriter,
    index: &Index<H>,
    query: &Query,
    terms: &QueryTerms<'_>,
    met: &[u32],
    cut: &[u32],
    picks: &[u32],
    algorithm: Algorithm,
) -> Result<(), OutOfMemory>
    requires terms { AreFound H.hash index.now query.now terms.now.spots.items terms.now.present
        (whole_lanes terms.now.lists.lanes.items) (map (λ n. n.now) terms.now.lists.digests.items) }
    requires cut { IsCut (lanes_of index.now.texts query.now) cut.now }
    requires met { AreMet (shown (lanes_of index.now.texts query.now) cut.now) met.now }
    requires rows { length picks.now ≤ 1000 }
    requires space { writer.old.asked ≡ 0 }
    ensures written { OnOk result
        (IsWritten (IsShownWith H.hash index.now query.now algorithm cut.now met.now picks.now)
        writer.old writer.new) }
    ensures texts { OnOk result (AreTexts index.now.texts) }
{
    // A dictionary is sorted.
    prove!(index.dictionary().len() >= 2);
    let mut positions = Vec::new(alloc);
    keep_positions(&terms.spots, &mut positions)?;
    writer.front_in(
        index.format(),
        algorithm,
        index.header(),
        query.len() as u16,
    )?;
    write_terms::<H>(
        alloc,
        writer,
        index.dictionary(),
        index.dict_nodes(),
        &positions,
        &terms.spots,
    )?;
    write_cut(
        alloc, writer, index, query, terms, met, cut, picks, algorithm,
    )
}

// Writes the whole proof of the end of a walk.
fn write_end<H: HashKind>(
    alloc: Global,
    writer: &mut ProofWriter,
    index: &Index<H>,
    query: &Query,
    terms: &QueryTerms<'_>,
    end: &Walk,
    algorithm: Algorithm,
) -> Result<(), OutOfMemory>
    requires terms { AreFound H.hash index.now query.now terms.now.spots.items terms.now.present
        (whole_lanes terms.now.lists.lanes.items) (map (λ n. n.now) terms.now.lists.digests.items) }
    requires cut { IsCut (lanes_of index.now.texts query.now) end.now.cut }
    requires brackets { AreBracketsBy (bounding algorithm (lanes_of index.now.texts query.now))
        (shown (lanes_of index.now.texts query.now) end.now.cut) end.now.brackets }
    requires rows { length end.now.picks ≤ 1000 }
    requires space { writer.old.asked ≡ 0 }
    ensures written { OnOk result (IsWritten
        (IsShownWith H.hash index.now query.now algorithm end.now.cut (docs_of end.now.brackets) end.now.picks)
        writer.old writer.new) }
    ensures texts { OnOk result (AreTexts index.now.texts) }
{
    let met = documents(alloc, end.brackets.as_slice())?;
    write_shown(
        alloc,
        writer,
        index,
        query,
        terms,
        &met,
        end.cut.as_slice(),
        end.picks.as_slice(),
        algorithm,
    )
}

// Writes the whole honest proof.
fn write_proof<H: HashKind>(
    alloc: Global,
    writer: &mut ProofWriter,
    index: &Index<H>,
    query: &Query,
    top: Top,
    algorithm: Algorithm,
) -> Result<(), OutOfMemory>
    requires space { writer.old.asked ≡ 0 }
    ensures written { OnOk result
        (IsWritten (IsHonest H.hash index.now query.now top algorithm) writer.old writer.new) }
    ensures short { (proof : Proof) → algorithm ≡ Tnra → IsHonest H.hash index.now query.now top algorithm proof
        → OnOk result (length_of proof ≤ 2 ^ 26) }
{
    // An answer has few rows, and a query few terms.
    prove!(top.get() <= 1000);
    prove!(query.len() <= 32);
    let terms = query_terms(alloc, index, query)?;
    let end = walk(
        alloc,
        index,
        &terms.present,
        &terms.lists.lanes,
        top,
        algorithm,
    )?;
    write_end(alloc, writer, index, query, &terms, &end, algorithm)
}

// Writes the whole honest proof of a share, and returns whether some cut shows the share.
fn write_share<H: HashKind>(
    alloc: Global,
    writer: &mut ProofWriter,
    index: &Index<H>,
    query: &Query,
    share: Share,
) -> Result<bool, OutOfMemory>
    requires rows { share.rows ≤ 1000 }
    requires space { writer.old.asked ≡ 0 }
    ensures { IfOk result (λ shown. MatchBool shown
        (IsWritten (IsHonestShare H.hash index.now query.now share) writer.old writer.new)
        ((proof : Proof) → ¬ IsHonestShare H.hash index.now query.now share proof)) }
{
    let terms = query_terms(alloc, index, query)?;
    let found = walk_share(alloc, index, &terms.present, &terms.lists.lanes, share)?;
    let Some(end) = found else {
        return Ok(false);
    };
    write_end(alloc, writer, index, query, &terms, &end, Algorithm::Tra)?;
    Ok(true)
}

// Writes the whole honest proof of rows within spans, and returns whether some cut shows them.
fn write_spans<H: HashKind>(
    alloc: Global,
    writer: &mut ProofWriter,
    index: &Index<H>,
    query: &Query,
    spans: &[Span],
    floor: u64,
) -> Result<bool, OutOfMemory>
    requires rows { length spans.now ≤ 1000 }
    requires space { writer.old.asked ≡ 0 }
    ensures { IfOk result (λ shown. MatchBool shown
        (IsWritten (IsHonestWithin H.hash index.now query.now (record { spans = spans.now; floor = floor }) Tnra)
        writer.old writer.new)
        ((proof : Proof)
        → ¬ IsHonestWithin H.hash index.now query.now (record { spans = spans.now; floor = floor }) Tnra proof)) }
{
    let terms = query_terms(alloc, index, query)?;
    let found = ats_tnra::walk_within(alloc, &terms.lists.lanes, spans, floor)?;
    let Some(end) = found else {
        return Ok(false);
    };
    write_end(alloc, writer, index, query, &terms, &end, Algorithm::Tnra)?;
    Ok(true)
}

// Writes the whole proof of a cut, with no answer.
fn write_unanswered<H: HashKind>(
    alloc: Global,
    writer: &mut ProofWriter,
    index: &Index<H>,
    query: &Query,
    cut: &[u32],
    algorithm: Algorithm,
) -> Result<(), OutOfMemory>
    requires cut { IsCut (lanes_of index.now.texts query.now) cut.now }
    requires space { writer.old.asked ≡ 0 }
    ensures { OnOk result
        (IsWritten (IsCutShown H.hash index.now query.now algorithm cut.now) writer.old writer.new) }
{
    let terms = query_terms(alloc, index, query)?;
    let met = met_documents(alloc, &terms.lists.lanes, cut)?;
    write_shown(
        alloc,
        writer,
        index,
        query,
        &terms,
        &met,
        cut,
        &[],
        algorithm,
    )
}

/// The proof of the best documents of a query, of at most 2^26 bytes.
pub fn prove<H: HashKind>(
    alloc: Global,
    index: &Index<H>,
    query: &Query,
    top: Top,
    algorithm: Algorithm,
) -> Result<Bytes, ProveFault>
    ensures ok { IfOk result (IsProved H.hash index.now query.now top algorithm) }
    ensures err { IfErr result (IsFault H.hash index.now query.now top algorithm (2 ^ 26)) }
    ensures size { (proof : Proof) → IsHonest H.hash index.now query.now top algorithm proof
        → IsAnswerWithin (2 ^ 26) (length_of proof) result }
    ensures fits { algorithm ≡ Tnra → IfErr result (λ fault. fault ≡ MemoryWanted) }
{
    prove_within(alloc, index, query, top, algorithm, MAX_PROOF)
}

/// The proof of the best documents of a query, of at most `limit` bytes.
pub fn prove_within<H: HashKind>(
    alloc: Global,
    index: &Index<H>,
    query: &Query,
    top: Top,
    algorithm: Algorithm,
    limit: u64,
) -> Result<Bytes, ProveFault>
    requires limit { limit ≤ 2 ^ 26 }
    ensures ok { IfOk result (IsProved H.hash index.now query.now top algorithm) }
    ensures within { IfOk result (λ bytes. length bytes ≤ limit) }
    ensures err { IfErr result (IsFault H.hash index.now query.now top algorithm limit) }
    ensures size { (proof : Proof) → IsHonest H.hash index.now query.now top algorithm proof
        → IsAnswerWithin limit (length_of proof) result }
    ensures fits { limit ≡ 2 ^ 26 → algorithm ≡ Tnra → IfErr result (λ fault. fault ≡ MemoryWanted) }
{
    records_are_joined();
    let mut writer = ProofWriter::new(alloc, limit);
    write_proof(alloc, &mut writer, index, query, top, algorithm)?;
    match writer.finish() {
        Ok(bytes) => Ok(bytes),
        Err(length) => Err(ProveFault::ProofTooLong { length }),
    }
}

/// The honest proof by [`Algorithm::Tra`] of all that is asked of a shard of a catalog, of at most `limit` bytes;
/// `None` if no cut shows it.
pub fn prove_share_within<H: HashKind>(
    alloc: Global,
    index: &Index<H>,
    query: &Query,
    share: Share,
    limit: u64,
) -> Result<Option<Bytes>, ProveFault>
    requires rows { share.rows ≤ 1000 }
    requires limit { limit ≤ 2 ^ 26 }
    ensures ok { IfOk result (λ found. MatchOption found
        ((proof : Proof) → ¬ IsHonestShare H.hash index.now query.now share proof)
        (IsShareProved H.hash index.now query.now share)) }
    ensures within { IfOk result (λ found. IfSome found (λ bytes. length bytes ≤ limit)) }
    ensures err { IfErr result (IsShareFault H.hash index.now query.now share limit) }
    ensures size { (proof : Proof) → IsHonestShare H.hash index.now query.now share proof
        → IsFoundWithin limit (length_of proof) result }
{
    records_are_joined();
    let mut writer = ProofWriter::new(alloc, limit);
    if !write_share(alloc, &mut writer, index, query, share)? {
        return Ok(None);
    }
    match writer.finish() {
        Ok(bytes) => Ok(Some(bytes)),
        Err(length) => Err(ProveFault::ProofTooLong { length }),
    }
}

/// The honest proof by [`Algorithm::Tnra`] of all that is asked of a shard of a catalog, of at most `limit` bytes: a
/// row for each span, which lies within it, and no other document that can score above the floor. `None` if no cut
/// shows it.
pub fn prove_spans_within<H: HashKind>(
    alloc: Global,
    index: &Index<H>,
    query: &Query,
    spans: &[Span],
    floor: u64,
    limit: u64,
) -> Result<Option<Bytes>, ProveFault>
    requires rows { length spans.now ≤ 1000 }
    requires limit { limit ≤ 2 ^ 26 }
    ensures ok { IfOk result (λ found. MatchOption found
        ((proof : Proof)
        → ¬ IsHonestWithin H.hash index.now query.now (record { spans = spans.now; floor = floor }) Tnra proof)
        (IsProvedBy
        (IsHonestWithin H.hash index.now query.now (record { spans = spans.now; floor = floor }) Tnra))) }
    ensures within { IfOk result (λ found. IfSome found (λ bytes. length bytes ≤ limit)) }
    ensures err { IfErr result (IsFaultBy
        (IsHonestWithin H.hash index.now query.now (record { spans = spans.now; floor = floor }) Tnra) limit) }
    ensures size { (proof : Proof)
        → IsHonestWithin H.hash index.now query.now (record { spans = spans.now; floor = floor }) Tnra proof
        → IsFoundWithin limit (length_of proof) result }
{
    records_are_joined();
    let mut writer = ProofWriter::new(alloc, limit);
    if !write_spans(alloc, &mut writer, index, query, spans, floor)? {
        return Ok(None);
    }
    match writer.finish() {
        Ok(bytes) => Ok(Some(bytes)),
        Err(length) => Err(ProveFault::ProofTooLong { length }),
    }
}

/// The proof that shows a cut of the lists of a query's terms and has no answer, of at most `limit` bytes. The cut says
/// for each term that some text has, in the query's order, how many entries of its list are shown.
pub fn prove_cut_within<H: HashKind>(
    alloc: Global,
    index: &Index<H>,
    query: &Query,
    cut: &[u32],
    algorithm: Algorithm,
    limit: u64,
) -> Result<Bytes, ProveFault>
    requires cut { IsCut (lanes_of index.now.texts query.now) cut.now }
    requires limit { limit ≤ 2 ^ 26 }
    ensures ok { IfOk result (IsCutProved H.hash index.now query.now algorithm cut.now) }
    ensures within { IfOk result (λ bytes. length bytes ≤ limit) }
    ensures err { IfErr result (IsCutFault H.hash index.now query.now algorithm cut.now limit) }
    ensures size { (proof : Proof) → IsCutShown H.hash index.now query.now algorithm cut.now proof
        → IsAnswerWithin limit (length_of proof) result }
{
    records_are_joined();
    let mut writer = ProofWriter::new(alloc, limit);
    write_unanswered(alloc, &mut writer, index, query, cut, algorithm)?;
    match writer.finish() {
        Ok(bytes) => Ok(bytes),
        Err(length) => Err(ProveFault::ProofTooLong { length }),
    }
}
