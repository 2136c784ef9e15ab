//! `trial`: the honest proofs of a number's queries over its texts, by both algorithms.

ghost use Rattle.std.specs.Prelude.{◌≡◌, ◌⊎◌, ◌<◌, ◌≤◌, ◌+◌, ◌^◌, ℕ, List, IfOk, IfErr, OnOk, length, string_bytes};
ghost use Rattle.ats_commit.specs.Archive.{archive_of};
ghost use Rattle.ats_impact.specs.Trial.{trial_texts};
ghost use Rattle.ats_honest.specs.Honest.{IsHonest, IsProved, length_of};
ghost use Rattle.ats_proof.specs.Value.{Proof};
ghost use Rattle.ats_console.specs.Inner.Making.{MakingStop};
ghost use Rattle.ats_proof.specs.declared.record.Algorithm.TheVariants.{Tra, Tnra};
ghost use Rattle.ats_audit.specs.Verdicts.{IsVerdict};
ghost use Rattle.ats_audit.specs.declared.auditing.Verdict.{Verdict};
ghost use Rattle.ats_base.specs.Outside.{ShelfTold};
ghost use Rattle.ats_plan.specs.Runs.{IsDone, IsStopped};
ghost use Rattle.ats_auditors.specs.Commands.{trial_plan};
ghost use Rattle.ats_auditors.specs.Trial.{shown_entries, IsTried, line_of_proofs, lines_of_trial};
ghost use Rattle.ats_auditors.specs.Inner.Trial.{is_right, tally_of, counted, IsSmall, IsTryStop, IsTriesStop, AreTried, AreTriedLines, AreTrialQueries, IsTrialStop};
ghost use Rattle.ats_console.specs.declared.stops.Stop.TheVariants.{Shelf as AtShelf, Memory};

use ats_audit::Verdict;
use ats_base::Bytes;
use ats_bound::Work;
use ats_client::check;
use ats_console::{Stop, proof_too_long, root_line};
use ats_grammar::MAX_PROOF;
use ats_hash::{Hash32, Steps};
use ats_impact::{Collection, Top, trial_query, trial_texts};
use ats_index::Index;
use ats_proof::{Algorithm, ProofView};
use ats_prover::{ProveFault, prove_within};
use ats_terms::Query;
use std::alloc::{AllocError, Global};
use std::thread::Threads;

const QUERIES: u32 = 20;

/// The totals of some proofs: how many are accepted, with the entries that they show and their bytes, and how many an
/// audit finds right.
#[derive(Clone, Copy)]
pub(crate) struct Tally {
    pub(crate) accepted: u32,
    pub(crate) entries: u64,
    pub(crate) bytes: u64,
    pub(crate) right: u32,
}

const NONE: Tally = Tally {
    accepted: 0,
    entries: 0,
    bytes: 0,
    right: 0,
};

// How many entries of the lists a proof shows.
fn shown_entries(proof: &ProofView<'_>, steps: &mut Steps) -> u64
    requires space { steps.old ≤ 2 ^ 63 }
    ensures value { result ≡ shown_entries proof.now }
    ensures few { result ≤ 2 ^ 48 }
{
    proof.facts();
    let mut lists = proof.lists();
    let mut entries: u64 = 0;
    'lists: while let Some(list) = lists.next(steps) {
        entries += u64::from(list.len());
    }
    entries
}

// Whether a verdict is that the rows are right.
fn tells_right(verdict: &Verdict) -> bool
    ensures { result ≡ is_right verdict.now }
{
    matches!(verdict, Verdict::Right(_))
}

// Whether an audit of the bytes of a proof finds its rows right.
fn is_right<H: Hash32>(
    alloc: Global,
    index: &Index<H>,
    query: &Query,
    top: Top,
    bytes: &[u8],
) -> Result<bool, Stop>
    ensures ok { IfOk result (λ right. (verdict : Verdict)
        × IsVerdict H.hash index.now query.now top bytes.now verdict × (right ≡ is_right verdict)) }
    ensures stop { IfErr result (λ stop. stop ≡ Memory) }
{
    let Ok(verdict) = ats_audit::audit::<H>(alloc, index, query, top, bytes) else {
        return Err(Stop::Memory);
    };
    Ok(tells_right(&verdict))
}

// The honest proof of a query, of at most as many bytes as a proof may have.
fn make_proof<H: Hash32>(
    alloc: Global,
    index: &Index<H>,
    query: &Query,
    top: Top,
    algorithm: Algorithm,
) -> Result<Bytes, Stop>
    ensures ok { IfOk result (IsProved H.hash index.now query.now top algorithm) }
    ensures within { IfOk result (λ bytes. length bytes ≤ 2 ^ 26) }
    ensures size { (proof : Proof) → IsHonest H.hash index.now query.now top algorithm proof
        → IfOk result (λ bytes. (length bytes ≡ length_of proof) × (length_of proof ≤ 2 ^ 26)) }
    ensures stop { IfErr result (MakingStop H.hash index.now query.now top algorithm) }
{
    match prove_within(alloc, index, query, top, algorithm, MAX_PROOF) {
        Ok(bytes) => Ok(bytes),
        Err(ProveFault::ProofTooLong { length }) => Err(proof_too_long(length)),
        Err(ProveFault::OutOfMemory) => Err(Stop::Memory),
    }
}

// Proves a query by an algorithm, checks the proof under the root of the index, and audits it. Counts it if it is
// accepted, and if it is found right.
fn count<H: Hash32>(
    alloc: Global,
    index: &Index<H>,
    query: &Query,
    top: Top,
    algorithm: Algorithm,
    tally: &mut Tally,
) -> Result<(), Stop>
    requires ten { top ≡ 10 }
    requires small { IsSmall tally.old }
    requires space { tally.old.accepted < 20 }
    ensures counted { OnOk result ((proof : Proof)
        × IsTried H.hash index.now query.now algorithm proof × (tally.new ≡ counted proof tally.old)) }
    ensures small { OnOk result (IsSmall tally.new) }
    ensures stop { IfErr result (IsTryStop H.hash index.now query.now algorithm) }
{
    let bytes = make_proof::<H>(alloc, index, query, top, algorithm)?;
    let bytes = bytes.as_slice();
    let Ok(proof) = ProofView::read(bytes) else {
        return Ok(());
    };
    let mut steps = Steps::new(alloc);
    let Ok(mut work) = Work::with_room(alloc, proof.met()) else {
        return Err(Stop::Memory);
    };
    let accepted = check::<H>(&index.root(), query, top, &proof, &mut work, &mut steps).is_ok();
    tally.right += u32::from(is_right::<H>(alloc, index, query, top, bytes)?);
    if accepted {
        let mut steps = Steps::new(alloc);
        tally.accepted += 1;
        tally.entries += shown_entries(&proof, &mut steps);
        tally.bytes += bytes.len() as u64;
    }
    Ok(())
}

// The totals for all queries by both algorithms: query after query, TRA first.
fn tallies<H: Hash32>(
    alloc: Global,
    index: &Index<H>,
    queries: &[Query],
    top: Top,
) -> Result<(Tally, Tally), Stop>
    requires ten { top ≡ 10 }
    requires few { length queries.now ≤ 20 }
    ensures tra { IfOk result (λ tallies. (proofs : List Proof)
        × AreTried H.hash index.now queries.now Tra proofs × (tallies.0 ≡ tally_of proofs)) }
    ensures tnra { IfOk result (λ tallies. (proofs : List Proof)
        × AreTried H.hash index.now queries.now Tnra proofs × (tallies.1 ≡ tally_of proofs)) }
    ensures small { IfOk result (λ tallies. IsSmall tallies.0 × IsSmall tallies.1) }
    ensures stop { IfErr result (IsTriesStop H.hash index.now queries.now) }
{
    let mut tra = NONE;
    let mut tnra = NONE;
    for query in queries {
        count(alloc, index, query, top, Algorithm::Tra, &mut tra)?;
        count(alloc, index, query, top, Algorithm::Tnra, &mut tnra)?;
    }
    Ok((tra, tnra))
}

// The queries of a trial.
fn queries(alloc: Global, number: u32) -> Result<Vec<Query>, Stop>
    ensures ok { IfOk result (λ queries. AreTrialQueries number queries.items) }
    ensures many { IfOk result (λ queries. length queries.items ≡ 20) }
    ensures stop { (H : List ℕ → List ℕ) → IfErr result (IsTrialStop H number) }
{
    let mut queries = Vec::new(alloc);
    for i in 0..QUERIES {
        let query = trial_query(alloc, number, i)?;
        if queries.push(query).is_err() {
            return Err(Stop::Memory);
        }
    }
    Ok(queries)
}

// The index of the texts of a trial.
fn index<H: Hash32 + Sync, R: Threads + Sync>(
    rt: &R,
    alloc: Global,
    number: u32,
) -> Result<Index<H>, Stop>
    ensures ok { IfOk result (λ index. index ≡ archive_of (trial_texts number)) }
    ensures stop { IfErr result (IsTrialStop H.hash number) }
{
    let texts = Collection::new(alloc, trial_texts(alloc, number)?)?;
    Ok(Index::<H>::build(rt, alloc, texts)?)
}

fn line(alloc: Global, name: &str, tally: &Tally) -> Result<String, AllocError>
    ensures { IfOk result (λ text. (proofs : List Proof)
        → tally.now ≡ tally_of proofs → string_bytes text ≡ line_of_proofs name.now proofs) }
{
    let (accepted, entries, bytes) = (tally.accepted, tally.entries, tally.bytes);
    format!(in alloc; "{name} accepted {accepted} entries {entries} bytes {bytes}\n")
}

// The five lines of a trial.
fn text(alloc: Global, root: &[u8; 32], tra: &Tally, tnra: &Tally) -> Result<String, AllocError>
    requires small { IsSmall tra.now }
    requires other { IsSmall tnra.now }
    ensures { IfOk result (λ text. (first second : List Proof)
        → tra.now ≡ tally_of first → tnra.now ≡ tally_of second
        → string_bytes text ≡ lines_of_trial root.now first second) }
{
    let right = tra.right + tnra.right;
    let root = root_line(alloc, root)?;
    let tra = line(alloc, "tra", tra)?;
    let tnra = line(alloc, "tnra", tnra)?;
    format!(in alloc;
        "documents 2000 terms 100000 queries 20\nroot {root}{tra}{tnra}audit right {right}\n"
    )
}

// The lines of a trial of these queries against the index of its texts.
fn try_to_lines<H: Hash32>(
    alloc: Global,
    index: &Index<H>,
    queries: &[Query],
    top: Top,
) -> Result<Vec<u8>, Stop>
    requires ten { top ≡ 10 }
    requires few { length queries.now ≤ 20 }
    ensures ok { IfOk result (λ text. AreTriedLines H.hash index.now queries.now text.items) }
    ensures stop { IfErr result (λ stop. (stop ≡ Memory) ⊎ IsTriesStop H.hash index.now queries.now stop) }
{
    let (tra, tnra) = tallies(alloc, index, queries, top)?;
    Ok(text(alloc, &index.root(), &tra, &tnra)?.into_bytes())
}

// How many rows an answer may have.
const ROWS: u32 = 10;

/// The lines of `trial`: its queries are read, then its texts are indexed, and then each query is proved, checked and
/// audited by each algorithm. It counts what the check and the audit returned, though a proof says 20 and 40.
pub(crate) fn trial<H: Hash32 + Sync, R: Threads + Sync>(
    rt: &R,
    alloc: Global,
    number: u32,
) -> Result<Vec<u8>, Stop>
    ensures ok { (shelf : ShelfTold)
        → IfOk result (λ text. IsDone (trial_plan H.hash (record { number = number })) shelf shelf text.items) }
    ensures stop { (shelf : ShelfTold)
        → IfErr result (IsStopped AtShelf Memory (trial_plan H.hash (record { number = number })) shelf shelf) }
{
    let top = Top::new(ROWS)?;
    let queries = queries(alloc, number)?;
    let index = index::<H, R>(rt, alloc, number)?;
    let text = try_to_lines(alloc, &index, queries.as_slice(), top);
    drop(index);
    text
}
