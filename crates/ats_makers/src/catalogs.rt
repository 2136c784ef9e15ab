//! `prove-catalog`: the honest file of a catalog's answer, with one index at a time.

ghost use Rattle.std.specs.Prelude.{◌≡◌, ◌≤◌, ◌<◌, ◌+◌, ◌^◌, [], ℕ, List, length, IfOk, IfErr, OnOk};
ghost use Rattle.ats_terms.specs.Query.{IsQueryOf};
ghost use Rattle.ats_commit.specs.Archive.{Archive};
ghost use Rattle.ats_proof.specs.Written.{writing};
ghost use Rattle.ats_catalog_honest.specs.Honest.{IsProvedCatalog};
ghost use Rattle.ats_catalog_honest.specs.Ranking.{Ranked};
ghost use Rattle.ats_catalog_proof.specs.Proving.{HasProved, IsProveFault, IsProving};
ghost use Rattle.ats_catalog_proof.specs.ProvingState.{ProvingState};
ghost use Rattle.ats_catalog_proof.specs.Ranking.{HasRanked, IsRankingOf};
ghost use Rattle.ats_plan.specs.Plan.{ComesToShelf};
ghost use Rattle.ats_plan.specs.Runs.{IsDone, IsStopped};
ghost use Rattle.ats_console.specs.Names.{HasNames, reads_archives};
ghost use Rattle.ats_console.specs.Steps.{AsksRanking, reads_index, no_more, comes_to};
ghost use Rattle.ats_console.specs.declared.stops.Stop.TheVariants.{Shelf as AtShelf, Memory, Input};
ghost use Rattle.ats_makers.specs.Lines.{line_of_other_shard, line_of_long_shard};
ghost use Rattle.ats_makers.specs.Commands.{asked_by, proves_shard, proves_shards, IsFileShort, IsFileLong, proves_names, prove_catalog_plan};
ghost use Rattle.ats_makers.specs.Inner.Catalogs.{HasWritten, IsShardStop};

use crate::storing::store_sized;
use ats_base::{Bytes, Shelf};
use ats_catalog_proof::{CatalogProveFault, CatalogProver, CatalogRanking};
use ats_console::{Line, Name, Stop, input_stop, proof_too_long, read, read_names};
use ats_hash::Hash32;
use ats_impact::Top;
use ats_index::Index;
use ats_prover::Algorithm;
use ats_refusal::Phrase;
use ats_terms::Query;
use std::alloc::Global;
use std::thread::Threads;

// The stop of an index that is another when it is read again.
fn other_shard(shard: u32) -> Stop
    ensures { result ≡ Input (line_of_other_shard shard) }
{
    input_stop(Phrase::around("shard ", shard as u64, " differs"))
}

// The stop of a shard whose proof would have more bytes than a proof may have.
fn long_shard(shard: u32, bytes: u64) -> Stop
    ensures { result ≡ Input (line_of_long_shard shard bytes) }
{
    let words = Phrase::numbers("shard ", shard as u64, " proof of ", bytes);
    Stop::Input(Line::said("input: ", words, " bytes\n"))
}

// The stop of a shard that has no proof.
fn shard_stop(fault: CatalogProveFault) -> Stop
    ensures { (H : List ℕ → List ℕ) (catalog : List Archive) (query : List (List ℕ × ℕ)) (ranking : List Ranked)
        (r : ℕ) (archive : Archive) (state : ProvingState)
        → IsProveFault H catalog query ranking r archive state fault
        → IsShardStop H catalog (asked_by H query state.algorithm r ranking) state.proved archive result }
{
    match fault {
        CatalogProveFault::OtherIndex { shard } => other_shard(shard),
        CatalogProveFault::ProofTooLong { shard, length } => long_shard(shard, length),
        CatalogProveFault::OutOfMemory => Stop::Memory,
    }
}

// Takes the index that the named file is into the ranking. The index is dropped then.
fn rank_named<H: Hash32 + Sync, R: Threads + Sync, S: Shelf>(
    rt: &R,
    alloc: Global,
    name: &str,
    ranking: &mut CatalogRanking<'_, H>,
    shelf: &mut S,
) -> Result<(), Stop>
    requires room { length ranking.old.roots < 4096 }
    ensures ok { OnOk result ((archive : Archive) × HasRanked H.hash archive ranking.old ranking.new
        × IsDone (reads_index H.hash name.now (comes_to archive)) (S.told shelf.old) (S.told shelf.new) []) }
    ensures stop { IfErr result (IsStopped AtShelf Memory (reads_index H.hash name.now (λ archive. no_more))
        (S.told shelf.old) (S.told shelf.new)) }
{
    let index = read::index::<H, R, S>(rt, alloc, name, shelf)?;
    let taken = ranking.take(alloc, &index);
    drop(index);
    match taken {
        Ok(()) => Ok(()),
        Err(_) => Err(Stop::Memory),
    }
}

// Takes the indexes that the named files are into the ranking, in order, and keeps none of them.
fn rank_all<H: Hash32 + Sync, R: Threads + Sync, S: Shelf>(
    rt: &R,
    alloc: Global,
    names: &[Name<'_>],
    ranking: &mut CatalogRanking<'_, H>,
    shelf: &mut S,
) -> Result<(), Stop>
    requires room { length ranking.old.roots + length names.now ≤ 4096 }
    ensures ok { (query : List (List ℕ × ℕ)) (r : ℕ) → IsRankingOf H.hash [] query r ranking.old
        → OnOk result ((catalog : List Archive) × IsRankingOf H.hash catalog query r ranking.new
        × IsDone (reads_archives H.hash [] names.now (comes_to catalog)) (S.told shelf.old) (S.told shelf.new) []) }
    ensures stop { IfErr result (IsStopped AtShelf Memory (reads_archives H.hash [] names.now (λ archives. no_more))
        (S.told shelf.old) (S.told shelf.new)) }
{
    for name in names {
        rank_named::<H, R, S>(rt, alloc, name.as_str(), ranking, shelf)?;
    }
    Ok(())
}

// Appends the proof of the next shard, over an index, which is dropped.
fn append<'a, H: Hash32>(
    alloc: Global,
    prover: CatalogProver<'a, H>,
    index: Index<H>,
) -> Result<CatalogProver<'a, H>, Stop>
    requires left { prover.proved < length prover.ranking.roots }
    ensures proved { IfOk result (HasProved H.hash index prover.entry) }
    ensures stop { (catalog : List Archive) (query : List (List ℕ × ℕ)) (r : ℕ)
        → (is : IsRankingOf H.hash catalog query r prover.entry.ranking)
        → IfErr result (IsShardStop H.hash catalog (asked_by H.hash query prover.entry.algorithm r is.ranking)
        prover.entry.proved index) }
{
    let taken = prover.take(alloc, &index);
    drop(index);
    match taken {
        Ok(more) => Ok(more),
        Err(fault) => Err(shard_stop(fault)),
    }
}

// Appends the proof of the next shard, over the index that the named file is when it is read again.
fn prove_named<'a, H: Hash32 + Sync, R: Threads + Sync, S: Shelf>(
    rt: &R,
    alloc: Global,
    name: &str,
    prover: CatalogProver<'a, H>,
    shelf: &mut S,
) -> Result<CatalogProver<'a, H>, Stop>
    requires left { prover.proved < length prover.ranking.roots }
    ensures ok { IfOk result (λ more. (archive : Archive) × (proved : HasProved H.hash archive prover.entry more)
        × ((catalog : List Archive) (query : List (List ℕ × ℕ)) (r : ℕ)
        → (is : IsRankingOf H.hash catalog query r prover.entry.ranking)
        → IsDone (proves_shard H.hash catalog (asked_by H.hash query prover.entry.algorithm r is.ranking)
        prover.entry.proved name.now (comes_to proved.proof)) (S.told shelf.old) (S.told shelf.new) [])) }
    ensures stop { (catalog : List Archive) (query : List (List ℕ × ℕ)) (r : ℕ)
        → (is : IsRankingOf H.hash catalog query r prover.entry.ranking)
        → IfErr result (IsStopped AtShelf Memory
        (proves_shard H.hash catalog (asked_by H.hash query prover.entry.algorithm r is.ranking)
        prover.entry.proved name.now (λ proof. no_more)) (S.told shelf.old) (S.told shelf.new)) }
{
    let index = match read::index::<H, R, S>(rt, alloc, name, shelf) {
        Ok(index) => index,
        Err(stop) => {
            drop(prover);
            return Err(stop);
        }
    };
    append(alloc, prover, index)
}

// The file with the proofs of all shards, over the indexes that the named files are when they are read again, in order. It
// keeps none of these.
fn prove_all<'a, H: Hash32 + Sync, R: Threads + Sync, S: Shelf>(
    rt: &R,
    alloc: Global,
    names: &[Name<'_>],
    ranking: CatalogRanking<'a, H>,
    algorithm: Algorithm,
    shelf: &mut S,
) -> Result<CatalogProver<'a, H>, Stop>
    requires all { length names.now ≡ length ranking.roots }
    ensures ok { IfOk result (λ prover. (proofs : List (List ℕ)) × HasWritten ranking.entry algorithm proofs prover
        × ((catalog : List Archive) (query : List (List ℕ × ℕ)) (r : ℕ)
        → (is : IsRankingOf H.hash catalog query r ranking.entry)
        → IsDone (proves_shards H.hash catalog (asked_by H.hash query algorithm r is.ranking) [] names.now
        (comes_to proofs)) (S.told shelf.old) (S.told shelf.new) [])) }
    ensures stop { (catalog : List Archive) (query : List (List ℕ × ℕ)) (r : ℕ)
        → (is : IsRankingOf H.hash catalog query r ranking.entry)
        → IfErr result (IsStopped AtShelf Memory
        (proves_shards H.hash catalog (asked_by H.hash query algorithm r is.ranking) [] names.now (λ proofs. no_more))
        (S.told shelf.old) (S.told shelf.new)) }
{
    let Ok(mut prover) = CatalogProver::begin(alloc, ranking, algorithm) else {
        return Err(Stop::Memory);
    };
    for name in names {
        prover = prove_named::<H, R, S>(rt, alloc, name.as_str(), prover, shelf)?;
    }
    Ok(prover)
}

// The bytes of the file, once the proofs of all shards are in it.
fn file_of<H: Hash32>(prover: CatalogProver<'_, H>) -> Result<Bytes, Stop>
    requires whole { prover.proved ≡ length prover.ranking.roots }
    requires some { 1 ≤ prover.proved }
    ensures proved { (catalog : List Archive) (query : List (List ℕ × ℕ)) (r : ℕ)
        → IsProving H.hash catalog query r prover.entry
        → IfOk result (IsProvedCatalog H.hash catalog query r (λ _. prover.entry.algorithm)) }
    ensures made { (bytes : List ℕ) → prover.entry.written ≡ writing (2 ^ 28) bytes
        → IfOk result (λ made. (made ≡ bytes) × IsFileShort bytes) }
    ensures stop { (bytes : List ℕ) → prover.entry.written ≡ writing (2 ^ 28) bytes → IfErr result (IsFileLong bytes) }
{
    match prover.end() {
        Ok(bytes) => Ok(bytes),
        Err(long) => Err(proof_too_long(long.length)),
    }
}

// Stores the file over the indexes that the named files are, and returns the line of its length.
fn prove_names<H: Hash32 + Sync, R: Threads + Sync, S: Shelf>(
    rt: &R,
    alloc: Global,
    names: &[Name<'_>],
    query: &Query,
    top: Top,
    algorithm: Algorithm,
    file: &str,
    shelf: &mut S,
) -> Result<Vec<u8>, Stop>
    requires some { 1 ≤ length names.now }
    requires few { length names.now ≤ 4096 }
    ensures ok { (list text : List ℕ) → AsksRanking top text → IsQueryOf text query.now
        → HasNames (S.told shelf.old).files list names.now
        → IfOk result (λ printed. IsDone (proves_names H.hash
        (record { list = list; algorithm = algorithm; r = top; query = text; file = file.now }) names.now query.now)
        (S.told shelf.old) (S.told shelf.new) printed.items) }
    ensures stop { (list text : List ℕ) → IfErr result (IsStopped AtShelf Memory (proves_names H.hash
        (record { list = list; algorithm = algorithm; r = top; query = text; file = file.now }) names.now query.now)
        (S.told shelf.old) (S.told shelf.new)) }
{
    let mut ranking = CatalogRanking::begin(alloc, query, top);
    match rank_all::<H, R, S>(rt, alloc, names, &mut ranking, shelf) {
        Ok(()) => {}
        Err(stop) => {
            drop(ranking);
            return Err(stop);
        }
    }
    let prover = prove_all::<H, R, S>(rt, alloc, names, ranking, algorithm, shelf)?;
    let bytes = file_of(prover)?;
    store_sized(alloc, "catalog", file, bytes, shelf)
}

/// Stores the honest file of a catalog, and returns the line of its length, which is made first. The words are checked
/// before anything is read, and the list before the indexes, of which one at a time is in memory.
pub(crate) fn prove_catalog<H: Hash32 + Sync, R: Threads + Sync, S: Shelf>(
    rt: &R,
    alloc: Global,
    list: &str,
    algorithm: Algorithm,
    r: u32,
    query: &str,
    file: &str,
    shelf: &mut S,
) -> Result<Vec<u8>, Stop>
    ensures ok { IfOk result (λ text. IsDone (prove_catalog_plan H.hash
        (record { list = list.now; algorithm = algorithm; r = r; query = query.now; file = file.now }))
        (S.told shelf.old) (S.told shelf.new) text.items) }
    ensures stop { IfErr result (IsStopped AtShelf Memory (prove_catalog_plan H.hash
        (record { list = list.now; algorithm = algorithm; r = r; query = query.now; file = file.now }))
        (S.told shelf.old) (S.told shelf.new)) }
    ensures unread { (ComesToShelf (prove_catalog_plan H.hash
        (record { list = list.now; algorithm = algorithm; r = r; query = query.now; file = file.now })) → ⊥)
        → shelf.new ≡ shelf.old }
{
    let top = Top::new(r)?;
    let asked = Query::read(alloc, query)?;
    let listed = read::file(alloc, list, read::LIST_LIMIT, shelf)?;
    let names = read_names(alloc, listed.as_slice())?;
    prove_names::<H, R, S>(
        rt,
        alloc,
        names.as_slice(),
        &asked,
        top,
        algorithm,
        file,
        shelf,
    )
}
