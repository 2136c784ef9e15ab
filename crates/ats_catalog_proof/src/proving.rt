//! The proofs of the shards of a catalog, one after another.

ghost use Rattle.std.specs.Prelude.{◌≡◌, ◌≤◌, ◌<◌, ◌^◌, ℕ, List, length, IfOk, IfErr, IfSome, MatchOption};
ghost use Rattle.ats_commit.specs.Archive.{Archive};
ghost use Rattle.ats_proof.specs.Value.{Proof};
ghost use Rattle.ats_proof.specs.Written.{writing};
ghost use Rattle.ats_honest.specs.Honest.{IsProvedBy};
ghost use Rattle.ats_prover.specs.Fault.{IsFaultBy};
ghost use Rattle.ats_catalog_honest.specs.Honest.{IsProvedCatalog};
ghost use Rattle.ats_catalog_proof.specs.Inner.ShardFault.{IsKeptProof, IsShardFault};
ghost use Rattle.ats_catalog_proof.specs.Proving.{HasBegun, HasProved, IsProveFault, IsProving, IsTooLongCatalog};
ghost use Rattle.ats_catalog_proof.specs.Ranking.{IsRankingOf};

use crate::fault::{CatalogProveFault, CatalogTooLong};
use crate::memory::OutOfMemory;
use crate::ranking::CatalogRanking;
use crate::writer::CatalogWriter;
use ats_base::Bytes;
use ats_catalog_honest::scores_need_no_edges;
use ats_grammar::MAX_PROOF;
use ats_hash::HashKind;
use ats_index::Index;
use ats_proof::Algorithm;
use ats_prover::{ProveFault, prove_share_within, prove_spans_within};
use std::alloc::Global;
use std::marker::Model;

/// The file of a catalog as far as it is made: its front, and the proofs of the first shards.
#[derive(Drop)]
pub struct CatalogProver<'a, H: HashKind> {
    ranking: CatalogRanking<'a, H>,
    algorithm: Algorithm,
    writer: CatalogWriter,
    proved: u32,
}

impl<'a, H: HashKind> Model for CatalogProver<'a, H> {
    ghost use Rattle.std.specs.Prelude.{◌≤◌, ◌+◌, ◌*◌, ◌^◌, length};
    ghost use Rattle.ats_catalog_proof.specs.ProvingState.{ProvingState};

    ghost Value = { ProvingState };

    ghost view = { λ p. record {
      ranking = p.ranking;
      algorithm = p.algorithm;
      written = p.writer;
      proved = p.proved;
    } };

    ghost invariant = { λ p. (p.proved ≤ length p.ranking.roots) × (length p.ranking.roots ≤ 4096)
        × (p.writer.asked ≤ 2 ^ 18 + p.proved * 2 ^ 27) };
}

// The proof of what a shard is asked for, by its index; none if no cut gives it.
fn prove_asked<H: HashKind>(
    alloc: Global,
    index: &Index<H>,
    ranking: &CatalogRanking<'_, H>,
    algorithm: Algorithm,
    shard: u32,
) -> Result<Option<Bytes>, ProveFault>
    ensures ok { IfOk result (λ found. MatchOption found
        ((proof : Proof) → ¬ IsKeptProof H.hash index.now ranking.now algorithm shard proof)
        (IsProvedBy (IsKeptProof H.hash index.now ranking.now algorithm shard))) }
    ensures within { IfOk result (λ found. IfSome found (λ bytes. length bytes ≤ 2 ^ 26)) }
    ensures err { IfErr result (IsFaultBy (IsKeptProof H.hash index.now ranking.now algorithm shard) (2 ^ 26)) }
{
    match algorithm {
        Algorithm::Tra => {
            let share = ranking.share(shard);
            prove_share_within(alloc, index, ranking.query(), share, MAX_PROOF)
        }
        Algorithm::Tnra => {
            let Ok(spans) = ranking.spans(alloc, algorithm, shard) else {
                return Err(ProveFault::OutOfMemory);
            };
            let floor = ranking.floor(algorithm);
            prove_spans_within(alloc, index, ranking.query(), &spans, floor, MAX_PROOF)
        }
    }
}

// The proof of what a shard is asked for, or why there is none.
fn prove_shard<H: HashKind>(
    alloc: Global,
    index: &Index<H>,
    ranking: &CatalogRanking<'_, H>,
    algorithm: Algorithm,
    shard: u32,
) -> Result<Bytes, CatalogProveFault>
    ensures ok { IfOk result (IsProvedBy (IsKeptProof H.hash index.now ranking.now algorithm shard)) }
    ensures within { IfOk result (λ bytes. length bytes ≤ 2 ^ 26) }
    ensures fault { IfErr result
        (IsShardFault (IsKeptProof H.hash index.now ranking.now algorithm shard) shard) }
{
    match prove_asked(alloc, index, ranking, algorithm, shard) {
        Ok(Some(bytes)) => Ok(bytes),
        Ok(None) => Err(CatalogProveFault::OtherIndex { shard }),
        Err(ProveFault::ProofTooLong { length }) => {
            Err(CatalogProveFault::ProofTooLong { shard, length })
        }
        Err(ProveFault::OutOfMemory) => Err(CatalogProveFault::OutOfMemory),
    }
}

impl<'a, H: HashKind> CatalogProver<'a, H> {
    /// The file with the roots of the shards of a ranking, and no proof yet. The algorithm is that of all proofs.
    pub fn begin(
        alloc: Global,
        ranking: CatalogRanking<'a, H>,
        algorithm: Algorithm,
    ) -> Result<Self, OutOfMemory>
        ensures { IfOk result (HasBegun H.hash ranking.entry algorithm) }
    {
        let writer = CatalogWriter::begin(alloc, ranking.roots())?;
        Ok(CatalogProver {
            ranking,
            algorithm,
            writer,
            proved: 0,
        })
    }

    /// Appends the proof of the next shard. The index must be the one that the first pass took for the shard; it may be
    /// dropped after the call. A root that differs is found here, before anything is proved.
    pub fn take(self, alloc: Global, index: &Index<H>) -> Result<Self, CatalogProveFault>
        requires left { self.proved < length self.ranking.roots }
        ensures proved { IfOk result (HasProved H.hash index.now self.entry) }
        ensures fault { IfErr result (λ fault. (catalog : List Archive) (query : List (List ℕ × ℕ)) (r : ℕ)
            → (is : IsRankingOf H.hash catalog query r self.entry.ranking)
            → IsProveFault H.hash catalog query is.ranking r index.now self.entry fault) }
    {
        let CatalogProver {
            ranking,
            algorithm,
            mut writer,
            proved,
        } = self;
        if ranking.roots()[proved as usize] != index.root() {
            return Err(CatalogProveFault::OtherIndex { shard: proved });
        }
        let proof = prove_shard(alloc, index, &ranking, algorithm, proved)?;
        writer.put(proof.as_slice())?;
        Ok(CatalogProver {
            ranking,
            algorithm,
            writer,
            proved: proved + 1,
        })
    }

    /// The whole file, once the proofs of all shards are in it, at least one.
    pub fn end(self) -> Result<Bytes, CatalogTooLong>
        requires whole { self.proved ≡ length self.ranking.roots }
        requires some { 1 ≤ self.proved }
        ensures ok { (catalog : List Archive) (query : List (List ℕ × ℕ)) (r : ℕ)
            → IsProving H.hash catalog query r self.entry
            → IfOk result (IsProvedCatalog H.hash catalog query r (λ _. self.entry.algorithm)) }
        ensures whole { (bytes : List ℕ) → self.entry.written ≡ writing (2 ^ 28) bytes → IfOk result (λ made. made ≡ bytes) }
        ensures within { IfOk result (λ bytes. length bytes ≤ 2 ^ 28) }
        ensures beyond { (bytes : List ℕ) → self.entry.written ≡ writing (2 ^ 28) bytes
            → IfErr result (λ long. (long.length ≡ length bytes) × (2 ^ 28 < long.length)) }
        ensures long { (catalog : List Archive) (query : List (List ℕ × ℕ)) (r : ℕ)
            → IsProving H.hash catalog query r self.entry
            → IfErr result (λ long. IsTooLongCatalog H.hash catalog query r self.entry.algorithm long.length) }
    {
        scores_need_no_edges::<H>();
        match self.writer.finish() {
            Ok(bytes) => Ok(bytes),
            Err(length) => Err(CatalogTooLong { length }),
        }
    }
}
