//! The ranking of a catalog, shard by shard.

ghost use Rattle.std.specs.Prelude.{◌≡◌, ◌≤◌, ◌<◌, [], ℕ, List, length, map, take, IfOk, OnOk, OnErr};
ghost use Rattle.std.specs.List.{All};
ghost use Rattle.ats_proof.specs.declared.record.Algorithm.TheVariants.{Tra};
ghost use Rattle.ats_catalog_honest.specs.Ranking.{shares_of};
ghost use Rattle.ats_catalog_honest.specs.Shares.{floors_of, rows_from, share_of};
ghost use Rattle.ats_catalog_proof.specs.Ranking.{HasRanked, IsRankingOf};

use crate::edges::{edge, spans_of};
use crate::memory::OutOfMemory;
use crate::row::{RankedRow, first_rows};
use ats_bound::{Share, Span};
use ats_hash::HashKind;
use ats_impact::{Top, rank_first};
use ats_index::Index;
use ats_proof::Algorithm;
use ats_terms::Query;
use std::alloc::Global;
use std::marker::{Model, PhantomData};

/// The best rows of the shards of a catalog whose indexes were taken, and the root of each.
#[derive(Drop)]
pub struct CatalogRanking<'a, H: HashKind> {
    query: &'a Query,
    top: Top,
    roots: Vec<[u8; 32]>,
    rows: Vec<RankedRow>,
    kind: PhantomData<H>,
}

impl<'a, H: HashKind> Model for CatalogRanking<'a, H> {
    ghost use Rattle.std.specs.Prelude.{◌≡◌, ◌≤◌, ◌+◌, ℕ, List, length};
    ghost use Rattle.std.specs.List.{All};
    ghost use Rattle.ats_catalog_proof.specs.RankingState.{RankingState};

    ghost Value = { RankingState };

    ghost view = { λ s. record { query = s.query.now; r = s.top; roots = s.roots.items; rows = s.rows.items } };

    ghost invariant = { λ s. (length s.roots.items ≤ 4096) × All (λ (root : List ℕ). length root ≡ 32) s.roots.items
        × (length s.rows.items ≤ s.top + 1) };
}

// How many of the rows are of a shard.
fn rows_of(rows: &[RankedRow], shard: u32) -> u32
    requires { length rows.now ≤ 1000 }
    ensures value { result ≡ length (rows_from shard 0 (map (λ row. row.shard) rows.now)) }
    ensures few { result ≤ 1000 }
{
    let mut found: u32 = 0;
    for row in rows {
        if row.shard() == shard {
            found += 1;
        }
    }
    found
}

impl<'a, H: HashKind> CatalogRanking<'a, H> {
    /// A ranking of no shards yet, of the first `top` rows. It allocates nothing.
    pub fn begin(alloc: Global, query: &'a Query, top: Top) -> Self
        ensures { IsRankingOf H.hash [] query.now top result }
    {
        // A query has few terms.
        prove!(query.len() <= 32);
        CatalogRanking {
            query,
            top,
            roots: Vec::new(alloc),
            rows: Vec::new(alloc),
            kind: PhantomData,
        }
    }

    /// Takes the index of the next shard, which may be dropped after the call. There are at most
    /// [`MAX_SHARDS`](ats_catalog_bytes::MAX_SHARDS). If memory runs out, the ranking is as before.
    pub fn take(&mut self, alloc: Global, index: &Index<H>) -> Result<(), OutOfMemory>
        requires room { length self.old.roots < 4096 }
        ensures taken { OnOk result (HasRanked H.hash index.now self.old self.new) }
        ensures same { OnErr result (self.new ≡ self.old) }
    {
        let count = self.top.get() + 1;
        let found = rank_first(alloc, index.collection(), self.query, count)?;
        let shard = self.roots.len() as u32;
        let rows = first_rows(alloc, &self.rows, shard, found.as_slice(), count)?;
        self.roots.push(index.root())?;
        self.rows = rows;
        Ok(())
    }

    /// How many indexes were taken.
    pub fn len(&self) -> u32
        ensures value { result ≡ length self.now.roots }
        ensures few { result ≤ 4096 }
    {
        self.roots.len() as u32
    }

    /// The query.
    pub fn query(&self) -> &'a Query
        ensures { result.now ≡ self.now.query }
    {
        self.query
    }

    /// The roots of the indexes that were taken.
    pub fn roots(&self) -> &[[u8; 32]]
        ensures value { result.now ≡ self.now.roots }
        ensures sized { All (λ (root : List ℕ). length root ≡ 32) result.now }
        ensures few { length result.now ≤ 4096 }
    {
        self.roots.as_slice()
    }

    /// The rows of the answer, best first.
    pub fn rows(&self) -> &[RankedRow]
        ensures value { result.now ≡ take self.now.r self.now.rows }
        ensures few { length result.now ≤ 1000 }
    {
        &self.rows[..self.shown()]
    }

    // How many rows the answer has.
    fn shown(&self) -> usize
        ensures value { result ≡ length (take self.now.r self.now.rows) }
        ensures few { result ≤ 1000 }
    {
        self.rows.len().min(self.top.get() as usize)
    }

    /// What a shard, counted from 0, is asked for, if its proof is by TRA: its number of rows, and the score of the
    /// last row of all; if there are fewer rows than may be, 0.
    pub fn share(&self, shard: u32) -> Share
        ensures value { result ≡ share_of (shares_of (λ _. Tra) self.now.r self.now.rows) shard }
        ensures few { result.rows ≤ 1000 }
    {
        Share {
            rows: rows_of(self.rows(), shard),
            floor: self.floor(Algorithm::Tra),
        }
    }

    /// The edge below the last row of the answer, which nothing else of any shard may score above.
    pub fn floor(&self, algorithm: Algorithm) -> u64
        ensures { (shard : ℕ)
            → result ≡ (floors_of (shares_of (λ _. algorithm) self.now.r self.now.rows) shard).floor }
    {
        edge(&self.rows, self.top, algorithm, self.shown())
    }

    /// The spans between the edges of a shard's rows. By TNRA it is asked for these and for the floor.
    pub fn spans(
        &self,
        alloc: Global,
        algorithm: Algorithm,
        shard: u32,
    ) -> Result<Vec<Span>, OutOfMemory>
        ensures value { IfOk result (λ spans. spans.items
            ≡ (floors_of (shares_of (λ _. algorithm) self.now.r self.now.rows) shard).spans) }
        ensures few { IfOk result (λ spans. length spans.items ≤ 1000) }
    {
        spans_of(alloc, &self.rows, self.top, algorithm, shard)
    }
}
