//! A row of a catalog's ranking, and the rows of two rankings as one.

ghost use Rattle.std.specs.Prelude.{◌≡◌, ◌++◌, IfOk, OnOk};
ghost use Rattle.std.specs.List.Sorted.{IsPermutation, IsSorted};
ghost use Rattle.ats_catalog_honest.specs.Ranking.{ranked_cmp};
ghost use Rattle.ats_catalog_proof.specs.Inner.First.{AreFirst, in_shard};

use crate::memory::OutOfMemory;
use ats_impact::Row;
use std::alloc::Global;
use std::cmp::Reverse;
use std::marker::Model;

/// A document of a shard, both counted from 0, with its score.
#[derive(Clone, Copy, Debug)]
pub struct RankedRow {
    shard: u32,
    doc: u32,
    score: u64,
}

impl Model for RankedRow {
    ghost use Rattle.ats_catalog_honest.specs.Ranking.{Ranked};

    ghost Value = { Ranked };

    ghost view = { λ row. record { shard = row.shard; doc = row.doc; score = row.score } };

    ghost inverse = { λ one. record { shard = one.shard; doc = one.doc; score = one.score } };
}

impl RankedRow {
    /// The number of the shard.
    pub fn shard(&self) -> u32
        ensures { result ≡ self.now.shard }
    {
        self.shard
    }

    /// The number of the document in its shard.
    pub fn doc(&self) -> u32
        ensures { result ≡ self.now.doc }
    {
        self.doc
    }

    pub fn score(&self) -> u64
        ensures { result ≡ self.now.score }
    {
        self.score
    }
}

// Puts rows in order, by score descending, then shard, then document.
fn sort_rows(rows: &mut Vec<RankedRow>) -> Result<(), OutOfMemory>
    ensures same { IsPermutation rows.old.items rows.new.items }
    ensures ordered { OnOk result (IsSorted ranked_cmp rows.new.items) }
{
    rows.sort_by_key(|row| (Reverse(row.score), row.shard, row.doc))?;
    Ok(())
}

// The rows of the shards before this one, then its own.
fn joined(
    alloc: Global,
    before: &[RankedRow],
    shard: u32,
    found: &[Row],
) -> Result<Vec<RankedRow>, OutOfMemory>
    ensures { IfOk result (λ rows. rows.items ≡ before.now ++ in_shard shard found.now) }
{
    let mut rows = Vec::from_slice(alloc, before)?;
    for row in found {
        rows.push(RankedRow {
            shard,
            doc: row.doc,
            score: row.lower,
        })?;
    }
    Ok(rows)
}

/// The first `count` rows of the shards before this one and of its own.
pub(crate) fn first_rows(
    alloc: Global,
    before: &[RankedRow],
    shard: u32,
    found: &[Row],
    count: u32,
) -> Result<Vec<RankedRow>, OutOfMemory>
    ensures { IfOk result (λ rows. AreFirst count (before.now ++ in_shard shard found.now) rows.items) }
{
    let mut rows = joined(alloc, before, shard, found)?;
    sort_rows(&mut rows)?;
    rows.truncate(count as usize);
    Ok(rows)
}
