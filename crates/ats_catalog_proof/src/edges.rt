//! The edges between the rows of a ranking, and the spans of a shard's rows.
//!
//! The rows are those that a ranking keeps: one more than the answer has, if there are so many.

ghost use Rattle.std.specs.Prelude.{◌≡◌, ◌≤◌, length, IfOk};
ghost use Rattle.ats_catalog_honest.specs.Ranking.{edge, ranked_at, shares_of};
ghost use Rattle.ats_catalog_honest.specs.Shares.{floors_of};

use crate::memory::OutOfMemory;
use crate::row::RankedRow;
use ats_bound::Span;
use ats_impact::Top;
use ats_proof::Algorithm;
use std::alloc::Global;

// The score of the row at a place; past the last it is 0.
fn score_at(rows: &[RankedRow], place: usize) -> u64
    ensures { result ≡ (ranked_at rows.now place).score }
{
    match rows.get(place) {
        Some(row) => row.score(),
        None => 0,
    }
}

/// The edge above the row at a place, counted from 0, which is the one below the row before it.
pub(crate) fn edge(rows: &[RankedRow], top: Top, algorithm: Algorithm, place: usize) -> u64
    ensures { result ≡ edge (λ _. algorithm) top rows.now place }
{
    if place == 0 {
        return if rows.is_empty() { 0 } else { u64::MAX };
    }
    if rows.len() < top.get() as usize && rows.len() <= place {
        return 0;
    }
    let score = score_at(rows, place - 1);
    match algorithm {
        Algorithm::Tra => score,
        Algorithm::Tnra => score.midpoint(score_at(rows, place)),
    }
}

/// The spans of a shard's rows among those of the answer.
pub(crate) fn spans_of(
    alloc: Global,
    rows: &[RankedRow],
    top: Top,
    algorithm: Algorithm,
    shard: u32,
) -> Result<Vec<Span>, OutOfMemory>
    ensures value { IfOk result (λ spans. spans.items
        ≡ (floors_of (shares_of (λ _. algorithm) top rows.now) shard).spans) }
    ensures few { IfOk result (λ spans. length spans.items ≤ 1000) }
{
    let shown = rows.len().min(top.get() as usize);
    let mut spans = Vec::new(alloc);
    for place in 0..shown {
        if rows[place].shard() == shard {
            spans.push(Span {
                lower: edge(rows, top, algorithm, place + 1),
                upper: edge(rows, top, algorithm, place),
            })?;
        }
    }
    Ok(spans)
}
