//! The lists of the query's terms, with their kept digests.

ghost use Rattle.std.specs.Prelude.{◌≡◌, ◌≤◌, ◌<◌, ◌*◌, ℕ, length, map, IfOk, OnOk};
ghost use Rattle.std.specs.List.{All};
ghost use Rattle.ats_impact.specs.Numbers.{idf};
ghost use Rattle.ats_postings.specs.Lists.{IsList};
ghost use Rattle.ats_bound.specs.Schedule.{AreWholeLanes, whole_lanes};
ghost use Rattle.ats_commit.specs.Trees.{dictionary_of};
ghost use Rattle.ats_honest.specs.Terms.{AreSpots};
ghost use Rattle.ats_honest.specs.Lanes.{lanes_of};
ghost use Rattle.ats_prover.specs.Inner.Nodes.{list_digests};

use crate::fault::OutOfMemory;
use ats_bound::{Cut, Lane};
use ats_dict::Spot;
use ats_hash::HashKind;
use ats_impact::idf;
use ats_index::Index;
use ats_lists::ListDigests;
use ats_postings::Entry;
use ats_terms::Query;
use std::alloc::Global;

/// The lists of a query's terms, in the query's order: their lanes, and for each the digests of the list.
#[derive(Drop)]
pub(crate) struct QueryLists<'a> {
    pub(crate) lanes: Vec<Lane<'a>>,
    pub(crate) digests: Vec<&'a ListDigests>,
}

// The lane of a term that occurs `weight` times in the query.
fn lane<'a>(entries: &'a [Entry], weight: u8, documents: u32) -> Lane<'a>
    requires { IsList 65536 entries.now }
    ensures coefficient { result.coefficient ≡ weight * idf documents (length entries.now) }
    ensures entries { result.entries.now ≡ entries.now }
{
    Lane {
        coefficient: u32::from(weight) * idf(documents, entries.len() as u32),
        entries,
    }
}

/// The lists of the query's terms that have one.
pub(crate) fn query_lists<'a, H: HashKind>(
    alloc: Global,
    index: &'a Index<H>,
    query: &Query,
    spots: &[Spot],
) -> Result<QueryLists<'a>, OutOfMemory>
    requires { AreSpots (dictionary_of H.hash index.now) query.now spots.now }
    ensures lanes { IfOk result (λ made. whole_lanes made.lanes.items ≡ lanes_of index.now.texts query.now) }
    ensures digests { IfOk result (λ made. map (λ n. n.now) made.digests.items
        ≡ list_digests H.hash index.now.format (whole_lanes made.lanes.items)) }
    ensures whole { OnOk result (AreWholeLanes (lanes_of index.now.texts query.now)) }
    ensures lists { OnOk result (All (λ lane. IsList 65536 lane.entries) (lanes_of index.now.texts query.now)) }
{
    let documents = index.collection().documents();
    let lists = index.lists();
    let mut lanes = Vec::new(alloc);
    let mut digests = Vec::new(alloc);
    for i in 0..query.len() {
        match spots[i] {
            Spot::At(p) => {
                lanes.push(lane(lists.list(p - 1), query.weight(i), documents))?;
                digests.push(index.list_digests(p - 1))?;
            }
            Spot::Between(_) => {}
        }
    }
    Ok(QueryLists { lanes, digests })
}

/// How many entries each list has.
pub(crate) fn list_counts(alloc: Global, lanes: &[Lane<'_>]) -> Result<Cut, OutOfMemory>
    requires { AreWholeLanes (whole_lanes lanes.now) }
    ensures { IfOk result (λ counts. counts ≡ map (λ lane. length lane.entries) (whole_lanes lanes.now)) }
{
    let mut counts = Cut::new(alloc);
    for lane in lanes {
        counts.push(lane.entries.len() as u32)?;
    }
    Ok(counts)
}
