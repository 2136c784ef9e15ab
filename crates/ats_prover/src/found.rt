//! Where the terms of a query are in an index.

ghost use Rattle.std.specs.Prelude.{◌≡◌, IfOk, IfErr, length, map};
ghost use Rattle.ats_bound.specs.Schedule.{whole_lanes};
ghost use Rattle.ats_honest.specs.Lanes.{lanes_of};
ghost use Rattle.ats_prover.specs.Inner.Found.{AreFound};
ghost use Rattle.ats_prover.specs.declared.fault.ProveFault.TheVariants.{OutOfMemory as MemoryWanted};

use crate::dictionary::spots;
use crate::fault::{OutOfMemory, ProveFault};
use crate::lanes::{QueryLists, list_counts, query_lists};
use crate::present_terms::PresentTerms;
use ats_bound::Cut;
use ats_dict::Spot;
use ats_hash::HashKind;
use ats_index::Index;
use ats_terms::Query;
use std::alloc::Global;

/// The place of each term of a query in the dictionary, the terms that have a list, and these lists.
#[derive(Drop)]
pub(crate) struct QueryTerms<'a> {
    pub(crate) spots: Vec<Spot>,
    pub(crate) present: PresentTerms<'a>,
    pub(crate) lists: QueryLists<'a>,
}

/// What the index has of the terms of a query.
pub(crate) fn query_terms<'a, H: HashKind>(
    alloc: Global,
    index: &'a Index<H>,
    query: &'a Query,
) -> Result<QueryTerms<'a>, OutOfMemory>
    ensures { IfOk result (λ made. AreFound H.hash index.now query.now made.spots.items made.present
        (whole_lanes made.lists.lanes.items) (map (λ n. n.now) made.lists.digests.items)) }
{
    let spots = spots(alloc, index.dictionary(), query)?;
    let present = PresentTerms::of(alloc, query, &spots)?;
    let lists = query_lists(alloc, index, query, &spots)?;
    Ok(QueryTerms {
        spots,
        present,
        lists,
    })
}

/// How many entries the list of each term of a query has that some text has, in the query's order. These counts are the
/// cut that shows each list whole.
pub fn entry_counts<H: HashKind>(
    alloc: Global,
    index: &Index<H>,
    query: &Query,
) -> Result<Cut, ProveFault>
    ensures counts { IfOk result (λ counts. counts
        ≡ map (λ lane. length lane.entries) (lanes_of index.now.texts query.now)) }
    ensures err { IfErr result (λ fault. fault ≡ MemoryWanted) }
{
    let terms = query_terms(alloc, index, query)?;
    let counts = list_counts(alloc, &terms.lists.lanes)?;
    Ok(counts)
}
