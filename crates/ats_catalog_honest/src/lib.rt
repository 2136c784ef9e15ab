//! The honest file of a catalog, and what the check says of it.
//!
//! A catalog's answer is one ranking over several shards, of which each knows its own part only. So the owner shares
//! the ranking out (`specs/Shares.antt`): each shard is asked for its rows, each within a span between two edges, and
//! for nothing else above the last edge. By TRA, which shows scores, an edge is the score of a row; by TNRA it is the
//! middle between two rows, so that a shard need show no more of its lists than keeps them apart. The honest proof of
//! a shard stops at the first cut at which its share is so, and the honest file has that proof of each shard
//! (`specs/Honest.antt`), by either algorithm.
//!
//! This room stands on `ats_honest`, which says what an honest proof is, and on `ats_catalog_check`; it has no code
//! but laws. Each catalog has one honest file for a query, its check accepts it, and its strings are the catalog's
//! own. How the laws are proved may change freely.
#![tactic(auto)]

mod laws;

pub use laws::{
    honest_catalogs_are_accepted, honest_catalogs_are_one, honest_catalogs_exist,
    honest_catalogs_have_no_clash, honest_shards_show_their_share, honest_shares_are_accepted,
    scores_need_no_edges, shares_are_settled,
};
