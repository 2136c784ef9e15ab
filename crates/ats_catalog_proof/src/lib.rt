//! The honest file of a catalog, made in two passes over its indexes, with one index at a time.
//!
//! A shard's proof depends on the whole catalog: it shows the shard's rows of the one ranking of all documents, and
//! that nothing else of the shard scores above the last row. So the first pass finds that ranking: a
//! [`CatalogRanking`] takes one index after another, and keeps of each only its root, and of all the best rows. The
//! second pass makes the proofs, all by one algorithm: a [`CatalogProver`] takes the same indexes in the same order,
//! and appends the proof of each to the file. No index need be held longer than the call that takes it.
//!
//! By TRA, which shows scores, a shard is asked for its number of rows, and the score of the last row of all. By TNRA,
//! which shows brackets, the bracket of each row must lie between two edges, each in the middle of two scores. So the
//! ranking keeps one row more than the answer has.
//!
//! The room stands on `ats_impact` for the plain ranking of one shard, on `ats_prover` for the proof of one shard, and
//! on `ats_catalog_honest`, which says what a catalog's honest file is. The bytes are those of the one honest file, or
//! it is said how many there would be, or which shard's proof is too long, or which index is not that of the first
//! pass. How the rows of shards are put together may change freely; the bytes may not.
//!
//! ```
//! use ats_impact::Top;
//! use ats_proof::Algorithm;
//! use ats_terms::Query;
//!
//! // first, second: the indexes of a catalog of two shards
//! let query = Query::read(alloc, "red hen")?;
//! let mut ranking = CatalogRanking::begin(alloc, &query, Top::new(2)?);
//! ranking.take(alloc, &first)?;
//! ranking.take(alloc, &second)?;
//! let mut prover = CatalogProver::begin(alloc, ranking, Algorithm::Tnra)?;
//! prover.take(alloc, &first)?;
//! prover.take(alloc, &second)?;
//! let bytes = prover.end()?;
//! ```
#![tactic(auto)]

mod edges;
mod fault;
mod memory;
mod proving;
mod ranking;
mod row;
mod writer;

pub use fault::{CatalogProveFault, CatalogTooLong};
pub use memory::OutOfMemory;
pub use proving::CatalogProver;
pub use ranking::CatalogRanking;
pub use row::RankedRow;
