//! The proof that a server returns with its answer to a query.
//!
//! A proof shows where the query's terms are in the dictionary, the fronts of their lists up to the cut at which the
//! walk ends, and the chosen answer. It has the digests that bind all of this to the root. A TRA proof also shows
//! where the terms are in each met document. A shard of a catalog proves what it is asked for, by TRA a share and by
//! TNRA rows within spans, at the first cut that shows it. A caller can also give the cut; such a proof has no answer.
//! Nothing is hashed here: the hash function is a type without a call, and the index lends the digests of all nodes of
//! its trees.
//!
//! The room stands on `ats_honest`, which defines honest proofs, on `ats_index` for the archive, on `ats_tnra` and
//! `ats_tra` for the walks, and on `ats_proof` for the bytes. The bytes spell the one honest proof, or the one proof of
//! the cut. Unless memory runs out, a proof is refused exactly if it is longer than the limit. An honest TNRA proof
//! never has more than 2^26 bytes. That the check accepts honest proofs, and what a proof of a cut shows, is the law of
//! `ats_accepts`. The order in which the parts are made may change freely; the bytes may not.
//!
//! ```
//! use ats_impact::Top;
//! use ats_terms::Query;
//!
//! // index: that of "red fox", "red red hen" and "blue hen"
//! let query = Query::read(alloc, "red hen")?;
//! let top = Top::new(1)?;
//! let by_lists = prove(alloc, &index, &query, top, Algorithm::Tnra)?; // 365 bytes
//! let looked_up = prove(alloc, &index, &query, top, Algorithm::Tra)?; // 751 bytes
//! ```
#![tactic(auto)]

mod access;
mod answer;
mod dictionary;
mod documents;
mod fault;
mod found;
mod lanes;
mod met;
mod prefixes;
mod present_terms;
mod proving;
mod shown;
mod terms_section;
mod walking;

pub use ats_proof::Algorithm;
pub use fault::ProveFault;
pub use found::entry_counts;
pub use proving::{prove, prove_cut_within, prove_share_within, prove_spans_within, prove_within};
