//! What an honest proof of a query is, over an archive.
//!
//! An honest proof shows exactly the dictionary leaves that prove where the query's terms are or that they are absent;
//! the entries of the first cut at which an answer is settled; and the chosen answer. It has the digests that bind all
//! of this to the root. A TRA proof also shows where the terms are in each met document. What a proof shows at any
//! other cut is defined beside it.
//!
//! The room defines this over the archive only, and has no code but laws. It stands on `ats_commit` for the archive's
//! trees, on `ats_bound` for settled answers, and on `ats_proof` for what a proof says. It knows neither the prover,
//! which makes these proofs, nor the check, which accepts them. The laws promise that a query over an archive has
//! exactly one honest proof by each algorithm, and one proof of each cut without an answer. They promise that an honest
//! TNRA proof never has more than 2^26 bytes, and that lists in blocks are shown with few digests. How the laws are
//! proved may change freely.
#![tactic(auto)]

mod laws;

pub use laws::{
    cuts_have_one_proof, fronts_in_blocks_are_short, honest_proofs_are_one,
    honest_proofs_are_short, honest_proofs_exist, impacts_are_shown_by_documents,
};
