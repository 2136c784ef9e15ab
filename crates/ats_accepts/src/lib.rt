//! The check accepts what an honest server proves.
//!
//! `ats_honest` defines which proof of a query is honest, `ats_client` checks proofs, and neither stands on the other.
//!
//! This room stands on both, and has no code but laws. No rule of the check refuses an honest proof, by either
//! algorithm, under the root of its archive. And the strings that are hashed from such a proof are the archive's own.
//! So a proof that is refused, or in which a clash is found, is not the honest one for this root and this query. Two
//! laws say as much of what a proof shows at any cut of the lists, whatever its answer: it keeps the rules before those
//! of the rows, and its strings are the archive's own. The prover, which makes such proofs, is beside this room. How
//! the laws are proved may change freely.
#![tactic(auto)]

mod laws;

pub use laws::{
    honest_proofs_are_accepted, honest_proofs_have_no_clash, shown_sections_have_no_clash,
    shown_sections_hold,
};
