//! All documents that have every term of a query: the proof of them, made by whoever has the archive's index, and audited.
//!
//! [`prove_both`] makes a proof from an index. If all terms are present, it shows the first of the shortest lists whole, and
//! one entry of each other list; otherwise one entry of each. A reader checks it by [`check_both`], which stands in
//! `ats_all_check`, with the rules and [`both_documents`]. [`audit_both`] checks bytes under the root of an index and
//! compares them with the archive itself.
//!
//! The room stands on `ats_all_check` for the check, on `ats_client` for the search of a collision, on `ats_index` for the
//! archive's own strings, and on `ats_prover` for the proof of a cut. The made bytes spell the one proof that
//! `specs/Made.antt` defines; unless memory runs out, none are returned exactly if that proof has more than 2^26. For each
//! archive with the root of an accepted proof, the documents are all that have every term, or the audit returns two
//! different strings with equal digests (`specs/Verdicts.antt`). How the shortest list is found may change freely.
//!
//! ```
//! use ats_bound::Work;
//! use ats_hash::{Sha, Steps};
//! use ats_proof::ProofView;
//! use ats_terms::Query;
//!
//! // index: that of "red fox", "red red hen" and "blue hen"
//! let query = Query::read(alloc, "red hen")?;
//! let made = prove_both(alloc, &index, &query)?; // 645 bytes, with the whole list of "hen"
//! let proof = ProofView::read(made.as_slice())?;
//! let mut work = Work::with_room(alloc, proof.met())?;
//! check_both::<Sha>(&index.root(), &query, &proof, &mut work, &mut Steps::new(alloc))?;
//! let documents = both_documents(alloc, &proof)?; // document 1 alone
//! ```
#![tactic(auto)]

mod auditing;
mod laws;
mod making;
mod verdict;

pub use ats_all_check::{
    BothRefusal, OutOfMemory, both_documents, both_has_all_documents, bytes_are_refused_once,
    check_both,
};
pub use auditing::audit_both;
pub use laws::accepted_documents_are_both;
pub use making::{BothFault, prove_both};
pub use verdict::BothVerdict;
