//! The check of all documents that have every term of a query, with none left out: a query with AND.
//!
//! A TRA proof that shows the list of one term whole meets every document with that term, and shows of each which of the
//! other terms it has. So it shows all documents that have every term. If a term is absent from the archive, there is no
//! such document. [`check_both`] checks such a proof, which has no answer rows, against a root, and [`both_documents`]
//! returns the documents of an accepted one. `ats_all_proof` makes such proofs and audits them.
//!
//! The room stands on `ats_client` for the rules of what a proof shows, on `ats_proof` for the views of a proof and on
//! `ats_bound` for the marks of a check; it knows no index. A proof is accepted exactly if all rules of `specs/Rules.antt`
//! hold, else refused by the first that fails. Then, for each archive with the root, the documents are all that have every
//! term (`specs/Documents.antt`), or proof and archive contain two different strings with equal digests
//! (`specs/Headline.antt`). In which passes slots are read may change freely; the rules and their order may not.
//!
//! ```
//! use ats_bound::Work;
//! use ats_hash::{Sha, Steps};
//! use ats_proof::ProofView;
//! use ats_terms::Query;
//!
//! // root: that of "red fox", "red red hen" and "blue hen"; bytes: 645, with the whole list of "hen"
//! let query = Query::read(alloc, "red hen")?;
//! let proof = ProofView::read(bytes)?;
//! let mut work = Work::with_room(alloc, proof.met())?;
//! check_both::<Sha>(&root, &query, &proof, &mut work, &mut Steps::new(alloc))?;
//! let documents = both_documents(alloc, &proof)?; // document 1 alone
//! ```
#![tactic(auto)]

mod checking;
mod documents;
mod laws;
mod slots;

pub use ats_bound::OutOfMemory;
pub use ats_refusal::BothRefusal;
pub use checking::check_both;
pub use documents::both_documents;
pub use laws::{both_has_all_documents, bytes_are_refused_once};
