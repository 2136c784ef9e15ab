//! The audit of a catalog's answer, by whoever holds the archives themselves, with one index at a time.
//!
//! A reader who holds only the root of a catalog knows that either an accepted answer is right, or its proof and the archives
//! contain two different strings with equal digests. Whoever has the indexes of the archives can find out which. A
//! [`CatalogAudit`] begins with the bytes of the proof, takes one index after another in the order of the shards, and keeps
//! of each only its root and the first collision, so each index may be dropped before the next one is read. Its end is the
//! verdict.
//!
//! The room stands on `ats_catalog_check` for the check, on `ats_client` and `ats_catalog_bytes` for the strings, and on `ats_index` for the
//! archives' own. A verdict is exactly what its definition says (`specs/Verdicts.antt`). Rows are called right only if they
//! are, and for an accepted wrong answer the audit returns two different strings with the same digest. How the parts are put
//! together may change freely.
//!
//! ```
//! use ats_impact::Top;
//! use ats_terms::Query;
//!
//! // first, second: the indexes of a catalog of two shards; bytes: a proof that came with an answer
//! let query = Query::read(alloc, "red hen")?;
//! let mut audit = CatalogAudit::begin(alloc, bytes, &query, Top::new(2)?)?;
//! audit.take(alloc, &first)?;
//! audit.take(alloc, &second)?;
//! let is_right = matches!(audit.end(alloc)?, CatalogVerdict::Right(_)); // true of every honest proof
//! ```
#![tactic(auto)]

mod auditing;
mod fault;
mod laws;
mod memory;
mod roots;
mod shown;
mod verdict;

pub use auditing::CatalogAudit;
pub use fault::AuditFault;
pub use laws::accepted_catalogs_are_audited;
pub use memory::OutOfMemory;
pub use verdict::{CatalogClash, CatalogVerdict, StringPlace};
