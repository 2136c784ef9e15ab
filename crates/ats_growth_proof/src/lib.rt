//! The growth of an archive: what shows that nothing was withdrawn between two roots, made and audited.
//!
//! [`grow`] makes the bytes of a *growth* from two indexes: the headers of both archives, and the digests of the consistency
//! proof of RFC 6962, section 2.1.2, over their texts. A reader checks them by [`check_growth`], which stands in
//! `ats_growth_check`, with the reader of the bytes and the rules. [`audit_growth`] is for whoever has both indexes: it
//! checks the bytes under their roots and finds the first two strings at one place that differ and have one digest.
//!
//! The room stands on `ats_growth_check` for the check and for the turns along which all is found, on `ats_tree` and
//! `ats_commit` for trees and headers, and on `ats_index` for the texts. What `grow` makes is accepted and found right. For
//! all archives with the two roots of an accepted growth, the old texts are the first of the new ones and the numbers are
//! right, or the audit returns two different strings with equal digests (`specs/Verdicts.antt`). How archives are compared
//! may change freely; which strings an audit returns may not.
//!
//! ```
//! use ats_hash::{Sha, Steps};
//!
//! // old: the index of "red fox", "red red hen" and "blue hen"; new: that of the same texts and "fox hen"
//! let bytes = grow::<Sha>(alloc, &old, &new)?; // 313 bytes, with 3 digests
//! let growth = GrowthView::read(bytes.as_slice())?;
//! let grown = check_growth::<Sha>(&old.root(), &new.root(), &growth, &mut Steps::new(alloc))?; // 3 and 4 documents
//! ```
#![tactic(auto)]

pub use ats_growth_check::{
    Grown, GrowthRefusal, GrowthView, accepted_growths_are_right, bytes_say_one_growth,
    check_growth, digests_give_roots, growth_needs_digests, growths_are_refused_once,
    growths_in_range_are_spelled, ranges_are_old_documents,
};
pub use auditing::audit_growth;
pub use growing::{GrowFault, grow};
pub use laws::{
    accepted_growths_are_audited, honest_digests_are_subproofs, honest_growths_are_accepted,
};
pub use memory::OutOfMemory;
pub use verdict::GrowthVerdict;

mod auditing;
mod comparing;
mod growing;
mod joining;
mod laws;
mod memory;
mod ranges;
mod verdict;
