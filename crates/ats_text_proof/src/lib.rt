//! The text of an answered document: given by whoever has the archive's index, and audited.
//!
//! [`give_text`] makes the bytes that give the text of one document: the archive's format and header, the text, and the
//! digests that bind it to the root of the texts tree. A reader checks them by [`check_text`], which stands in
//! `ats_text_check`, with the reader of the bytes and the rules. [`audit_text`] is for whoever has the archive's index: it
//! checks the bytes under the index's root and finds the first string that differs from the archive's own and has its
//! digest.
//!
//! The room stands on `ats_text_check` for the check, on `ats_tree` and `ats_commit` for the texts tree and its digests, and
//! on `ats_index` for the archive's own texts. What an archive gives is accepted and found right. For every archive with
//! the root, an accepted text is the archive's own, or the audit returns two different strings with equal digests
//! (`specs/Verdicts.antt`). Which strings an audit returns may not change.
//!
//! ```
//! use ats_hash::{Sha, Steps};
//!
//! // index: that of "red fox", "red red hen" and "blue hen"; root: its root
//! let bytes = give_text::<Sha>(alloc, &index, 1)?; // 190 bytes
//! let proof = TextView::read(bytes.as_slice())?;
//! check_text::<Sha>(&root, 1, &proof, &mut Steps::new(alloc))?;
//! let text = proof.text(); // b"red red hen"
//! let verdict = audit_text::<Sha>(alloc, &index, 1, bytes.as_slice())?; // TextVerdict::Right
//! ```
#![tactic(auto)]

mod auditing;
mod giving;
mod laws;
mod memory;
mod own_texts;
mod verdict;

pub use ats_text_check::{
    TextRefusal, TextView, accepted_texts_are_own, bytes_say_one_text, check_text,
    texts_have_one_refusal, texts_in_range_are_spelled,
};
pub use auditing::audit_text;
pub use giving::give_text;
pub use laws::{accepted_texts_are_audited, given_texts_are_accepted};
pub use memory::OutOfMemory;
pub use verdict::{TextClash, TextVerdict};
