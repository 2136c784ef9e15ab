//! The check of the text of an answered document, for whoever holds the root of an archive: an inclusion proof.
//!
//! A proof of an answer names documents but has no texts. A file that gives a text has the archive's format and header,
//! the text of one document, and the digests that bind it to the root of the texts tree (RFC 6962, section 2.1.1, calls
//! them an audit path). [`TextView::read`] reads the bytes of such a file in place. [`check_text`] checks it against the
//! root: the header, the document's number, the number of digests, and the root of the texts that text and digests
//! rebuild. Neither allocates. `ats_text_proof` gives texts and audits them.
//!
//! The room stands on `ats_grammar` and `ats_proof` for fields, header and digests, and on `ats_tree` and `ats_commit` for
//! the texts tree and the root; it knows no index. Bytes are read exactly if they spell a text (`specs/Grammar.antt`), and
//! a text is accepted exactly if all rules hold (`specs/Accepts.antt`), else refused by the first that does not. For every
//! archive with the root, an accepted text is the archive's own, or the strings of the check and those of the archive
//! contain two different ones with equal digests (`specs/Strings.antt`). The bytes, the rules and their order may not
//! change.
//!
//! ```
//! use ats_hash::{Sha, Steps};
//!
//! // root: that of "red fox", "red red hen" and "blue hen"; bytes: the 190 that give the text of document 1
//! let proof = TextView::read(bytes)?;
//! check_text::<Sha>(&root, 1, &proof, &mut Steps::new(alloc))?;
//! let text = proof.text(); // b"red red hen"
//! ```
#![tactic(auto)]

mod checking;
mod cursor;
mod laws;
mod view;

pub use ats_refusal::TextRefusal;
pub use checking::check_text;
pub use cursor::TextCursor;
pub use laws::{
    accepted_texts_are_own, bytes_say_one_text, texts_have_one_refusal, texts_in_range_are_spelled,
};
pub use view::TextView;
