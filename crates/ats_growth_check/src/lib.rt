//! The check that an archive has only grown between two roots: a consistency proof.
//!
//! A reader who has pinned a root takes a later one only if the texts of the old archive are the first of the new one's. A
//! *growth* shows this: the headers of both archives, and the digests of the consistency proof of RFC 6962, section 2.1.2,
//! over their texts. [`GrowthView::read`] reads the bytes of one in place, and [`check_growth`] checks it under the two
//! roots. Neither allocates. The formats of the two archives may differ. `ats_growth_proof` makes growths and audits them.
//!
//! The room stands on `ats_grammar` and `ats_proof` for fields, headers and digests, and on `ats_tree` and `ats_commit` for
//! the trees of the texts and the roots; it knows no index. `specs/Shape.antt` has the turns that lead to the end of the old
//! texts; all else is a recursion along them. Bytes are read exactly if they spell a growth, and a growth is accepted
//! exactly if all rules hold (`specs/Rules.antt`). Then, for all archives with the two roots, the old texts are the first of
//! the new ones and the numbers are right, or the growth and the two archives contain two different strings with equal
//! digests (`specs/Headline.antt`). What a view keeps may change freely; the bytes, the rules and their order may not.
//!
//! ```
//! use ats_hash::{Sha, Steps};
//!
//! // old: the root of "red fox", "red red hen" and "blue hen"; new: that of the same texts and "fox hen"
//! let growth = GrowthView::read(bytes)?; // 313 bytes, with 3 digests
//! let grown = check_growth::<Sha>(&old, &new, &growth, &mut Steps::new(alloc))?; // 3 and 4 documents
//! ```
#![tactic(auto)]

pub use ats_refusal::GrowthRefusal;
pub use checking::{Grown, check_growth};
pub use laws::{
    accepted_growths_are_right, bytes_say_one_growth, digests_give_roots, growth_needs_digests,
    growths_are_refused_once, growths_in_range_are_spelled, ranges_are_old_documents,
};
pub use pairing::{digests_needed, next_digest};
pub use view::{GrowthView, MAGIC};

mod checking;
mod laws;
mod pairing;
mod view;
