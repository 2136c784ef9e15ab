//! What an audit finds.

use ats_all_check::BothRefusal;
use ats_bound::Picks;
use ats_client::Clash;
use ats_proof::ShapeFault;

/// What an audit of a proof against an archive finds.
#[derive(Drop)]
pub enum BothVerdict {
    /// The bytes spell no proof.
    BadShape(ShapeFault),
    /// The first rule that the proof breaks.
    Refused(BothRefusal),
    /// The documents that the proof shows, counted from 0 and ascending. They are all of the archive's that have every
    /// term of the query.
    Right(Picks),
    /// The proof is accepted, and two different strings have the same digest: the archive's own at a place, and the one
    /// that the proof hashes there. It is the first such place, and the documents may be wrong.
    Collision(Clash),
}
