//! The audit of bytes.

ghost use Rattle.std.specs.Prelude.{ℕ, List, IfOk};
ghost use Rattle.ats_client.specs.Accepts.{Accepts};
ghost use Rattle.ats_audit.specs.Verdicts.{IsVerdict};

use crate::memory::OutOfMemory;
use ats_client::{Clash, Refusal, Rejection, VerifyFault, check_rows, first_clash};
use ats_hash::Hash32;
use ats_impact::{Rows, Top};
use ats_index::Index;
use ats_proof::{ProofView, ShapeFault};
use ats_terms::Query;
use ats_tree::{HashedString, Place};
use std::alloc::Global;

/// What an audit finds.
#[derive(Drop)]
pub enum Verdict {
    /// The bytes spell no proof.
    BadShape(ShapeFault),
    /// The first rule that the proof breaks.
    Refused(Refusal),
    /// The answer is right for the archive: its rows, which are those of the accepted proof.
    Right(Rows),
    /// The proof is accepted, and two different strings have the same digest: the archive's own at a place, and the one
    /// that the proof hashes there. It is the first such place, and the answer may be wrong.
    Collision {
        place: Place,
        ours: HashedString,
        theirs: HashedString,
    },
}

/// Checks the bytes of a proof under the root of an index. If the proof is accepted, searches it for a string that
/// differs from the archive's own and has the same digest.
pub fn audit<H: Hash32>(
    alloc: Global,
    index: &Index<H>,
    query: &Query,
    top: Top,
    bytes: &[u8],
) -> Result<Verdict, OutOfMemory>
    ensures { IfOk result (IsVerdict H.hash index.now query.now top bytes.now) }
{
    // An index has texts within the limits.
    let _facts = index.collection();
    let proof = match ProofView::read(bytes) {
        Ok(proof) => proof,
        Err(fault) => return Ok(Verdict::BadShape(fault)),
    };
    let root = index.root();
    let rows = match check_rows::<H>(alloc, &root, query, top, &proof) {
        Ok(rows) => rows,
        Err(VerifyFault::Rejected(Rejection::Shape(fault))) => return Ok(Verdict::BadShape(fault)),
        Err(VerifyFault::Rejected(Rejection::Check(refusal))) => {
            return Ok(Verdict::Refused(refusal));
        }
        Err(VerifyFault::OutOfMemory) => return Err(OutOfMemory),
    };
    let clash = first_clash::<H, _>(alloc, index, query, &proof)?;
    match clash {
        Some(
            Clash {
                place,
                ours,
                theirs,
            },
        ) => Ok(Verdict::Collision {
            place,
            ours,
            theirs,
        }),
        None => Ok(Verdict::Right(rows)),
    }
}
