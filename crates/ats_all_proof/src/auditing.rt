//! The audit of bytes.

ghost use Rattle.std.specs.Prelude.{IfOk};
ghost use Rattle.ats_all_proof.specs.Verdicts.{IsBothVerdict};

use crate::verdict::BothVerdict;
use ats_all_check::{OutOfMemory, both_documents, check_both};
use ats_bound::Work;
use ats_client::first_clash;
use ats_hash::{Hash32, Steps};
use ats_index::Index;
use ats_proof::ProofView;
use ats_terms::Query;
use std::alloc::Global;

/// Checks the bytes of a proof under the root of an index. If the proof is accepted, searches it for a string that
/// differs from the archive's own and has the same digest.
pub fn audit_both<H: Hash32>(
    alloc: Global,
    index: &Index<H>,
    query: &Query,
    bytes: &[u8],
) -> Result<BothVerdict, OutOfMemory>
    ensures { IfOk result (IsBothVerdict H.hash index.now query.now bytes.now) }
{
    // An index has texts within the limits.
    let _facts = index.collection();
    let proof = match ProofView::read(bytes) {
        Ok(proof) => proof,
        Err(fault) => return Ok(BothVerdict::BadShape(fault)),
    };
    let root = index.root();
    let mut steps = Steps::new(alloc);
    let mut work = Work::with_room(alloc, proof.met())?;
    match check_both::<H>(&root, query, &proof, &mut work, &mut steps) {
        Ok(()) => {}
        Err(refusal) => return Ok(BothVerdict::Refused(refusal)),
    }
    match first_clash::<H, _>(alloc, index, query, &proof) {
        Ok(Some(clash)) => Ok(BothVerdict::Collision(clash)),
        Ok(None) => Ok(BothVerdict::Right(both_documents(alloc, &proof)?)),
        Err(_) => Err(OutOfMemory),
    }
}
