//! The check of bytes as a proof, up to the rows of the answer.

ghost use Rattle.std.specs.Prelude.{◌≡◌, ℕ, List, OnOk, IfOk, IfErr};
ghost use Rattle.ats_client.specs.Accepts.{Accepts};
ghost use Rattle.ats_client.specs.Headline.{IsTopOrCollides};
ghost use Rattle.ats_client.specs.Rows.{IsLeftByCheck, rows_of};
ghost use Rattle.ats_client.specs.Bytes.{AreVerifiedRows, IsVerifyFault, IsProofFault};

use crate::answer::row;
use crate::checking::check;
use crate::fault::VerifyFault;
use crate::memory::OutOfMemory;
use ats_bound::Work;
use ats_hash::{Hash32, Steps};
use ats_impact::{Rows, Top};
use ats_proof::ProofView;
use ats_terms::Query;
use std::alloc::Global;

// The rows of an answer, from what an accepted check leaves.
fn answer_rows(
    alloc: Global,
    proof: &ProofView<'_>,
    work: &Work,
    threshold: u64,
) -> Result<Rows, OutOfMemory>
    requires left { (query : List (List ℕ × ℕ)) × IsLeftByCheck query proof.now work.now.marks threshold }
    ensures rows { (query : List (List ℕ × ℕ)) → IsLeftByCheck query proof.now work.now.marks threshold
        → IfOk result (λ rows. rows ≡ rows_of query proof.now) }
{
    let mut steps = Steps::new(alloc);
    let mut rows = Rows::new(alloc);
    for i in 0..proof.answers() {
        rows.push(row(proof, work, threshold, i, &mut steps))?;
    }
    Ok(rows)
}

/// The rows of the answer of a proof that is read already, or the first rule that it breaks. The memory for the marks
/// is allocated before the check.
pub fn check_rows<H: Hash32>(
    alloc: Global,
    root: &[u8; 32],
    query: &Query,
    top: Top,
    proof: &ProofView<'_>,
) -> Result<Rows, VerifyFault>
    ensures accepts { OnOk result (Accepts H.hash root.now query.now top proof.now) }
    ensures headline { OnOk result (IsTopOrCollides H.hash root.now query.now top proof.now) }
    ensures rows { IfOk result (λ rows. rows ≡ rows_of query.now proof.now) }
    ensures fault { IfErr result (IsProofFault H.hash root.now query.now top proof.now) }
{
    let mut steps = Steps::new(alloc);
    let mut work = Work::with_room(alloc, proof.met())?;
    let threshold = check::<H>(root, query, top, proof, &mut work, &mut steps)?;
    let rows = answer_rows(alloc, proof, &work, threshold)?;
    Ok(rows)
}

/// Checks whether bytes are a proof that their answer is right: the best `top` documents for the query in the archive
/// that the root commits to. Returns the rows of the answer, or the first thing that is wrong with the bytes.
pub fn verify<H: Hash32>(
    alloc: Global,
    bytes: &[u8],
    root: &[u8; 32],
    query: &Query,
    top: Top,
) -> Result<Rows, VerifyFault>
    ensures rows { IfOk result (AreVerifiedRows H.hash root.now query.now top bytes.now) }
    ensures fault { IfErr result (IsVerifyFault H.hash root.now query.now top bytes.now) }
{
    let proof = ProofView::read(bytes)?;
    check_rows::<H>(alloc, root, query, top, &proof)
}
