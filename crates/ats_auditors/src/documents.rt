//! `audit-both`: the audit of a proof of all documents that have every term of a query.

ghost use Rattle.std.specs.Prelude.{◌≡◌, ℕ, List, IfOk, IfErr};
ghost use Rattle.ats_all_proof.specs.Verdicts.{AreFoundRight};
ghost use Rattle.ats_plan.specs.Plan.{ComesToShelf};
ghost use Rattle.ats_plan.specs.Runs.{IsDone, IsStopped};
ghost use Rattle.ats_console.specs.Print.{lines_of_documents};
ghost use Rattle.ats_console.specs.declared.stops.Stop.TheVariants.{Shelf as AtShelf, Memory};
ghost use Rattle.ats_auditors.specs.Audited.{both_audit};
ghost use Rattle.ats_auditors.specs.Inner.Audited.{AuditStop};
ghost use Rattle.ats_auditors.specs.Commands.{audit_both_plan};

use ats_all_proof::BothVerdict;
use ats_base::Shelf;
use ats_console::{Line, Stop, collision_lines, document_lines, read, refused, rejected};
use ats_hash::Hash32;
use ats_index::Index;
use ats_refusal::{Rejection, both_refusal_words};
use ats_terms::Query;
use std::alloc::Global;
use std::thread::Threads;

// The lines of the documents of bytes that are accepted and have no collision with the archive.
fn audit_both_to_lines<H: Hash32>(
    alloc: Global,
    index: &Index<H>,
    query: &Query,
    bytes: &[u8],
) -> Result<Vec<u8>, Stop>
    ensures ok { IfOk result (λ text. (documents : List ℕ)
        × AreFoundRight H.hash index.now query.now bytes.now documents × (text.items ≡ lines_of_documents documents)) }
    ensures stop { IfErr result (AuditStop H.hash (both_audit H.hash index.now query.now) bytes.now) }
{
    let Ok(verdict) = ats_all_proof::audit_both::<H>(alloc, index, query, bytes) else {
        return Err(Stop::Memory);
    };
    match verdict {
        BothVerdict::Right(documents) => Ok(document_lines(alloc, &documents)?),
        BothVerdict::BadShape(fault) => Err(rejected(Rejection::Shape(fault))),
        BothVerdict::Refused(refusal) => Err(refused(both_refusal_words(refusal))),
        BothVerdict::Collision(clash) => {
            let lines = collision_lines(
                alloc,
                clash.place,
                clash.ours.bytes(),
                clash.theirs.bytes(),
            )?;
            Err(Stop::Collision(Line::made(lines)))
        }
    }
}

/// The lines of `audit-both`. The query is read before anything else, and the index before the proof.
pub(crate) fn audit_both<H: Hash32 + Sync, R: Threads + Sync, S: Shelf>(
    rt: &R,
    alloc: Global,
    index: &str,
    query: &str,
    proof: &str,
    shelf: &mut S,
) -> Result<Vec<u8>, Stop>
    ensures ok { IfOk result (λ text. IsDone
        (audit_both_plan H.hash (record { index = index.now; query = query.now; proof = proof.now }))
        (S.told shelf.old) (S.told shelf.new) text.items) }
    ensures stop { IfErr result (IsStopped AtShelf Memory
        (audit_both_plan H.hash (record { index = index.now; query = query.now; proof = proof.now }))
        (S.told shelf.old) (S.told shelf.new)) }
    ensures unread { (ComesToShelf
        (audit_both_plan H.hash (record { index = index.now; query = query.now; proof = proof.now })) → ⊥)
        → shelf.new ≡ shelf.old }
{
    let asked = Query::read(alloc, query)?;
    let loaded = read::index::<H, R, S>(rt, alloc, index, shelf)?;
    let bytes = match read::proof(alloc, proof, shelf) {
        Ok(bytes) => bytes,
        Err(stop) => {
            drop(loaded);
            return Err(stop);
        }
    };
    let text = audit_both_to_lines::<H>(alloc, &loaded, &asked, bytes.as_slice());
    drop(loaded);
    text
}
