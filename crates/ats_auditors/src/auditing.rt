//! `audit`: the audit of a proof against an index, and the lines of its answer.

ghost use Rattle.std.specs.Prelude.{◌≡◌, List, IfOk, IfErr};
ghost use Rattle.ats_impact.specs.declared.rank.Row.{Row};
ghost use Rattle.ats_audit.specs.Verdicts.{IsFoundRight};
ghost use Rattle.ats_plan.specs.Plan.{ComesToShelf};
ghost use Rattle.ats_plan.specs.Runs.{IsDone, IsStopped};
ghost use Rattle.ats_console.specs.Print.{lines};
ghost use Rattle.ats_auditors.specs.Audited.{proof_audit};
ghost use Rattle.ats_auditors.specs.Inner.Audited.{AuditStop};
ghost use Rattle.ats_auditors.specs.Commands.{audit_plan};
ghost use Rattle.ats_console.specs.declared.stops.Stop.TheVariants.{Shelf as AtShelf, Memory};

use ats_audit::Verdict;
use ats_base::Shelf;
use ats_console::{Line, Stop, collision_lines, lines, read, rejected};
use ats_hash::Hash32;
use ats_impact::Top;
use ats_index::Index;
use ats_refusal::Rejection;
use ats_terms::Query;
use std::alloc::Global;
use std::thread::Threads;

// The lines of the rows of bytes that are accepted as a proof and have no collision with the archive.
fn audit_to_lines<H: Hash32>(
    alloc: Global,
    index: &Index<H>,
    query: &Query,
    top: Top,
    bytes: &[u8],
) -> Result<Vec<u8>, Stop>
    ensures ok { IfOk result (λ text. (rows : List Row)
        × IsFoundRight H.hash index.now query.now top bytes.now rows × (text.items ≡ lines rows)) }
    ensures stop { IfErr result (AuditStop H.hash (proof_audit H.hash index.now query.now top) bytes.now) }
{
    let Ok(verdict) = ats_audit::audit::<H>(alloc, index, query, top, bytes) else {
        return Err(Stop::Memory);
    };
    match verdict {
        Verdict::Right(rows) => Ok(lines(alloc, &rows)?),
        Verdict::BadShape(fault) => Err(rejected(Rejection::Shape(fault))),
        Verdict::Refused(refusal) => Err(rejected(Rejection::Check(refusal))),
        Verdict::Collision {
            place,
            ours,
            theirs,
        } => {
            let lines = collision_lines(alloc, place, ours.bytes(), theirs.bytes())?;
            Err(Stop::Collision(Line::made(lines)))
        }
    }
}

/// The lines of `audit`. The words are checked before anything is read, and the index before the proof.
pub(crate) fn audit<H: Hash32 + Sync, R: Threads + Sync, S: Shelf>(
    rt: &R,
    alloc: Global,
    index: &str,
    r: u32,
    query: &str,
    proof: &str,
    shelf: &mut S,
) -> Result<Vec<u8>, Stop>
    ensures ok { IfOk result (λ text. IsDone
        (audit_plan H.hash (record { index = index.now; r = r; query = query.now; proof = proof.now }))
        (S.told shelf.old) (S.told shelf.new) text.items) }
    ensures stop { IfErr result (IsStopped AtShelf Memory
        (audit_plan H.hash (record { index = index.now; r = r; query = query.now; proof = proof.now }))
        (S.told shelf.old) (S.told shelf.new)) }
    ensures unread { (ComesToShelf
        (audit_plan H.hash (record { index = index.now; r = r; query = query.now; proof = proof.now })) → ⊥)
        → shelf.new ≡ shelf.old }
{
    let rows = Top::new(r)?;
    let asked = Query::read(alloc, query)?;
    let loaded = read::index::<H, R, S>(rt, alloc, index, shelf)?;
    let bytes = match read::proof(alloc, proof, shelf) {
        Ok(bytes) => bytes,
        Err(stop) => {
            drop(loaded);
            return Err(stop);
        }
    };
    let text = audit_to_lines::<H>(alloc, &loaded, &asked, rows, bytes.as_slice());
    drop(loaded);
    text
}
