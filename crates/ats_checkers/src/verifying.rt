//! `verify`: the check of a proof, and the lines of its answer.

ghost use Rattle.std.specs.Prelude.{◌≡◌, List, IfOk, IfErr};
ghost use Rattle.ats_terms.specs.Query.{IsQuery};
ghost use Rattle.ats_impact.specs.declared.rank.Row.{Row};
ghost use Rattle.ats_client.specs.Bytes.{AreVerifiedRows};
ghost use Rattle.ats_plan.specs.Plan.{ComesToShelf};
ghost use Rattle.ats_plan.specs.Runs.{IsDone, IsStopped};
ghost use Rattle.ats_console.specs.Print.{lines};
ghost use Rattle.ats_console.specs.Kinds.{CheckStop, proof_kind};
ghost use Rattle.ats_checkers.specs.Commands.{verify_plan};
ghost use Rattle.ats_console.specs.declared.stops.Stop.TheVariants.{Shelf as AtShelf, Memory};

use ats_base::Shelf;
use ats_client::VerifyFault;
use ats_console::{Stop, lines, read, rejected};
use ats_hash::Hash32;
use ats_impact::Top;
use ats_terms::Query;
use std::alloc::Global;

/// The lines of the rows of bytes that are accepted as a proof.
pub fn verify_to_lines<H: Hash32>(
    alloc: Global,
    bytes: &[u8],
    root: &[u8; 32],
    query: &Query,
    top: Top,
) -> Result<Vec<u8>, Stop>
    ensures ok { IfOk result (λ text. (rows : List Row)
        × AreVerifiedRows H.hash root.now query.now top bytes.now rows × (text.items ≡ lines rows)) }
    ensures stop { IfErr result (CheckStop (proof_kind H.hash root.now query.now top) bytes.now) }
    ensures asked { IsQuery query.now }
{
    // A query has terms within the limits.
    let _facts = query.len();
    match ats_client::verify::<H>(alloc, bytes, root, query, top) {
        Ok(rows) => match lines(alloc, &rows) {
            Ok(text) => Ok(text),
            Err(_) => Err(Stop::Memory),
        },
        Err(VerifyFault::Rejected(rejection)) => Err(rejected(rejection)),
        Err(VerifyFault::OutOfMemory) => Err(Stop::Memory),
    }
}

/// The lines of `verify`. The words are checked before anything is read.
pub(crate) fn verify<H: Hash32, S: Shelf>(
    alloc: Global,
    root: &[u8; 32],
    r: u32,
    query: &str,
    proof: &str,
    shelf: &mut S,
) -> Result<Vec<u8>, Stop>
    ensures ok { IfOk result (λ text. IsDone
        (verify_plan H.hash (record { root = root.now; r = r; query = query.now; proof = proof.now }))
        (S.told shelf.old) (S.told shelf.new) text.items) }
    ensures stop { IfErr result (IsStopped AtShelf Memory
        (verify_plan H.hash (record { root = root.now; r = r; query = query.now; proof = proof.now }))
        (S.told shelf.old) (S.told shelf.new)) }
    ensures unread { (ComesToShelf
        (verify_plan H.hash (record { root = root.now; r = r; query = query.now; proof = proof.now })) → ⊥)
        → shelf.new ≡ shelf.old }
{
    let rows = Top::new(r)?;
    let asked = Query::read(alloc, query)?;
    let bytes = read::proof(alloc, proof, shelf)?;
    verify_to_lines::<H>(alloc, bytes.as_slice(), root, &asked, rows)
}
