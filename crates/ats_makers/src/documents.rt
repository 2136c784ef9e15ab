//! `prove-both`: the proof of all documents that have every term of a query.

ghost use Rattle.std.specs.Prelude.{◌≡◌, IfOk, IfErr};
ghost use Rattle.ats_plan.specs.Plan.{ComesToShelf};
ghost use Rattle.ats_plan.specs.Runs.{IsDone, IsStopped};
ghost use Rattle.ats_console.specs.declared.stops.Stop.TheVariants.{Shelf as AtShelf, Memory};
ghost use Rattle.ats_makers.specs.Commands.{AreBothBytes, IsBothUnmade, prove_both_plan};
ghost use Rattle.ats_makers.specs.Inner.Stops.{OrMemory};

use crate::storing::store_sized;
use ats_all_proof::BothFault;
use ats_base::{Bytes, Shelf};
use ats_console::{Stop, proof_too_long, read};
use ats_hash::Hash32;
use ats_index::Index;
use ats_terms::Query;
use std::alloc::Global;
use std::thread::Threads;

// The proof over an index, which is dropped.
fn both_to_bytes<H: Hash32>(alloc: Global, index: Index<H>, query: &Query) -> Result<Bytes, Stop>
    ensures proof { IfOk result (AreBothBytes H.hash index query.now) }
    ensures stop { IfErr result (OrMemory (IsBothUnmade H.hash index query.now)) }
{
    let made = ats_all_proof::prove_both::<H>(alloc, &index, query);
    drop(index);
    match made {
        Ok(bytes) => Ok(bytes),
        Err(BothFault::TooLong { length }) => Err(proof_too_long(length)),
        Err(BothFault::OutOfMemory) => Err(Stop::Memory),
    }
}

/// Stores the proof of all documents with every term, and returns the line of its length, which is made first. The query is
/// read before anything else.
pub(crate) fn prove_both<H: Hash32 + Sync, R: Threads + Sync, S: Shelf>(
    rt: &R,
    alloc: Global,
    index: &str,
    query: &str,
    proof: &str,
    shelf: &mut S,
) -> Result<Vec<u8>, Stop>
    ensures ok { IfOk result (λ text. IsDone
        (prove_both_plan H.hash (record { index = index.now; query = query.now; proof = proof.now }))
        (S.told shelf.old) (S.told shelf.new) text.items) }
    ensures stop { IfErr result (IsStopped AtShelf Memory
        (prove_both_plan H.hash (record { index = index.now; query = query.now; proof = proof.now }))
        (S.told shelf.old) (S.told shelf.new)) }
    ensures unread { (ComesToShelf
        (prove_both_plan H.hash (record { index = index.now; query = query.now; proof = proof.now })) → ⊥)
        → shelf.new ≡ shelf.old }
{
    let asked = Query::read(alloc, query)?;
    let loaded = read::index::<H, R, S>(rt, alloc, index, shelf)?;
    let bytes = both_to_bytes::<H>(alloc, loaded, &asked)?;
    store_sized(alloc, "both", proof, bytes, shelf)
}
