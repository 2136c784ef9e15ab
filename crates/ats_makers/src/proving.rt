//! `prove`: the honest proof of a query's best documents.

ghost use Rattle.std.specs.Prelude.{◌≡◌, IfOk, IfErr};
ghost use Rattle.ats_plan.specs.Plan.{ComesToShelf};
ghost use Rattle.ats_plan.specs.Runs.{IsDone, IsStopped};
ghost use Rattle.ats_console.specs.Making.{IsMade};
ghost use Rattle.ats_console.specs.Inner.Making.{MakingStop};
ghost use Rattle.ats_makers.specs.Commands.{prove_plan};
ghost use Rattle.ats_console.specs.declared.stops.Stop.TheVariants.{Shelf as AtShelf, Memory};

use crate::storing::store_sized;
use ats_base::{Bytes, Shelf};
use ats_console::{Stop, proof_too_long, read};
use ats_grammar::MAX_PROOF;
use ats_hash::Hash32;
use ats_impact::Top;
use ats_index::Index;
use ats_prover::{Algorithm, ProveFault, prove_within};
use ats_terms::Query;
use std::alloc::Global;
use std::thread::Threads;

// The honest proof of a query over an index, which is dropped.
fn prove_to_bytes<H: Hash32>(
    alloc: Global,
    index: Index<H>,
    query: &Query,
    top: Top,
    algorithm: Algorithm,
) -> Result<Bytes, Stop>
    ensures proof { IfOk result (IsMade H.hash index query.now top algorithm) }
    ensures stop { IfErr result (MakingStop H.hash index query.now top algorithm) }
{
    let made = prove_within(alloc, &index, query, top, algorithm, MAX_PROOF);
    drop(index);
    match made {
        Ok(bytes) => Ok(bytes),
        Err(ProveFault::ProofTooLong { length }) => Err(proof_too_long(length)),
        Err(ProveFault::OutOfMemory) => Err(Stop::Memory),
    }
}

/// Stores the honest proof, and returns the line of its length, which is made first. The words are checked before
/// anything is read.
pub(crate) fn prove<H: Hash32 + Sync, R: Threads + Sync, S: Shelf>(
    rt: &R,
    alloc: Global,
    index: &str,
    algorithm: Algorithm,
    r: u32,
    query: &str,
    proof: &str,
    shelf: &mut S,
) -> Result<Vec<u8>, Stop>
    ensures ok { IfOk result (λ text. IsDone (prove_plan H.hash
        (record { index = index.now; algorithm = algorithm; r = r; query = query.now; proof = proof.now }))
        (S.told shelf.old) (S.told shelf.new) text.items) }
    ensures stop { IfErr result (IsStopped AtShelf Memory (prove_plan H.hash
        (record { index = index.now; algorithm = algorithm; r = r; query = query.now; proof = proof.now }))
        (S.told shelf.old) (S.told shelf.new)) }
    ensures unread { (ComesToShelf (prove_plan H.hash
        (record { index = index.now; algorithm = algorithm; r = r; query = query.now; proof = proof.now })) → ⊥)
        → shelf.new ≡ shelf.old }
{
    let rows = Top::new(r)?;
    let asked = Query::read(alloc, query)?;
    let loaded = read::index::<H, R, S>(rt, alloc, index, shelf)?;
    let bytes = prove_to_bytes::<H>(alloc, loaded, &asked, rows, algorithm)?;
    store_sized(alloc, "proof", proof, bytes, shelf)
}
