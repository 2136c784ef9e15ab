//! `grow`: the bytes that show that nothing was withdrawn.

ghost use Rattle.std.specs.Prelude.{◌≡◌, IfOk, IfErr};
ghost use Rattle.ats_growth_proof.specs.Honest.{honest};
ghost use Rattle.ats_growth_check.specs.Value.{IsGrowth};
ghost use Rattle.ats_plan.specs.Runs.{IsDone, IsStopped};
ghost use Rattle.ats_console.specs.declared.stops.Stop.TheVariants.{Shelf as AtShelf, Memory, Input};
ghost use Rattle.ats_makers.specs.Lines.{line_of_differing};
ghost use Rattle.ats_makers.specs.Commands.{WithdrawsNothing, Withdraws, grow_plan};
ghost use Rattle.ats_makers.specs.Inner.Stops.{OrMemory};

use crate::storing::store_sized;
use ats_base::{Bytes, Shelf};
use ats_console::{Stop, input_stop, read};
use ats_growth_proof::GrowFault;
use ats_hash::Hash32;
use ats_index::Index;
use ats_refusal::Phrase;
use std::alloc::Global;
use std::thread::Threads;

// The stop of an old document that the new archive does not have with the same text.
fn differs(doc: u32) -> Stop
    ensures { result ≡ Input (line_of_differing doc) }
{
    input_stop(Phrase::around("document ", doc as u64, " differs"))
}

// The bytes that show the growth between the archives of two indexes, which are dropped.
fn grow_to_bytes<H: Hash32>(alloc: Global, older: Index<H>, newer: Index<H>) -> Result<Bytes, Stop>
    ensures prefix { IfOk result (λ bytes. WithdrawsNothing older newer) }
    ensures file { IfOk result (λ bytes. IsGrowth bytes (honest H.hash older newer)) }
    ensures stop { IfErr result (OrMemory (Withdraws older newer)) }
{
    let made = ats_growth_proof::grow::<H>(alloc, &older, &newer);
    drop(older);
    drop(newer);
    match made {
        Ok(bytes) => Ok(bytes),
        Err(GrowFault::Differs { doc }) => Err(differs(doc)),
        Err(GrowFault::OutOfMemory) => Err(Stop::Memory),
    }
}

/// Stores the bytes that show that nothing was withdrawn between two archives, and returns the line of their number, which
/// is made first. The old index is read before the new one.
pub(crate) fn grow<H: Hash32 + Sync, R: Threads + Sync, S: Shelf>(
    rt: &R,
    alloc: Global,
    old: &str,
    new: &str,
    file: &str,
    shelf: &mut S,
) -> Result<Vec<u8>, Stop>
    ensures ok { IfOk result (λ text. IsDone
        (grow_plan H.hash (record { old = old.now; new = new.now; file = file.now }))
        (S.told shelf.old) (S.told shelf.new) text.items) }
    ensures stop { IfErr result (IsStopped AtShelf Memory
        (grow_plan H.hash (record { old = old.now; new = new.now; file = file.now }))
        (S.told shelf.old) (S.told shelf.new)) }
{
    let older = read::index::<H, R, S>(rt, alloc, old, shelf)?;
    let newer = match read::index::<H, R, S>(rt, alloc, new, shelf) {
        Ok(newer) => newer,
        Err(stop) => {
            drop(older);
            return Err(stop);
        }
    };
    let bytes = grow_to_bytes::<H>(alloc, older, newer)?;
    store_sized(alloc, "growth", file, bytes, shelf)
}
