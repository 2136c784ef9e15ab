//! The proofs of a sweep, gathered in the order of their lines.

ghost use Rattle.std.specs.Prelude.{◌≡◌, [], IfOk, IfErr};
ghost use Rattle.ats_plan.specs.Runs.{IsDone, IsStopped};
ghost use Rattle.ats_auditors.specs.Gathered.{content};
ghost use Rattle.ats_console.specs.Steps.{no_more, comes_to};
ghost use Rattle.ats_auditors.specs.Inner.Sweeping.{entry_names};
ghost use Rattle.ats_auditors.specs.Commands.{reads_gathered, gathers};
ghost use Rattle.ats_console.specs.declared.stops.Stop.TheVariants.{Shelf as AtShelf, Memory};

use crate::listing::Entry;
use ats_base::{Bytes, GatherFault, Shelf, gather};
use ats_console::{Stop, proofs_too_long};
use ats_grammar::MAX_PROOF;
use std::alloc::Global;

/// The file of a proof of a sweep: its bytes, or `Long` if they are more than a proof may have.
#[derive(Drop)]
pub enum Gathered {
    Whole(Bytes),
    Long,
}

impl Gathered {
    /// The bytes that were gathered.
    pub(crate) fn bytes(&self) -> &[u8]
        ensures { result.now ≡ content self.now }
    {
        match self {
            Gathered::Whole(bytes) => bytes.as_slice(),
            Gathered::Long => &[],
        }
    }
}

// The bytes of the proof that the named file may be, or `Long`.
fn proof_or_long<S: Shelf>(alloc: Global, name: &str, shelf: &mut S) -> Result<Gathered, Stop>
    ensures ok { IfOk result (λ proof. IsDone (reads_gathered name.now (comes_to proof))
        (S.told shelf.old) (S.told shelf.new) []) }
    ensures stop { IfErr result (IsStopped AtShelf Memory (reads_gathered name.now (λ proof. no_more))
        (S.told shelf.old) (S.told shelf.new)) }
{
    match gather(alloc, shelf, name, MAX_PROOF) {
        Ok(bytes) => Ok(Gathered::Whole(bytes)),
        Err(GatherFault::ReadFault) => Err(Stop::Shelf),
        Err(GatherFault::TooLong) => Ok(Gathered::Long),
        Err(GatherFault::OutOfMemory) => Err(Stop::Memory),
    }
}

// The most bytes of all proofs together.
const PROOFS_LIMIT: u64 = 1 << 28;

/// The proofs of all lines.
pub(crate) fn gather_all<S: Shelf>(
    alloc: Global,
    entries: &[Entry<'_>],
    shelf: &mut S,
) -> Result<Vec<Gathered>, Stop>
    ensures ok { IfOk result (λ proofs. IsDone (gathers [] (entry_names entries.now) (comes_to proofs.items))
        (S.told shelf.old) (S.told shelf.new) []) }
    ensures stop { IfErr result (IsStopped AtShelf Memory (gathers [] (entry_names entries.now) (λ proofs. no_more))
        (S.told shelf.old) (S.told shelf.new)) }
{
    let mut proofs = Vec::new(alloc);
    let mut total = 0;
    for entry in entries {
        let proof = proof_or_long(alloc, entry.proof, shelf)?;
        total += proof.bytes().len() as u64;
        if total > PROOFS_LIMIT {
            return Err(proofs_too_long(total));
        }
        proofs.push(proof)?;
    }
    Ok(proofs)
}
