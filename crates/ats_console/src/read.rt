//! Reads the files of commands.

ghost use Rattle.std.specs.Prelude.{◌≤◌, ◌^◌, [], IfOk, IfErr};
ghost use Rattle.ats_plan.specs.Runs.{IsDone, IsStopped};
ghost use Rattle.ats_console.specs.Roots.{reads_roots};
ghost use Rattle.ats_console.specs.Steps.{reads_file, reads_collection, reads_index, reads_shaped, reads_proof, no_more, comes_to};
ghost use Rattle.ats_console.specs.declared.stops.Stop.TheVariants.{Shelf as AtShelf, Memory};

use crate::input::read_collection;
use crate::lists::read_roots;
use crate::stops::{Stop, file_too_long, rejected};
use ats_base::{Bytes, GatherFault, Shelf, gather};
use ats_grammar::MAX_PROOF;
use ats_hash::Hash32;
use ats_impact::Collection;
use ats_index::Index;
use ats_proof::{ShapeFault, ShapeKind};
use ats_refusal::Rejection;
use std::alloc::Global;
use std::thread::Threads;

// The most bytes that the file of a collection may have.
const COLLECTION_LIMIT: u64 = 1 << 26;

/// The most bytes that a list may have.
pub const LIST_LIMIT: u64 = 1 << 20;

// The most bytes that the file of an index may have.
const INDEX_LIMIT: u64 = 1 << 29;

/// The fault of a file that is longer than a proof may be.
pub const TOO_LONG: ShapeFault = ShapeFault {
    at: MAX_PROOF,
    kind: ShapeKind::Long,
};

/// The bytes of the named file.
pub fn file<S: Shelf>(alloc: Global, name: &str, limit: u64, shelf: &mut S) -> Result<Bytes, Stop>
    requires { limit ≤ 2 ^ 29 }
    ensures ok { IfOk result (λ bytes. IsDone (reads_file name.now limit (comes_to bytes))
        (S.told shelf.old) (S.told shelf.new) []) }
    ensures stop { IfErr result (IsStopped AtShelf Memory (reads_file name.now limit (λ bytes. no_more))
        (S.told shelf.old) (S.told shelf.new)) }
{
    match gather(alloc, shelf, name, limit) {
        Ok(bytes) => Ok(bytes),
        Err(GatherFault::ReadFault) => Err(Stop::Shelf),
        Err(GatherFault::TooLong) => Err(file_too_long(limit)),
        Err(GatherFault::OutOfMemory) => Err(Stop::Memory),
    }
}

/// The collection that the named file is.
pub fn collection<S: Shelf>(alloc: Global, name: &str, shelf: &mut S) -> Result<Collection, Stop>
    ensures ok { IfOk result (λ texts. IsDone (reads_collection name.now (comes_to texts))
        (S.told shelf.old) (S.told shelf.new) []) }
    ensures stop { IfErr result (IsStopped AtShelf Memory (reads_collection name.now (λ texts. no_more))
        (S.told shelf.old) (S.told shelf.new)) }
{
    let bytes = file(alloc, name, COLLECTION_LIMIT, shelf)?;
    let texts = read_collection(alloc, bytes.as_slice())?;
    Ok(Collection::new(alloc, texts)?)
}

/// The index that the named file is.
pub fn index<H: Hash32 + Sync, R: Threads + Sync, S: Shelf>(
    rt: &R,
    alloc: Global,
    name: &str,
    shelf: &mut S,
) -> Result<Index<H>, Stop>
    ensures ok { IfOk result (λ index. IsDone (reads_index H.hash name.now (comes_to index))
        (S.told shelf.old) (S.told shelf.new) []) }
    ensures stop { IfErr result (IsStopped AtShelf Memory (reads_index H.hash name.now (λ archive. no_more))
        (S.told shelf.old) (S.told shelf.new)) }
{
    let bytes = file(alloc, name, INDEX_LIMIT, shelf)?;
    Ok(Index::<H>::load(rt, alloc, bytes.as_slice())?)
}

/// The roots that the named file lists, one a line.
pub fn roots<S: Shelf>(alloc: Global, name: &str, shelf: &mut S) -> Result<Vec<[u8; 32]>, Stop>
    ensures ok { IfOk result (λ roots. IsDone (reads_roots name.now (comes_to roots.items))
        (S.told shelf.old) (S.told shelf.new) []) }
    ensures stop { IfErr result (IsStopped AtShelf Memory (reads_roots name.now (λ roots. no_more))
        (S.told shelf.old) (S.told shelf.new)) }
{
    let bytes = file(alloc, name, LIST_LIMIT, shelf)?;
    read_roots(alloc, bytes.as_slice())
}

/// The bytes of a file that is checked for its shape. More than `limit` bytes are refused as too long for it.
pub fn shaped<S: Shelf>(alloc: Global, name: &str, limit: u64, shelf: &mut S) -> Result<Bytes, Stop>
    requires { limit ≤ 2 ^ 29 }
    ensures ok { IfOk result (λ bytes. IsDone (reads_shaped name.now limit (comes_to bytes))
        (S.told shelf.old) (S.told shelf.new) []) }
    ensures stop { IfErr result (IsStopped AtShelf Memory (reads_shaped name.now limit (λ bytes. no_more))
        (S.told shelf.old) (S.told shelf.new)) }
{
    match gather(alloc, shelf, name, limit) {
        Ok(bytes) => Ok(bytes),
        Err(GatherFault::ReadFault) => Err(Stop::Shelf),
        Err(GatherFault::TooLong) => Err(rejected(Rejection::Shape(ShapeFault {
            at: limit,
            kind: ShapeKind::Long,
        }))),
        Err(GatherFault::OutOfMemory) => Err(Stop::Memory),
    }
}

/// The bytes of the proof that the named file may be.
pub fn proof<S: Shelf>(alloc: Global, name: &str, shelf: &mut S) -> Result<Bytes, Stop>
    ensures ok { IfOk result (λ bytes. IsDone (reads_proof name.now (comes_to bytes))
        (S.told shelf.old) (S.told shelf.new) []) }
    ensures stop { IfErr result (IsStopped AtShelf Memory (reads_proof name.now (λ bytes. no_more))
        (S.told shelf.old) (S.told shelf.new)) }
{
    shaped(alloc, name, MAX_PROOF, shelf)
}
