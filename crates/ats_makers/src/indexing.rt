//! `build`, `migrate` and `root`: indexes and their roots.

ghost use Rattle.std.specs.Prelude.{◌≡◌, IfOk, IfErr};
ghost use Rattle.ats_commit.specs.Root.{root_of};
ghost use Rattle.ats_index.specs.Spelling.{IsSpelling};
ghost use Rattle.ats_plan.specs.Runs.{IsDone, IsStopped};
ghost use Rattle.ats_console.specs.Print.{IsPublished};
ghost use Rattle.ats_makers.specs.Commands.{build_plan, migrate_plan, in_blocks, root_plan};
ghost use Rattle.ats_console.specs.declared.stops.Stop.TheVariants.{Shelf as AtShelf, Memory};

use crate::storing::store_made;
use ats_base::{Bytes, Shelf};
use ats_console::{Stop, read, root_line};
use ats_hash::Hash32;
use ats_index::Index;
use ats_lists::Format;
use std::alloc::Global;
use std::thread::Threads;

// The bytes of an index, which is dropped, and the line of its root.
fn index_to_bytes<H: Hash32>(alloc: Global, index: Index<H>) -> Result<(Bytes, Vec<u8>), Stop>
    ensures bytes { IfOk result (λ made. IsSpelling H.hash made.0 index) }
    ensures line { IfOk result (λ made. IsPublished (root_of H.hash index) made.1.items) }
    ensures stop { IfErr result (λ stop. stop ≡ Memory) }
{
    let bytes = index.bytes();
    let line = root_line(alloc, &index.root());
    drop(index);
    Ok((bytes?, line?.into_bytes()))
}

// The index of the same texts in which lists stand in blocks. One that is such an index is handed back; of another only the
// texts are kept, so that one index is in memory at a time.
fn index_in_blocks<H: Hash32 + Sync, R: Threads + Sync>(
    rt: &R,
    alloc: Global,
    index: Index<H>,
) -> Result<Index<H>, Stop>
    ensures ok { IfOk result (λ made. made ≡ in_blocks index) }
    ensures stop { IfErr result (λ stop. stop ≡ Memory) }
{
    match index.format() {
        Format::One => Ok(Index::<H>::build_in(rt, alloc, index.into_collection(), Format::Two)?),
        Format::Two => Ok(index),
    }
}

/// Stores the index of a collection, and returns the line of its root, which is made first.
pub(crate) fn build<H: Hash32 + Sync, R: Threads + Sync, S: Shelf>(
    rt: &R,
    alloc: Global,
    collection: &str,
    index: &str,
    shelf: &mut S,
) -> Result<Vec<u8>, Stop>
    ensures ok { IfOk result (λ text. IsDone
        (build_plan H.hash (record { collection = collection.now; index = index.now }))
        (S.told shelf.old) (S.told shelf.new) text.items) }
    ensures stop { IfErr result (IsStopped AtShelf Memory
        (build_plan H.hash (record { collection = collection.now; index = index.now }))
        (S.told shelf.old) (S.told shelf.new)) }
{
    let texts = read::collection(alloc, collection, shelf)?;
    let built = Index::<H>::build(rt, alloc, texts)?;
    let (bytes, line) = index_to_bytes::<H>(alloc, built)?;
    store_made(index, bytes, line, shelf)
}

/// Stores the index of the same texts in which lists stand in blocks, and returns the line of its root, which is made first.
/// Only the texts of the index are kept: lists and trees of both would need twice the memory.
pub(crate) fn migrate<H: Hash32 + Sync, R: Threads + Sync, S: Shelf>(
    rt: &R,
    alloc: Global,
    index: &str,
    migrated: &str,
    shelf: &mut S,
) -> Result<Vec<u8>, Stop>
    ensures ok { IfOk result (λ text. IsDone
        (migrate_plan H.hash (record { index = index.now; migrated = migrated.now }))
        (S.told shelf.old) (S.told shelf.new) text.items) }
    ensures stop { IfErr result (IsStopped AtShelf Memory
        (migrate_plan H.hash (record { index = index.now; migrated = migrated.now }))
        (S.told shelf.old) (S.told shelf.new)) }
{
    let loaded = read::index::<H, R, S>(rt, alloc, index, shelf)?;
    let made = index_in_blocks::<H, R>(rt, alloc, loaded)?;
    let (bytes, line) = index_to_bytes::<H>(alloc, made)?;
    store_made(migrated, bytes, line, shelf)
}

/// The line of the root of an index.
pub(crate) fn root<H: Hash32 + Sync, R: Threads + Sync, S: Shelf>(
    rt: &R,
    alloc: Global,
    index: &str,
    shelf: &mut S,
) -> Result<Vec<u8>, Stop>
    ensures ok { IfOk result (λ text. IsDone (root_plan H.hash (record { index = index.now }))
        (S.told shelf.old) (S.told shelf.new) text.items) }
    ensures stop { IfErr result (IsStopped AtShelf Memory (root_plan H.hash (record { index = index.now }))
        (S.told shelf.old) (S.told shelf.new)) }
{
    let index = read::index::<H, R, S>(rt, alloc, index, shelf)?;
    let line = root_line(alloc, &index.root());
    drop(index);
    Ok(line?.into_bytes())
}
