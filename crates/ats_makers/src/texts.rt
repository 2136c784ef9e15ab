//! `give`: the bytes that give the text of a document.

ghost use Rattle.std.specs.Prelude.{◌≡◌, IfOk, IfErr};
ghost use Rattle.ats_text_proof.specs.Given.{given_text};
ghost use Rattle.ats_text_check.specs.Value.{IsTextProof};
ghost use Rattle.ats_plan.specs.Runs.{IsDone, IsStopped};
ghost use Rattle.ats_console.specs.declared.stops.Stop.TheVariants.{Shelf as AtShelf, Memory, Input};
ghost use Rattle.ats_makers.specs.Lines.{line_of_document};
ghost use Rattle.ats_makers.specs.Commands.{HasDocument, LacksDocument, give_plan};
ghost use Rattle.ats_makers.specs.Inner.Stops.{OrMemory};

use crate::storing::store_sized;
use ats_base::{Bytes, Shelf};
use ats_console::{Stop, input_stop, read};
use ats_hash::Hash32;
use ats_index::Index;
use ats_refusal::Phrase;
use ats_text_proof::give_text;
use std::alloc::Global;
use std::thread::Threads;

// The stop of a document that an archive does not have.
fn lacks_document(doc: u32) -> Stop
    ensures { result ≡ Input (line_of_document doc) }
{
    input_stop(Phrase::number("document ", doc as u64))
}

// The bytes that give the text of a document of an index, which is dropped.
fn give_to_bytes<H: Hash32>(alloc: Global, index: Index<H>, doc: u32) -> Result<Bytes, Stop>
    ensures inside { IfOk result (λ bytes. HasDocument index doc) }
    ensures file { IfOk result (λ bytes. IsTextProof bytes (given_text H.hash index doc)) }
    ensures stop { IfErr result (OrMemory (LacksDocument index doc)) }
{
    if doc >= index.collection().documents() {
        drop(index);
        return Err(lacks_document(doc));
    }
    let made = give_text::<H>(alloc, &index, doc);
    drop(index);
    match made {
        Ok(bytes) => Ok(bytes),
        Err(_) => Err(Stop::Memory),
    }
}

/// Stores the bytes that give the text of a document, and returns the line of their number, which is made first.
pub(crate) fn give<H: Hash32 + Sync, R: Threads + Sync, S: Shelf>(
    rt: &R,
    alloc: Global,
    index: &str,
    doc: u32,
    file: &str,
    shelf: &mut S,
) -> Result<Vec<u8>, Stop>
    ensures ok { IfOk result (λ text. IsDone
        (give_plan H.hash (record { index = index.now; doc = doc; file = file.now }))
        (S.told shelf.old) (S.told shelf.new) text.items) }
    ensures stop { IfErr result (IsStopped AtShelf Memory
        (give_plan H.hash (record { index = index.now; doc = doc; file = file.now }))
        (S.told shelf.old) (S.told shelf.new)) }
{
    let loaded = read::index::<H, R, S>(rt, alloc, index, shelf)?;
    let bytes = give_to_bytes::<H>(alloc, loaded, doc)?;
    store_sized(alloc, "text", file, bytes, shelf)
}
