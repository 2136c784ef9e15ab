//! `fetch`: the check of the text of a document.

ghost use Rattle.std.specs.Prelude.{◌≡◌, IfOk, IfErr};
ghost use Rattle.ats_text_check.specs.Value.{TextProof};
ghost use Rattle.ats_text_check.specs.Bytes.{IsAcceptedText};
ghost use Rattle.ats_plan.specs.Runs.{IsDone, IsStopped};
ghost use Rattle.ats_console.specs.Kinds.{CheckStop, text_kind, printed_text};
ghost use Rattle.ats_console.specs.declared.stops.Stop.TheVariants.{Shelf as AtShelf, Memory};
ghost use Rattle.ats_checkers.specs.Commands.{fetch_plan};

use ats_base::Shelf;
use ats_console::{Stop, TEXT_FILE_LIMIT, print_text, read, refused, rejected};
use ats_hash::{Hash32, Steps};
use ats_refusal::{Rejection, text_refusal_words};
use ats_text_check::{TextView, check_text};
use std::alloc::Global;

// The text of bytes that are accepted as that of a document, and a line feed.
fn fetch_to_text<H: Hash32>(
    alloc: Global,
    bytes: &[u8],
    root: &[u8; 32],
    doc: u32,
) -> Result<Vec<u8>, Stop>
    ensures ok { IfOk result (λ text. (proof : TextProof) × IsAcceptedText H.hash root.now doc bytes.now proof
        × (text.items ≡ printed_text proof.text)) }
    ensures stop { IfErr result (CheckStop (text_kind H.hash root.now doc) bytes.now) }
{
    let proof = match TextView::read(bytes) {
        Ok(proof) => proof,
        Err(fault) => return Err(rejected(Rejection::Shape(fault))),
    };
    let mut steps = Steps::new(alloc);
    if let Err(refusal) = check_text::<H>(root, doc, &proof, &mut steps) {
        return Err(refused(text_refusal_words(refusal)));
    }
    Ok(print_text(alloc, proof.text())?)
}

/// The text of `fetch`, and a line feed.
pub(crate) fn fetch<H: Hash32, S: Shelf>(
    alloc: Global,
    root: &[u8; 32],
    doc: u32,
    file: &str,
    shelf: &mut S,
) -> Result<Vec<u8>, Stop>
    ensures ok { IfOk result (λ text. IsDone
        (fetch_plan H.hash (record { root = root.now; doc = doc; file = file.now }))
        (S.told shelf.old) (S.told shelf.new) text.items) }
    ensures stop { IfErr result (IsStopped AtShelf Memory
        (fetch_plan H.hash (record { root = root.now; doc = doc; file = file.now }))
        (S.told shelf.old) (S.told shelf.new)) }
{
    let bytes = read::shaped(alloc, file, TEXT_FILE_LIMIT, shelf)?;
    fetch_to_text::<H>(alloc, bytes.as_slice(), root, doc)
}
