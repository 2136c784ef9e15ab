//! `audit-fetch`: the audit of the text of a document.

ghost use Rattle.std.specs.Prelude.{◌≡◌, IfOk, IfErr};
ghost use Rattle.ats_text_check.specs.Value.{TextProof, IsTextProof};
ghost use Rattle.ats_text_proof.specs.Verdicts.{IsFoundOwn, difference_of};
ghost use Rattle.ats_plan.specs.Runs.{IsDone, IsStopped};
ghost use Rattle.ats_console.specs.Kinds.{printed_text};
ghost use Rattle.ats_console.specs.declared.stops.Stop.TheVariants.{Shelf as AtShelf, Memory};
ghost use Rattle.ats_auditors.specs.Collided.{lines_of_text_collision};
ghost use Rattle.ats_auditors.specs.Audited.{text_audit};
ghost use Rattle.ats_auditors.specs.Inner.Audited.{AuditStop};
ghost use Rattle.ats_auditors.specs.Commands.{audit_fetch_plan};

use ats_base::Shelf;
use ats_console::{
    Line, Stop, TEXT_FILE_LIMIT, print_text, read, refused, rejected, strings_lines,
};
use ats_hash::Hash32;
use ats_index::Index;
use ats_refusal::{Rejection, text_refusal_words};
use ats_text_proof::{TextClash, TextVerdict, TextView, audit_text};
use std::alloc::{AllocError, Global};
use std::thread::Threads;

// The place, the archive's own string and that of the file, a line each.
fn text_collision_lines(alloc: Global, clash: &TextClash) -> Result<Vec<u8>, AllocError>
    ensures { IfOk result (λ lines. lines.items ≡ lines_of_text_collision (difference_of clash.now)) }
{
    let tree = if clash.header { "header" } else { "texts" };
    strings_lines(
        alloc,
        tree,
        clash.depth,
        clash.turns,
        clash.ours.as_slice(),
        clash.theirs.as_slice(),
    )
}

// The text of bytes that an audit finds to be the archive's own, and a line feed.
fn audit_to_text<H: Hash32>(
    alloc: Global,
    index: &Index<H>,
    doc: u32,
    bytes: &[u8],
) -> Result<Vec<u8>, Stop>
    ensures ok { IfOk result (λ text. (proof : TextProof) × IsTextProof bytes.now proof
        × IsFoundOwn H.hash index.now doc bytes.now × (text.items ≡ printed_text proof.text)) }
    ensures stop { IfErr result (AuditStop H.hash (text_audit H.hash index.now doc) bytes.now) }
{
    let Ok(verdict) = audit_text::<H>(alloc, index, doc, bytes) else {
        return Err(Stop::Memory);
    };
    match verdict {
        TextVerdict::Right => match TextView::read(bytes) {
            Ok(proof) => Ok(print_text(alloc, proof.text())?),
            Err(fault) => Err(rejected(Rejection::Shape(fault))),
        },
        TextVerdict::BadShape(fault) => Err(rejected(Rejection::Shape(fault))),
        TextVerdict::Refused(refusal) => Err(refused(text_refusal_words(refusal))),
        TextVerdict::Collision(clash) => {
            let lines = text_collision_lines(alloc, &clash)?;
            Err(Stop::Collision(Line::made(lines)))
        }
    }
}

/// The text of `audit-fetch`, and a line feed. The index is read before the file.
pub(crate) fn audit_fetch<H: Hash32 + Sync, R: Threads + Sync, S: Shelf>(
    rt: &R,
    alloc: Global,
    index: &str,
    doc: u32,
    file: &str,
    shelf: &mut S,
) -> Result<Vec<u8>, Stop>
    ensures ok { IfOk result (λ text. IsDone
        (audit_fetch_plan H.hash (record { index = index.now; doc = doc; file = file.now }))
        (S.told shelf.old) (S.told shelf.new) text.items) }
    ensures stop { IfErr result (IsStopped AtShelf Memory
        (audit_fetch_plan H.hash (record { index = index.now; doc = doc; file = file.now }))
        (S.told shelf.old) (S.told shelf.new)) }
{
    let loaded = read::index::<H, R, S>(rt, alloc, index, shelf)?;
    let bytes = match read::shaped(alloc, file, TEXT_FILE_LIMIT, shelf) {
        Ok(bytes) => bytes,
        Err(stop) => {
            drop(loaded);
            return Err(stop);
        }
    };
    let text = audit_to_text::<H>(alloc, &loaded, doc, bytes.as_slice());
    drop(loaded);
    text
}
