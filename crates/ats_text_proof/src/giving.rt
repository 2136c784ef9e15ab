//! The bytes that give the text of a document.

ghost use Rattle.std.specs.Prelude.{◌≡◌, ◌∷◌, ◌++◌, ◌<◌, [], length, IfOk, OnOk};
ghost use Rattle.std.specs.List.{concat};
ghost use Rattle.ats_tree.specs.Elided.{elided_digests};
ghost use Rattle.ats_text_check.specs.Value.{IsTextProof, IsTextInRange};
ghost use Rattle.ats_text_proof.specs.Given.{given_text};

use crate::memory::OutOfMemory;
use ats_base::Bytes;
use ats_commit::TextLeaves;
use ats_dict::Header;
use ats_hash::{Hash32, Steps};
use ats_impact::Collection;
use ats_index::Index;
use ats_lists::Format;
use ats_proof::put_archive;
use ats_tree::{Digests, elided};
use std::alloc::Global;

const MAGIC: [u8; 4] = *b"ATSF";

// The bytes besides the text and the digests.
const OTHER_BYTES: usize = 115;

const DIGEST_BYTES: usize = 32;

/// The digests that the text of a document needs of the texts tree. All other texts are hashed.
pub(crate) fn needed_digests<H: Hash32>(
    alloc: Global,
    collection: &Collection,
    doc: u32,
) -> Result<Digests, OutOfMemory>
    requires { doc < length collection.now }
    ensures { IfOk result (λ digests. digests ≡ elided_digests H.hash collection.now (doc ∷ [])) }
{
    let mut digests = Digests::new(alloc);
    let texts = TextLeaves::new(collection, 0, collection.documents());
    let mut steps = Steps::new(alloc);
    elided::<H, _>(&texts, &[doc], &mut digests, &mut steps)?;
    Ok(digests)
}

// Appends the digests.
fn put_digests(bytes: &mut Bytes, digests: &Digests) -> Result<(), OutOfMemory>
    ensures { OnOk result (bytes.new ≡ bytes.old ++ concat digests.now) }
{
    for digest in digests.as_slice() {
        bytes.extend(digest)?;
    }
    Ok(())
}

// The bytes that spell these parts.
fn spelled(
    alloc: Global,
    format: Format,
    header: &Header,
    text: &[u8],
    digests: &Digests,
) -> Result<Bytes, OutOfMemory>
    requires { IsTextInRange (record { format = format; header = header.now; text = text.now; digests = digests.now }) }
    ensures { IfOk result (λ bytes.
        IsTextProof bytes (record { format = format; header = header.now; text = text.now; digests = digests.now })) }
{
    let size = OTHER_BYTES + text.len() + DIGEST_BYTES * digests.len();
    let mut bytes = Bytes::with_room(alloc, size)?;
    bytes.extend(&MAGIC)?;
    put_archive(&mut bytes, format, header)?;
    bytes.extend(&(text.len() as u32).to_be_bytes())?;
    bytes.extend(text)?;
    bytes.push(digests.len() as u8)?;
    put_digests(&mut bytes, digests)?;
    Ok(bytes)
}

/// The bytes that give the text of document `doc`, from 0: magic, the archive's format and header, the text after its
/// length, and the digests that it needs of the texts tree after their number. Every other text is hashed once.
pub fn give_text<H: Hash32>(alloc: Global, index: &Index<H>, doc: u32) -> Result<Bytes, OutOfMemory>
    requires { doc < length index.now.texts }
    ensures { IfOk result (λ bytes. IsTextProof bytes (given_text H.hash index.now doc)) }
{
    let collection = index.collection();
    let digests = needed_digests::<H>(alloc, collection, doc)?;
    let text = collection.text(doc).as_bytes();
    spelled(alloc, index.format(), index.header(), text, &digests)
}
