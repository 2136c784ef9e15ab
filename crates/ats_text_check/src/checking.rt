//! The check of a text against a root.

ghost use Rattle.std.specs.Prelude.{◌≡◌, ◌+◌, ◌≤◌, ◌^◌, IsOk, OnOk, IfErr};
ghost use Rattle.ats_text_check.specs.Accepts.{AcceptsText, IsFirstTextRefusal};
ghost use Rattle.ats_text_check.specs.Strings.{IsOwnOrCollides};

use crate::cursor::TextCursor;
use crate::view::TextView;
use ats_commit::root_of_header_in;
use ats_hash::{Hash32, Steps};
use ats_refusal::TextRefusal;
use ats_tree::rebuild;

// The rules one after another.
fn checked<'a, H: Hash32>(
    root: &[u8; 32],
    doc: u32,
    proof: &TextView<'a>,
    steps: &mut Steps,
) -> Result<(), TextRefusal>
    requires { steps.old ≤ 2 ^ 62 }
    ensures accepts { OnOk result (AcceptsText H.hash root.now doc proof.now) }
    ensures refused { IfErr result (λ refusal. IsFirstTextRefusal H.hash root.now doc proof.now refusal) }
    ensures steps { steps.new ≤ steps.old + 70 }
{
    proof.facts();
    if root_of_header_in::<H>(proof.format, &proof.header, steps) != *root {
        return Err(TextRefusal::OtherRoot);
    }
    let documents = proof.header.documents;
    if doc >= documents {
        return Err(TextRefusal::DocOut { documents });
    }
    let mut shown = TextCursor::of(proof, doc);
    let Ok(digest) = rebuild::<H, _>(documents, &mut shown, steps) else {
        return Err(TextRefusal::TextMisfit {
            digests: proof.digests.len(),
        });
    };
    if digest != proof.header.texts_root {
        return Err(TextRefusal::TextRoot);
    }
    Ok(())
}

/// Checks whether a text is that of document `doc`, from 0, in the archive that the root commits to. Returns the first
/// rule that does not hold.
///
/// It allocates nothing, copies no text and hashes the text once.
pub fn check_text<'a, H: Hash32>(
    root: &[u8; 32],
    doc: u32,
    proof: &TextView<'a>,
    steps: &mut Steps,
) -> Result<(), TextRefusal>
    requires { steps.old ≤ 2 ^ 62 }
    ensures accepts { OnOk result (AcceptsText H.hash root.now doc proof.now) }
    ensures exact { AcceptsText H.hash root.now doc proof.now → IsOk result }
    ensures refused { IfErr result (λ refusal. IsFirstTextRefusal H.hash root.now doc proof.now refusal) }
    ensures own { OnOk result (IsOwnOrCollides H.hash root.now doc proof.now) }
    ensures steps { steps.new ≤ steps.old + 70 }
{
    proof.facts();
    checked::<H>(root, doc, proof, steps)
}
