//! A text as the one leaf that is shown of the texts tree.

ghost use Rattle.std.specs.Prelude.{◌≡◌, ◌<◌, length};

use crate::view::TextView;
use ats_hash::Steps;
use ats_proof::DigestRun;
use ats_tree::Revealed;

/// The text at the number of a document, unless it was passed, and the digests left.
#[derive(Clone, Copy)]
pub struct TextCursor<'a> {
    doc: u32,
    text: &'a [u8],
    is_left: bool,
    digests: DigestRun<'a>,
}

impl<'a> TextCursor<'a> {
    ghost use Rattle.ats_proof.specs.Seen.{digests_of};
    ghost use Rattle.ats_text_check.specs.Accepts.{shown_text};
    ghost use Rattle.ats_text_check.specs.Cursor.{leaves_left};

    /// The text of a view as the leaf of this document.
    pub fn of(proof: &TextView<'a>, doc: u32) -> TextCursor<'a>
        ensures shown { leaves_left result ≡ shown_text doc proof.now.text }
        ensures digests { digests_of result.digests ≡ proof.now.digests }
    {
        TextCursor {
            doc,
            text: proof.text,
            is_left: true,
            digests: proof.digests,
        }
    }
}

impl<'a> Revealed<'a> for TextCursor<'a> {
    ghost use Rattle.ats_proof.specs.Seen.{digests_of};
    ghost use Rattle.ats_text_check.specs.Cursor.{leaves_left};

    ghost shown = { λ s. leaves_left s };

    ghost digests = { λ s. digests_of s.digests };

    ghost front_part = { λ s. s.text.now };

    fn position(&self) -> Option<u32> {
        self.digests.facts();
        if !self.is_left {
            return None;
        }
        Some(self.doc)
    }

    fn leaf_front(&self) -> &'a [u8] {
        self.text
    }

    fn leaf_back(&self) -> &'a [u8] {
        &[]
    }

    fn pass_leaf(&mut self, steps: &mut Steps) {
        steps.tick();
        self.is_left = false;
    }

    fn pass_digest(&mut self, steps: &mut Steps) -> Option<&'a [u8]> {
        self.digests.pass(steps)
    }
}
