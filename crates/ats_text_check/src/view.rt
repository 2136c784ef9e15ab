//! A text with what binds it to a root, over its bytes.

ghost use Rattle.std.specs.Prelude.{◌≡◌, ◌<◌, ◌≤◌, ◌^◌, ℕ, List, length, take, drop, Ok, Err, IfOk, IfErr};
ghost use Rattle.ats_grammar.specs.Front.{IsBad};
ghost use Rattle.ats_grammar.specs.declared.fault.ShapeFault.{ShapeFault};
ghost use Rattle.ats_text_check.specs.Grammar.{text_schema};

use ats_dict::Header;
use ats_grammar::{ShapeFault, ShapeKind};
use ats_lists::Format;
use ats_proof::{DigestRun, begin_file, read_archive, read_digests};
use std::marker::Model;

/// `ATSF` as a number.
const MAGIC: u32 = 0x4154_5346;

/// The most bytes that give a text.
const MAX_BYTES: u64 = 2_097_152;

/// The most bytes of a text.
const MAX_TEXT: u32 = 1_048_576;

/// The most digests.
const MAX_DIGESTS: u32 = 32;

/// The text of a document over the bytes that give it, with what binds it to a root: the format and the header of the
/// archive, and digests of the texts tree.
#[derive(Clone, Drop)]
pub struct TextView<'a> {
    pub(crate) format: Format,
    pub(crate) header: Header,
    pub(crate) text: &'a [u8],
    pub(crate) digests: DigestRun<'a>,
}

impl<'a> Model for TextView<'a> {
    ghost use Rattle.ats_proof.specs.Seen.{digests_of};
    ghost use Rattle.ats_text_check.specs.Value.{TextProof, IsTextInRange};

    ghost Value = { TextProof };

    ghost view = { λ v. record { format = v.format; header = v.header; text = v.text.now; digests = digests_of v.digests } };

    ghost invariant = { λ v. IsTextInRange (record { format = v.format; header = v.header; text = v.text.now; digests = digests_of v.digests }) };
}

impl<'a> TextView<'a> {
    ghost use Rattle.ats_proof.specs.Seen.{digests_of};
    ghost use Rattle.ats_text_check.specs.Value.{TextProof, IsTextProof, IsTextInRange};

    // The fields one after another, and the first that is wrong.
    fn fields(bytes: &'a [u8]) -> Result<TextView<'a>, ShapeFault>
        ensures spelled { IfOk result (IsTextProof bytes.now) }
        ensures refused { IfErr result (IsBad text_schema bytes.now) }
    {
        let mut reader = begin_file(bytes, MAX_BYTES, MAGIC)?;
        let (format, header) = read_archive(&mut reader)?;
        let length = reader.number(4, 0, MAX_TEXT, ShapeKind::Count)?;
        let text = reader.bytes(length)?;
        let digests = read_digests(&mut reader, MAX_DIGESTS)?;
        Ok(TextView {
            format,
            header,
            text,
            digests,
        })
    }

    /// Reads bytes that give a text from left to right, and returns the first fault if they give none. The text may be
    /// of any bytes: only the check tells whether it is an archive's own.
    pub fn read(bytes: &'a [u8]) -> Result<TextView<'a>, ShapeFault>
        ensures spelled { IfOk result (IsTextProof bytes.now) }
        ensures accepted { (proof : TextProof) → IsTextProof bytes.now proof → result ≡ Ok proof }
        ensures refused { IfErr result (IsBad text_schema bytes.now) }
        ensures exact { (fault : ShapeFault) → IsBad text_schema bytes.now fault → result ≡ Err fault }
    {
        TextView::fields(bytes)
    }

    /// The text, lent. It has at most 1,048,576 bytes.
    pub fn text(&self) -> &'a [u8]
        ensures value { result.now ≡ self.now.text }
        ensures lent { (bytes : List ℕ) → IsTextProof bytes self.now
            → result.now ≡ take (length self.now.text) (drop 114 bytes) }
        ensures short { length result.now ≤ 2 ^ 20 }
    {
        self.text
    }

    /// The format and the header of the archive.
    pub fn archive(&self) -> (Format, Header)
        ensures format { result.0 ≡ self.now.format }
        ensures header { result.1 ≡ self.now.header }
    {
        (self.format, self.header)
    }

    /// A run of the digests.
    pub fn digests(&self) -> DigestRun<'a>
        ensures { digests_of result ≡ self.now.digests }
    {
        self.digests
    }

    /// What holds of every text that was read.
    pub fn facts(&self)
        ensures { IsTextInRange self.now }
    {
        let _ = &self.text;
    }
}
