//! A growth over its bytes.

ghost use Rattle.std.specs.Prelude.{◌≡◌, ◌≤◌, ◌<◌, ◌^◌, ℕ, List, length, Ok, Err, IfOk, IfErr, All};
ghost use Rattle.ats_grammar.specs.declared.fault.ShapeFault.{ShapeFault};
ghost use Rattle.ats_grammar.specs.Front.{IsBad};
ghost use Rattle.ats_proof.specs.Seen.{digests_of};
ghost use Rattle.ats_growth_check.specs.Grammar.{growth_schema};
ghost use Rattle.ats_growth_check.specs.Value.{Growth, IsGrowth, AreInRange};

use ats_dict::Header;
use ats_grammar::ShapeFault;
use ats_lists::Format;
use ats_proof::{DigestRun, begin_file, read_archive, read_digests};
use std::marker::Model;

/// The most bytes that a growth may have.
const MOST_BYTES: u64 = 4096;

/// `ATSG` as a number, with which the bytes of a growth begin.
pub const MAGIC: u32 = 0x4154_5347;

/// The most digests that a growth may have.
const MOST_DIGESTS: u32 = 64;

/// What shows that an archive has grown: the headers of the old and of the new one, and digests. It lends the digests from
/// its bytes.
#[derive(Clone, Drop)]
pub struct GrowthView<'a> {
    pub(crate) old_format: Format,
    pub(crate) old: Header,
    pub(crate) new_format: Format,
    pub(crate) new: Header,
    pub(crate) digests: DigestRun<'a>,
}

impl<'a> Model for GrowthView<'a> {
    ghost use Rattle.ats_proof.specs.Seen.{digests_of};
    ghost use Rattle.ats_growth_check.specs.Value.{Growth, AreInRange};
    ghost use Rattle.ats_growth_check.specs.Inner.Value.{growth_of};

    ghost Value = { Growth };

    ghost view = { λ v. growth_of v.old_format v.old v.new_format v.new (digests_of v.digests) };

    ghost invariant = { λ v. AreInRange (growth_of v.old_format v.old v.new_format v.new (digests_of v.digests)) };
}

impl<'a> GrowthView<'a> {
    // The growth that bytes spell, or their first fault.
    fn fields(bytes: &'a [u8]) -> Result<GrowthView<'a>, ShapeFault>
        ensures spelled { IfOk result (IsGrowth bytes.now) }
        ensures refused { IfErr result (IsBad growth_schema bytes.now) }
    {
        let mut reader = begin_file(bytes, MOST_BYTES, MAGIC)?;
        let (old_format, old) = read_archive(&mut reader)?;
        let (new_format, new) = read_archive(&mut reader)?;
        let digests = read_digests(&mut reader, MOST_DIGESTS)?;
        Ok(GrowthView {
            old_format,
            old,
            new_format,
            new,
            digests,
        })
    }

    /// Reads the bytes of a growth from left to right, and returns the first fault if they spell none.
    pub fn read(bytes: &'a [u8]) -> Result<GrowthView<'a>, ShapeFault>
        ensures spelled { IfOk result (IsGrowth bytes.now) }
        ensures accepted { (g : Growth) → IsGrowth bytes.now g → result ≡ Ok g }
        ensures refused { IfErr result (IsBad growth_schema bytes.now) }
        ensures exact { (fault : ShapeFault) → IsBad growth_schema bytes.now fault → result ≡ Err fault }
    {
        GrowthView::fields(bytes)
    }

    /// What holds of every growth that was read.
    pub fn facts(&self)
        ensures { AreInRange self.now }
    {
        let _ = &self.digests;
    }

    /// How many digests there are, and a run of them.
    pub fn shown(&self) -> (u32, DigestRun<'a>)
        ensures count { result.0 ≡ length self.now.digests }
        ensures digests { digests_of result.1 ≡ self.now.digests }
    {
        (self.digests.len(), self.digests)
    }

    /// The format and the header of the old archive.
    pub fn old(&self) -> (Format, Header)
        ensures format { result.0 ≡ self.now.old_format }
        ensures header { result.1 ≡ self.now.old }
    {
        (self.old_format, self.old)
    }

    /// The format and the header of the new archive.
    pub fn new_archive(&self) -> (Format, Header)
        ensures format { result.0 ≡ self.now.new_format }
        ensures header { result.1 ≡ self.now.new }
    {
        (self.new_format, self.new)
    }
}
