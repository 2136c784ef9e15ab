//! The root of an archive.

ghost use Rattle.std.specs.Prelude.{◌≡◌, ◌+◌, ◌<◌, ◌^◌};
ghost use Rattle.ats_lists.specs.declared.format.Format.TheVariants.{One};
ghost use Rattle.ats_commit.specs.Archive.{header_tag};
ghost use Rattle.ats_commit.specs.Root.{header_root, header_string};

use ats_dict::Header;
use ats_hash::{Hash32, Steps};
use ats_lists::Format;
use ats_tree::HashedString;

// The tag of the header of an archive whose lists have this format.
fn header_tag(format: Format) -> u8
    ensures { result ≡ header_tag format }
{
    match format {
        Format::One => 2,
        Format::Two => 4,
    }
}

/// The root of an archive with this header whose lists have this format: the digest of the header's bytes after the
/// format's tag. It is one step.
pub fn root_of_header_in<H: Hash32>(format: Format, header: &Header, steps: &mut Steps) -> [u8; 32]
    requires { steps.old + 1 < 2 ^ 64 }
    ensures value { result ≡ header_root H.hash format header.now }
    ensures cost { steps.new ≡ steps.old + 1 }
{
    H::digest2(header_tag(format), &header.bytes(), &[], steps)
}

/// The root of an archive with this header in which each list is one tree.
pub fn root_of_header<H: Hash32>(header: &Header, steps: &mut Steps) -> [u8; 32]
    requires { steps.old + 1 < 2 ^ 64 }
    ensures value { result ≡ header_root H.hash One header.now }
    ensures cost { steps.new ≡ steps.old + 1 }
{
    root_of_header_in::<H>(Format::One, header, steps)
}

/// The string whose digest `root_of_header_in` returns: the format's tag, then the header's bytes.
pub fn string_of_header(format: Format, header: &Header) -> HashedString
    ensures { result ≡ header_string format header.now }
{
    HashedString::tagged(header_tag(format), &header.bytes(), &[])
}
