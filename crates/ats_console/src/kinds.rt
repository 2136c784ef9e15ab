//! What the check and the audit of a text, of all documents with every term and of a growth share.

ghost use Rattle.std.specs.Prelude.{◌≡◌, IfOk};
ghost use Rattle.ats_console.specs.Kinds.{printed_text, line_of_grown};
ghost use Rattle.ats_console.specs.RejectionLines.{refused_line};
ghost use Rattle.ats_console.specs.declared.stops.Stop.TheVariants.{Rejected};

use crate::rejection::refused_line;
use crate::stops::Stop;
use ats_growth_check::Grown;
use ats_refusal::Phrase;
use std::alloc::{AllocError, Global};

/// The most bytes of a file that gives a text.
pub const TEXT_FILE_LIMIT: u64 = 1 << 21;

/// The most bytes of a file that shows a growth.
pub const GROWTH_FILE_LIMIT: u64 = 4_096;

/// The most bytes of a file that has the proof of a catalog's answer.
pub const CATALOG_FILE_LIMIT: u64 = 1 << 28;

/// The stop of what is refused, for the reason that a phrase gives.
pub fn refused(reason: Phrase) -> Stop
    ensures { result ≡ Rejected (refused_line reason) }
{
    Stop::Rejected(refused_line(reason))
}

/// A text as it is, and a line feed.
pub fn print_text(alloc: Global, text: &[u8]) -> Result<Vec<u8>, AllocError>
    ensures { IfOk result (λ printed. printed.items ≡ printed_text text.now) }
{
    let mut printed = Vec::new(alloc);
    printed.extend_from_slice(text)?;
    printed.extend_from_slice(b"\n")?;
    Ok(printed)
}

/// The numbers of documents of an archive that has grown, in a line.
pub fn grown_line(alloc: Global, grown: Grown) -> Result<Vec<u8>, AllocError>
    ensures { IfOk result (λ text. text.items ≡ line_of_grown grown.old grown.new) }
{
    let (old, new) = (grown.old, grown.new);
    let line = format!(in alloc; "grown {old} {new}\n")?;
    Ok(line.into_bytes())
}
