//! Fields that files of other kinds share with a proof: the format and the header of an archive, and digests.

ghost use Rattle.std.specs.Prelude.{◌≡◌, ◌≤◌, ◌++◌, ℕ, List, [], ◌∷◌, length, OnOk, IfOk, IfErr, OnErr};
ghost use Rattle.std.specs.List.{All, concat};
ghost use Rattle.ats_dict.specs.Header.{IsHeader};
ghost use Rattle.ats_grammar.specs.Front.{Spells, IsBad};
ghost use Rattle.ats_grammar.specs.Position.{StandsBefore, Passes, HasFault};
ghost use Rattle.ats_grammar.specs.Table.{Table, Schema, spelled};
ghost use Rattle.ats_proof.specs.Inner.Reading.{header_at};
ghost use Rattle.ats_proof.specs.Seen.{digests_of};
ghost use Rattle.ats_proof.specs.SharedTables.{file, archive, last_digests};
ghost use Rattle.ats_proof.specs.Value.{number_of_format, archive_fields};

use crate::bytes::{digest, number_4};
use crate::digests::DigestRun;
use ats_base::{Bytes, OutOfMemory};
use ats_dict::Header;
use ats_grammar::{Reader, ShapeFault, ShapeKind};
use ats_lists::Format;

/// Begins to read a file of at most `limit` bytes, after its first four, which are `magic`.
///
/// # Errors
/// The fault of too many bytes, or that of the first field.
pub fn begin_file(bytes: &[u8], limit: u64, magic: u32) -> Result<Reader<'_>, ShapeFault>
    ensures read { IfOk result (λ reader. (rest : Table)
        → StandsBefore (file limit magic rest) bytes.now (spelled 4 magic ∷ []) reader rest) }
    ensures refused { IfErr result (λ fault. (rest : Table) → IsBad (file limit magic rest) bytes.now fault) }
{
    let mut reader = Reader::new(bytes, limit)?;
    reader.number(4, magic as u64, magic, ShapeKind::Magic)?;
    Ok(reader)
}

// The format of this number.
fn format_of(number: u32) -> Format
    requires some { 1 ≤ number }
    requires few { number ≤ 2 }
    ensures { number_of_format result ≡ number }
{
    if number == 2 {
        Format::Two
    } else {
        Format::One
    }
}

/// Reads the format of an archive's lists, 1 or 2 in one byte, and a header in its range: version, numbers of documents
/// and of dictionary leaves, and three roots.
///
/// # Errors
/// The fault of the first field that is wrong. The reader is still before the format.
pub fn read_archive(reader: &mut Reader<'_>) -> Result<(Format, Header), ShapeFault>
    ensures range { IfOk result (λ found. IsHeader found.1.documents found.1.dict_leaves found.1.dict_root
        found.1.docs_root found.1.texts_root) }
    ensures read { IfOk result (λ found. (rest : Table)
        → Passes reader.old reader.new (archive rest) (archive_fields found.0 found.1) rest) }
    ensures refused { IfErr result (λ fault. (rest : Table) → HasFault reader.old (archive rest) fault) }
    ensures same { OnErr result (reader.new ≡ reader.old) }
{
    let mut after = *reader;
    let number = after.number(1, 1, 2, ShapeKind::Version)?;
    let bytes = after.header()?;
    *reader = after;
    Ok((format_of(number), header_at(bytes)))
}

// The header whose bytes these are, with its version in front.
fn header_at(bytes: &[u8]) -> Header
    requires { length bytes.now ≡ 105 }
    ensures { result ≡ header_at bytes.now }
{
    Header {
        documents: number_4(bytes.split_at(1).1),
        dict_leaves: number_4(bytes.split_at(5).1),
        dict_root: digest(bytes.split_at(9).1),
        docs_root: digest(bytes.split_at(41).1),
        texts_root: digest(bytes.split_at(73).1),
    }
}

/// Reads the end of a file: the number of digests, at most `most`, in one byte, and the digests.
///
/// # Errors
/// The fault of the first field that is wrong, or of bytes after the last one.
pub fn read_digests<'a>(reader: &mut Reader<'a>, most: u32) -> Result<DigestRun<'a>, ShapeFault>
    requires { most ≤ 255 }
    ensures few { IfOk result (λ run. length (digests_of run) ≤ most) }
    ensures sized { IfOk result (λ run. All (λ d. length d ≡ 32) (digests_of run)) }
    ensures spelled { IfOk result (λ run. (schema : Schema) (bytes : List ℕ) (fields : List (List ℕ))
        → StandsBefore schema bytes fields reader.old (last_digests most)
        → Spells schema bytes (fields ++ spelled 1 (length (digests_of run)) ∷ digests_of run)) }
    ensures refused { IfErr result (HasFault reader.old (last_digests most)) }
{
    let count = reader.number(1, 0, most, ShapeKind::Count)?;
    let lent = reader.digests(count)?;
    reader.end()?;
    Ok(DigestRun::of(lent))
}

/// Appends the format and the header of an archive.
pub fn put_archive(bytes: &mut Bytes, format: Format, header: &Header) -> Result<(), OutOfMemory>
    requires { IsHeader header.now.documents header.now.dict_leaves header.now.dict_root header.now.docs_root header.now.texts_root }
    ensures { OnOk result (bytes.new ≡ bytes.old ++ concat (archive_fields format header.now)) }
{
    bytes.push(format.number())?;
    bytes.extend(&header.bytes())?;
    Ok(())
}
