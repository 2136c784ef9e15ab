//! The texts of an index's bytes.

ghost use Rattle.std.specs.Prelude.{◌≡◌, ◌≢◌, ◌∷◌, ◌++◌, ◌≤◌, ◌^◌, ℕ, List, drop, length, IfOk, IfErr, IfSome, IfNone, MatchResult};
ghost use Rattle.std.specs.Int.{to_be_bytes, w32};
ghost use Rattle.std.specs.Str.{IsUtf8};
ghost use Rattle.ats_lists.specs.declared.format.Format.{Format};
ghost use Rattle.ats_lists.specs.FormatNumber.{number_of_format};
ghost use Rattle.ats_index.specs.Spelling.{front_bytes};
ghost use Rattle.ats_index.specs.FirstPart.{IsFirstBad};
ghost use Rattle.ats_index.specs.LoadFaults.{BeginWith};

use crate::memory::OutOfMemory;
use crate::write::MAGIC;
use ats_impact::Texts;
use ats_lists::Format;
use byteorder::{BigEndian, ByteOrder};
use std::alloc::Global;

const MAX_DOCUMENTS: u32 = 65536;

const MAX_TEXT: u32 = 1 << 20;

const MAX_ALL: u32 = 1 << 24;

// The number in the first 4 bytes, if they are there and it is in this range.
fn number(bytes: &[u8], low: u32, high: u32) -> Option<u32>
    ensures low { IfSome result (λ n. low ≤ n) }
    ensures high { IfSome result (λ n. n ≤ high) }
    ensures same { IfSome result (λ n. bytes.now ≡ to_be_bytes w32 n ++ drop 4 bytes.now) }
    ensures none { IfNone result ((n : ℕ) (rest : List ℕ)
        → low ≤ n → n ≤ high → bytes.now ≢ to_be_bytes w32 n ++ rest) }
{
    if bytes.len() < 4 {
        return None;
    }
    let n = BigEndian::read_u32(bytes);
    if n < low || high < n {
        return None;
    }
    Some(n)
}

// The text of this length at the front and the bytes after it, if there are as many bytes and they are UTF-8.
fn text_of(bytes: &[u8], size: usize) -> Option<(&str, &[u8])>
    ensures utf8 { IfSome result (λ found. IsUtf8 found.0.now) }
    ensures long { IfSome result (λ found. length found.0.now ≡ size) }
    ensures same { IfSome result (λ found. bytes.now ≡ found.0.now ++ found.1.now) }
    ensures none { IfNone result ((text rest : List ℕ) → length text ≡ size → IsUtf8 text → bytes.now ≢ text ++ rest) }
{
    if bytes.len() < size {
        return None;
    }
    match str::from_utf8(&bytes[..size]) {
        Ok(text) => Some((text, &bytes[size..])),
        Err(_) => None,
    }
}

// The format whose version is at the front and the bytes after it, if it is there.
fn format_of(bytes: &[u8]) -> Option<(Format, &[u8])>
    ensures same { IfSome result (λ found. bytes.now ≡ number_of_format found.0 ∷ found.1.now) }
    ensures none { IfNone result ((format : Format) (rest : List ℕ) → bytes.now ≢ number_of_format format ∷ rest) }
{
    if let Some(rest) = bytes.strip_prefix(&[1]) {
        return Some((Format::One, rest));
    }
    let rest = bytes.strip_prefix(&[2])?;
    Some((Format::Two, rest))
}

// The format, the number of texts and the bytes after it, or the place of the first bad field.
fn front(bytes: &[u8]) -> Result<(Format, u32, &[u8]), u64>
    ensures some { IfOk result (λ found. 1 ≤ found.1) }
    ensures few { IfOk result (λ found. found.1 ≤ 65536) }
    ensures same { IfOk result (λ found. bytes.now ≡ front_bytes found.0 found.1 ++ found.2.now) }
    ensures bad { IfErr result (IsFirstBad bytes.now) }
{
    let Some(versioned) = bytes.strip_prefix(&MAGIC) else {
        return Err(0);
    };
    let Some((format, counted)) = format_of(versioned) else {
        return Err(4);
    };
    let Some(documents) = number(counted, 1, MAX_DOCUMENTS) else {
        return Err(5);
    };
    Ok((format, documents, &counted[4..]))
}

/// The format and the texts that an index's bytes begin with, or the place of the first bad field up to the last text.
/// Nothing is allocated for a length before as many bytes are found.
pub(crate) fn read_texts(
    alloc: Global,
    bytes: &[u8],
) -> Result<Result<(Format, Texts), u64>, OutOfMemory>
    ensures { IfOk result (λ found.
        MatchResult found (λ read. BeginWith bytes.now read.0 read.1) (IsFirstBad bytes.now)) }
{
    let (format, documents, mut rest) = match front(bytes) {
        Ok(found) => found,
        Err(at) => return Ok(Err(at)),
    };
    let mut texts = Texts::new(alloc);
    let mut all: u32 = 0;
    for _document in 0..documents {
        let at = (bytes.len() - rest.len()) as u64;
        let most = MAX_TEXT.min(MAX_ALL - all);
        let Some(size) = number(rest, 0, most) else {
            return Ok(Err(at));
        };
        let Some((text, following)) = text_of(&rest[4..], size as usize) else {
            return Ok(Err(at + 4));
        };
        texts.push(text)?;
        all += size;
        rest = following;
    }
    Ok(Ok((format, texts)))
}
