//! Fills a file with what a case needs.

use crate::fault::Fault;
use crate::said::{number, three, two};
use ats_base::{Bytes, MemShelf};
use std::alloc::Global;

/// `NAME TIMES TEXT`: appends the text to the file, TIMES times.
pub(crate) fn add(alloc: Global, shelf: &mut MemShelf, line: &str) -> Result<(), Fault> {
    let (name, times, text) = three(line)?;
    let start = shelf.bytes_of(name).ok_or(Fault::Unread)?;
    let bytes = with(alloc, start, number(times)?, text.as_bytes())?;
    shelf.put(name, bytes.as_slice())?;
    Ok(())
}

/// `NAME TIMES OTHER`: appends what the other file holds, TIMES times.
pub(crate) fn join(alloc: Global, shelf: &mut MemShelf, line: &str) -> Result<(), Fault> {
    let (name, times, other) = three(line)?;
    let start = shelf.bytes_of(name).ok_or(Fault::Unread)?;
    let more = shelf.bytes_of(other).ok_or(Fault::Unread)?;
    let bytes = with(alloc, start, number(times)?, more)?;
    shelf.put(name, bytes.as_slice())?;
    Ok(())
}

fn with(alloc: Global, start: &[u8], times: usize, more: &[u8]) -> Result<Bytes, Fault> {
    let mut bytes = Bytes::of(alloc, start)?;
    for _time in 0..times {
        bytes.extend(more)?;
    }
    Ok(bytes)
}

/// `NAME TIMES FIRST HEX`: appends these bytes to the file, TIMES times, each time after a number in 4 bytes: FIRST, and
/// then one more each time.
pub(crate) fn count(alloc: Global, shelf: &mut MemShelf, line: &str) -> Result<(), Fault> {
    let (name, times, rest) = three(line)?;
    let (first, digits) = two(rest)?;
    let more = hex::decode(alloc, digits).map_err(|_| Fault::Unread)?;
    let start = shelf.bytes_of(name).ok_or(Fault::Unread)?;
    let bytes = numbered(alloc, start, number(times)?, number(first)?, &more)?;
    shelf.put(name, bytes.as_slice())?;
    Ok(())
}

fn numbered(
    alloc: Global,
    start: &[u8],
    times: usize,
    first: usize,
    more: &[u8],
) -> Result<Bytes, Fault> {
    let mut bytes = Bytes::of(alloc, start)?;
    for time in 0..times {
        let number = u32::try_from(first.wrapping_add(time)).map_err(|_| Fault::Unread)?;
        bytes.extend(&number.to_be_bytes())?;
        bytes.extend(more)?;
    }
    Ok(bytes)
}

/// `NAME HEX`: the file becomes these bytes.
pub(crate) fn bytes(alloc: Global, shelf: &mut MemShelf, line: &str) -> Result<(), Fault> {
    let (name, digits) = two(line)?;
    let bytes = hex::decode(alloc, digits).map_err(|_| Fault::Unread)?;
    shelf.put(name, &bytes)?;
    Ok(())
}

/// `NAME FROM TO HEX`: puts these bytes in place of those of the file from one place to another.
pub(crate) fn patch(alloc: Global, shelf: &mut MemShelf, line: &str) -> Result<(), Fault> {
    let (name, from, rest) = three(line)?;
    let (to, digits) = rest.split_once(' ').unwrap_or((rest, ""));
    let others = hex::decode(alloc, digits).map_err(|_| Fault::Unread)?;
    let whole = shelf.bytes_of(name).ok_or(Fault::Unread)?;
    let bytes = spliced(alloc, whole, number(from)?, number(to)?, &others)?;
    shelf.put(name, bytes.as_slice())?;
    Ok(())
}

/// These bytes with others in place of those from one place to another.
fn spliced(
    alloc: Global,
    whole: &[u8],
    from: usize,
    to: usize,
    others: &[u8],
) -> Result<Bytes, Fault> {
    let front = whole.get(..from).ok_or(Fault::Unread)?;
    let back = whole.get(to..).ok_or(Fault::Unread)?;
    let mut bytes = Bytes::of(alloc, front)?;
    bytes.extend(others)?;
    bytes.extend(back)?;
    Ok(bytes)
}

/// `NAME OTHER`: the file on the one shelf becomes what the other is on the other shelf.
pub(crate) fn copy(to: &mut MemShelf, from: &MemShelf, line: &str) -> Result<(), Fault> {
    let (name, other) = two(line)?;
    let bytes = from.bytes_of(other).ok_or(Fault::Unread)?;
    to.put(name, bytes)?;
    Ok(())
}

/// Whether the file holds what the note does, or only its first COUNT bytes: `NAME NOTE COUNT`.
pub(crate) fn holds(shelf: &MemShelf, notes: &MemShelf, line: &str) -> Result<bool, Fault> {
    let (name, rest) = two(line)?;
    let (note, count) = rest.split_once(' ').unwrap_or((rest, ""));
    let whole = notes.bytes_of(note).ok_or(Fault::Unread)?;
    let wanted = if count.is_empty() {
        Some(whole)
    } else {
        whole.get(..number(count)?)
    };
    Ok(wanted.is_some() && shelf.bytes_of(name) == wanted)
}

/// Whether the file has COUNT bytes: `NAME COUNT`.
pub(crate) fn has_size(shelf: &MemShelf, line: &str) -> Result<bool, Fault> {
    let (name, count) = two(line)?;
    let wanted = number(count)?;
    Ok(
        shelf
            .bytes_of(name)
            .is_some_and(|bytes| bytes.len() == wanted),
    )
}
