//! The parts of a line.

use crate::fault::Fault;
use ats_base::MemShelf;
use std::alloc::Global;

/// The first word of a line, and the rest of it.
pub(crate) fn two(line: &str) -> Result<(&str, &str), Fault> {
    line.split_once(' ').ok_or(Fault::Unread)
}

/// The first two words of a line, and the rest of it.
pub(crate) fn three(line: &str) -> Result<(&str, &str, &str), Fault> {
    let (first, rest) = two(line)?;
    let (second, rest) = two(rest)?;
    Ok((first, second, rest))
}

/// A number in decimal digits.
pub fn number(word: &str) -> Result<usize, Fault> {
    word.parse::<usize>().map_err(|_| Fault::Unread)
}

/// The words of a command. A word between quotation marks may have spaces, and `@NAME` is replaced by the text of that
/// note.
pub(crate) fn words(alloc: Global, notes: &MemShelf, line: &str) -> Result<Vec<String>, Fault> {
    let mut words = Vec::new(alloc);
    for (at, part) in line.split('"').enumerate() {
        if at % 2 == 1 {
            words.push(String::from_str(alloc, part)?)?;
        } else {
            push_bare(alloc, notes, part, &mut words)?;
        }
    }
    Ok(words)
}

fn push_bare(
    alloc: Global,
    notes: &MemShelf,
    part: &str,
    words: &mut Vec<String>,
) -> Result<(), Fault> {
    for word in part.split_whitespace() {
        words.push(meant(alloc, notes, word)?)?;
    }
    Ok(())
}

fn meant(alloc: Global, notes: &MemShelf, word: &str) -> Result<String, Fault> {
    let Some(name) = word.strip_prefix('@') else {
        return Ok(String::from_str(alloc, word)?);
    };
    let bytes = notes.bytes_of(name).ok_or(Fault::Unread)?;
    let text = str::from_utf8(bytes).map_err(|_| Fault::Unread)?;
    Ok(String::from_str(alloc, text)?)
}
