//! The terms of a text, as lines.

use crate::fault::Fault;
use ats_base::Bytes;
use ats_tally::Shown;
use ats_terms::{TermCounts, Terms};
use std::alloc::Global;

// A line for each term, with the number of times it occurs.
fn lines(alloc: Global, counts: &TermCounts) -> Result<Bytes, Fault> {
    let mut lines = Bytes::new(alloc);
    for at in 0..counts.len() {
        let times = counts.count(at);
        lines.extend(counts.term(at))?;
        lines.extend(format!(in alloc; " {times}\n")?.as_bytes())?;
    }
    Ok(lines)
}

/// `HEX`: the terms of the text with these bytes, as a command would print them.
pub(crate) fn show_terms(alloc: Global, digits: &str) -> Result<Shown, Fault> {
    let bytes = hex::decode(alloc, digits).map_err(|_| Fault::Unread)?;
    let text = str::from_utf8(&bytes).map_err(|_| Fault::Unread)?;
    let counts = TermCounts::of(alloc, &Terms::of(alloc, text)?)?;
    let lines = lines(alloc, &counts)?;
    Ok(Shown::new(alloc, digits, 0, lines.as_slice())?)
}
