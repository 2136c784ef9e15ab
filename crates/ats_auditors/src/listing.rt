//! The list of a sweep: its lines, and what each asks for.

ghost use Rattle.std.specs.Prelude.{◌≡◌, ◌⊎◌, ◌≤◌, length, IfOk, IfErr, MatchOption};
ghost use Rattle.std.specs.List.{AllZip};
ghost use Rattle.ats_auditors.specs.Listed.{Listed, IsSpelled, IsListed};
ghost use Rattle.ats_auditors.specs.Inner.Sweeping.{IsEntry, IsSpelledAs};
ghost use Rattle.ats_console.specs.Lists.{IsListStop, lines_of};
ghost use Rattle.ats_console.specs.declared.stops.Stop.TheVariants.{Memory};

use ats_console::{Stop, bad_line, count_lines, first_line, number};
use ats_impact::Top;
use ats_terms::{Query, QueryFault};
use std::alloc::Global;

/// What a line of a list asks: whether the proof in the named file answers the query with this many rows.
#[derive(Drop)]
pub(crate) struct Entry<'a> {
    pub(crate) top: Top,
    pub(crate) proof: &'a str,
    pub(crate) query: Query,
}

// R, PROOF and QUERY of a line that spells them.
fn parts(line: &[u8]) -> Option<(u32, &str, &str)>
    ensures { MatchOption result ((listed : Listed) → IsSpelled line.now listed → ⊥)
        (λ parts. IsSpelledAs line.now parts.0 parts.1.now parts.2.now) }
{
    let Ok(text) = str::from_utf8(line) else {
        return None;
    };
    let Some((word, rest)) = text.split_once(' ') else {
        return None;
    };
    let Some((proof, query)) = rest.split_once(' ') else {
        return None;
    };
    if proof.is_empty() {
        return None;
    }
    match number(word) {
        Some(r) => Some((r, proof, query)),
        None => None,
    }
}

// What a line asks, if it is well formed.
fn read_line<'a>(alloc: Global, line: &'a [u8]) -> Result<Option<Entry<'a>>, Stop>
    ensures ok { IfOk result (λ found.
        MatchOption found ((listed : Listed) → IsListed line.now listed → ⊥) (IsEntry line.now)) }
    ensures stop { IfErr result (λ stop. stop ≡ Memory) }
{
    let Some((r, proof, query)) = parts(line) else {
        return Ok(None);
    };
    let Ok(top) = Top::new(r) else {
        return Ok(None);
    };
    match Query::read(alloc, query) {
        Ok(query) => Ok(Some(Entry { top, proof, query })),
        Err(fault) => match fault {
            QueryFault::OutOfMemory => Err(Stop::Memory),
            _ => Ok(None),
        },
    }
}

// The most lines of a list.
const LINES: usize = 1000;

/// What the lines of a list ask, in order. Their number is checked before any of them is.
pub(crate) fn read_entries<'a>(alloc: Global, bytes: &'a [u8]) -> Result<Vec<Entry<'a>>, Stop>
    ensures ok { IfOk result (λ entries. AllZip IsEntry (lines_of bytes.now) entries.items) }
    ensures some { IfOk result (λ entries. 1 ≤ length entries.items) }
    ensures few { IfOk result (λ entries. length entries.items ≤ 1000) }
    ensures stop { IfErr result (λ stop. (stop ≡ Memory) ⊎ IsListStop IsListed 1000 bytes.now stop) }
{
    let count = count_lines(bytes);
    if count == 0 {
        return Err(bad_line(1));
    }
    if count > LINES {
        return Err(bad_line(LINES + 1));
    }
    let mut entries = Vec::new(alloc);
    let mut rest = bytes;
    'lines: while !rest.is_empty() {
        let (line, after) = first_line(rest);
        let Some(entry) = read_line(alloc, line)? else {
            return Err(bad_line(entries.len() + 1));
        };
        entries.push(entry)?;
        rest = after;
    }
    Ok(entries)
}
