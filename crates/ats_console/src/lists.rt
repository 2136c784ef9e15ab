//! Files of lines.

ghost use Rattle.std.specs.Prelude.{◌≡◌, ◌≢◌, ◌⊎◌, ◌<◌, ◌∷◌, [], ℕ, List, length, IfOk, IfErr, MatchOption};
ghost use Rattle.ats_console.specs.Lists.{IsListOf, IsListStop, lines_of};
ghost use Rattle.ats_console.specs.Names.{SpellsName};
ghost use Rattle.ats_console.specs.Roots.{SpellsRoot};
ghost use Rattle.ats_console.specs.declared.stops.Stop.TheVariants.{Memory};

use crate::stops::{Stop, bad_line};
use crate::words::root_digits;
use std::alloc::Global;
use std::marker::Model;

/// The first line, and what follows its line feed.
pub fn first_line(bytes: &[u8]) -> (&[u8], &[u8])
    requires { bytes.now ≢ [] }
    ensures lines { lines_of bytes.now ≡ result.0.now ∷ lines_of result.1.now }
    ensures less { length result.1.now < length bytes.now }
{
    let mut at = 0;
    'bytes: while at < bytes.len() && bytes[at] != b'\n' {
        at += 1;
    }
    if at == bytes.len() {
        return (bytes, &bytes[at..]);
    }
    (&bytes[..at], &bytes[at + 1..])
}

/// The number of lines.
pub fn count_lines(bytes: &[u8]) -> usize
    ensures { result ≡ length (lines_of bytes.now) }
{
    let mut rest = bytes;
    let mut count = 0;
    'lines: while !rest.is_empty() {
        count += 1;
        rest = first_line(rest).1;
    }
    count
}

// The most shards of a catalog.
const SHARDS: usize = 4096;

/// The roots that the lines of a list spell, in order. Their number is checked before any of them is.
pub(crate) fn read_roots(alloc: Global, bytes: &[u8]) -> Result<Vec<[u8; 32]>, Stop>
    ensures ok { IfOk result (λ roots. IsListOf SpellsRoot 4096 bytes.now roots.items) }
    ensures stop { IfErr result (λ stop. (stop ≡ Memory) ⊎ IsListStop SpellsRoot 4096 bytes.now stop) }
{
    let count = count_lines(bytes);
    if count == 0 {
        return Err(bad_line(1));
    }
    if count > SHARDS {
        return Err(bad_line(SHARDS + 1));
    }
    let mut roots = Vec::new(alloc);
    let mut rest = bytes;
    'lines: while !rest.is_empty() {
        let (line, after) = first_line(rest);
        let Some(root) = root_digits(line) else {
            return Err(bad_line(roots.len() + 1));
        };
        roots.push(root)?;
        rest = after;
    }
    Ok(roots)
}

/// The name of a file, lent from a list.
#[derive(Drop)]
pub struct Name<'a> {
    text: &'a str,
}

impl<'a> Model for Name<'a> {
    ghost use Rattle.std.specs.Prelude.{ℕ, List};

    ghost Value = { List ℕ };

    ghost view = { λ name. name.text.now };
}

impl<'a> Name<'a> {
    pub fn as_str(&self) -> &'a str
        ensures { result.now ≡ self.now }
    {
        self.text
    }
}

// The name that a line spells.
fn read_name(line: &[u8]) -> Option<Name<'_>>
    ensures { MatchOption result ((name : List ℕ) → SpellsName line.now name → ⊥) (SpellsName line.now) }
{
    if line.is_empty() {
        return None;
    }
    match str::from_utf8(line) {
        Ok(text) => Some(Name { text }),
        Err(_) => None,
    }
}

/// The names of the files of a catalog's shards that the lines of a list spell, in order. Their number is checked before any
/// of them is.
pub fn read_names(alloc: Global, bytes: &[u8]) -> Result<Vec<Name<'_>>, Stop>
    ensures ok { IfOk result (λ names. IsListOf SpellsName 4096 bytes.now names.items) }
    ensures stop { IfErr result (λ stop. (stop ≡ Memory) ⊎ IsListStop SpellsName 4096 bytes.now stop) }
{
    let count = count_lines(bytes);
    if count == 0 {
        return Err(bad_line(1));
    }
    if count > SHARDS {
        return Err(bad_line(SHARDS + 1));
    }
    let mut names = Vec::new(alloc);
    let mut rest = bytes;
    'lines: while !rest.is_empty() {
        let (line, after) = first_line(rest);
        let Some(name) = read_name(line) else {
            return Err(bad_line(names.len() + 1));
        };
        names.push(name)?;
        rest = after;
    }
    Ok(names)
}
