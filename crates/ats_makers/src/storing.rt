//! Stores what a command made.

ghost use Rattle.std.specs.Prelude.{length, IfOk, IfErr};
ghost use Rattle.ats_plan.specs.Runs.{IsDone, IsStopped};
ghost use Rattle.ats_console.specs.declared.stops.Stop.TheVariants.{Shelf as AtShelf, Memory};
ghost use Rattle.ats_makers.specs.Lines.{line_of_size};
ghost use Rattle.ats_makers.specs.Inner.Storing.{stores_with};

use ats_base::{Bytes, Shelf, store};
use ats_console::Stop;
use std::alloc::Global;

/// Stores the bytes, and returns their line, which is made before.
pub(crate) fn store_made<S: Shelf>(
    name: &str,
    bytes: Bytes,
    line: Vec<u8>,
    shelf: &mut S,
) -> Result<Vec<u8>, Stop>
    ensures ok { IfOk result (λ text. IsDone (stores_with line.items name.now bytes)
        (S.told shelf.old) (S.told shelf.new) text.items) }
    ensures stop { IfErr result (IsStopped AtShelf Memory (stores_with line.items name.now bytes)
        (S.told shelf.old) (S.told shelf.new)) }
{
    match store(shelf, name, bytes.as_slice()) {
        Ok(()) => Ok(line),
        Err(_) => Err(Stop::Shelf),
    }
}

/// Stores the bytes, and returns the line of their number, after what they are.
pub(crate) fn store_sized<S: Shelf>(
    alloc: Global,
    kind: &str,
    name: &str,
    bytes: Bytes,
    shelf: &mut S,
) -> Result<Vec<u8>, Stop>
    ensures ok { IfOk result (λ text. IsDone (stores_with (line_of_size kind.now (length bytes)) name.now bytes)
        (S.told shelf.old) (S.told shelf.new) text.items) }
    ensures stop { IfErr result (IsStopped AtShelf Memory
        (stores_with (line_of_size kind.now (length bytes)) name.now bytes)
        (S.told shelf.old) (S.told shelf.new)) }
{
    let length = bytes.len();
    let line = format!(in alloc; "{kind} {length}\n")?;
    store_made(name, bytes, line.into_bytes(), shelf)
}
