//! Runs the commands of a document.

use ats_base::{MemCaller, MemDoor, MemShelf, MemSink};
use ats_hash::Weak;
use ats_play::{Fault, Player, Stage};
use ats_top::{run, run_with};
use std::alloc::Global;
use std::thread::Threads;

// Runs a command over the stage, which notes its status and what it printed.
fn run_on<R: Threads + Sync>(
    rt: &R,
    alloc: Global,
    stage: &mut Stage,
    line: &str,
    words: &[String],
) -> Result<(), Fault> {
    let mut sink = stage.sink(alloc)?;
    let shelf = &mut stage.shelf;
    let (caller, door) = (&mut stage.caller, &mut stage.door);
    let status = if stage.is_weak {
        run_with::<Weak, R, MemShelf, MemSink, MemCaller, MemDoor>(
            rt, alloc, words, shelf, &mut sink, caller, door,
        )
    } else {
        run(rt, alloc, words, shelf, &mut sink, caller, door)
    };
    stage.ran(alloc, line, status, sink.bytes())
}

/// Does what the line says: prepares the stage, runs a command over it, or compares.
pub(crate) fn run_line<R: Threads + Sync>(
    rt: &R,
    player: &mut Player,
    line: &str,
) -> Result<(), Fault> {
    match player.line(line)? {
        Some(words) => run_on(rt, player.alloc, &mut player.stage, line, &words),
        None => Ok(()),
    }
}
