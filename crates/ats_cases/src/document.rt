//! Plays the blocks of a document: its odd parts between fences. The rest is for people.

use crate::running::run_line;
use ats_play::{Fault, Player, number};
use std::thread::Threads;

/// Plays each block of the document.
pub(crate) fn play<R: Threads + Sync>(
    rt: &R,
    player: &mut Player,
    document: &str,
) -> Result<(), Fault> {
    for (at, block) in document.split("```").enumerate() {
        if at % 2 == 1 {
            play_block(rt, player, block)?;
        }
    }
    Ok(())
}

// A block may begin with the most bytes that a call moves, several times, and is played once for each.
fn play_block<R: Threads + Sync>(rt: &R, player: &mut Player, block: &str) -> Result<(), Fault> {
    let head = block.lines().nth(1).unwrap_or("");
    match head.strip_prefix(": moves ") {
        Some(sizes) => play_in_pieces(rt, player, block, sizes),
        None => play_lines(rt, player, block, usize::MAX),
    }
}

fn play_in_pieces<R: Threads + Sync>(
    rt: &R,
    player: &mut Player,
    block: &str,
    sizes: &str,
) -> Result<(), Fault> {
    for size in sizes.split(' ') {
        play_lines(rt, player, block, number(size)?)?;
    }
    Ok(())
}

// The rest of the fence's own line is no line of the block.
fn play_lines<R: Threads + Sync>(
    rt: &R,
    player: &mut Player,
    block: &str,
    moves: usize,
) -> Result<(), Fault> {
    player.begin(moves)?;
    for line in block.lines().skip(1) {
        run_line(rt, player, line)?;
    }
    player.settle()
}
