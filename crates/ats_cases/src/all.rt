//! Plays all documents.

use crate::document::play;
use ats_play::{Fault, Player};
use ats_tally::Tally;
use std::fs;
use std::thread::Threads;

fn tell(rt: &HostRuntime, tally: &Tally, what: &str) -> Result<bool, Fault> {
    let (report, passed) = (tally.report(), tally.passed());
    println!(rt; "{report}{passed} {what} passed")?;
    Ok(report.is_empty())
}

// Plays documents, over shelves that have the archive, and prints how many `what` passed.
fn play_each(
    rt: &HostRuntime,
    threads: &(impl Threads + Sync),
    archive: &[u8],
    names: &[&str],
    what: &str,
) -> Result<bool, Fault> {
    let mut player = Player::new(rt.alloc(), archive)?;
    for name in names {
        play(
            threads,
            &mut player,
            fs::read_to_string(rt, *name)?.as_str(),
        )?;
    }
    tell(rt, player.tally(), what)
}

/// Plays the cases and the vectors in the current folder, prints what differs and how many passed, and returns whether
/// all did.
pub(crate) fn play_all(rt: &HostRuntime, threads: &(impl Threads + Sync)) -> Result<bool, Fault> {
    let archive = fs::read(rt, "archive.json")?;
    let cases = play_each(rt, threads, &archive, &["cases.md", "QUERIES.md"], "cases")?;
    let vectors = play_each(rt, threads, &archive, &["vectors.md"], "vectors")?;
    Ok(cases && vectors)
}
