//! Plays the cases of the commands and the vectors for other clients, which are kept as data, and prints how many
//! passed.
//!
//! The documents are in `data/`. `cases.md` explains how to write a case; `QUERIES.md` is a page for newcomers, which is
//! played as it is; `vectors.md` has the entries of the files of `vectors/`, whose `blocks.py` writes it.
//!
//! The room stands on `ats_top` for the commands, on `ats_play` for the lines of cases, and on `ats_hash` for a second
//! hash function. A case or a vector counts as passed only if all is as its file says. Each one that differs is printed.
#![tactic(auto)]

mod all;
mod document;
mod running;

use all::play_all;
use std::io;
use std::process::ExitCode;

fn main(rt: HostRuntime) -> io::Result<ExitCode> {
    match play_all(&rt, &rt) {
        Ok(is_passed) => Ok(ExitCode::from(if is_passed { 0 } else { 1 })),
        Err(fault) => {
            println!(rt; "not played: {fault:?}")?;
            Ok(ExitCode::from(1))
        }
    }
}
