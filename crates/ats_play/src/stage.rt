//! The state that each block begins with again.

ghost use Rattle.std.specs.Prelude.{IfOk};
ghost use Rattle.ats_base.specs.MemoryLinks.{IsUnused};

use crate::fault::Fault;
use crate::said::{number, two};
use ats_base::{Bytes, MemCaller, MemDoor, MemLink, MemShelf, MemSink};
use ats_tally::Shown;
use std::alloc::Global;

/// The shelf, the links of the next command, how these and the sink behave, and the last command that was run.
#[derive(Drop)]
pub struct Stage {
    /// The files.
    pub shelf: MemShelf,
    /// The links of the next command that calls.
    pub caller: MemCaller,
    /// The links of the next command that listens.
    pub door: MemDoor,
    pub(crate) moves: usize,
    pub(crate) sink_fails: Option<u64>,
    /// Whether the sum of bytes is the hash function, and not SHA-256.
    pub is_weak: bool,
    shown: Option<Shown>,
}

impl Stage {
    /// An empty shelf and no links. No call fails, and each moves at most `moves` bytes, or 1 if that is 0.
    pub(crate) fn new(alloc: Global, moves: usize) -> Self {
        let mut shelf = MemShelf::new(alloc);
        shelf.piece(moves.max(1));
        Stage {
            shelf,
            caller: MemCaller::new(alloc),
            door: MemDoor::new(alloc),
            moves,
            sink_fails: None,
            is_weak: false,
            shown: None,
        }
    }

    /// What was shown instead of a command.
    pub(crate) fn show(&mut self, shown: Shown) {
        self.shown = Some(shown);
    }

    /// The last command should have printed this next.
    pub(crate) fn want(&mut self, text: &str) -> Result<(), Fault> {
        self.want_bytes(text.as_bytes())
    }

    /// The last command should have printed these bytes next.
    pub(crate) fn want_bytes(&mut self, bytes: &[u8]) -> Result<(), Fault> {
        match self.shown.as_mut() {
            Some(shown) => Ok(shown.want_bytes(bytes)?),
            None => Err(Fault::Unread),
        }
    }

    /// The last command should have printed the bytes of this file next.
    pub(crate) fn want_file(&mut self, name: &str) -> Result<(), Fault> {
        match (self.shown.as_mut(), self.shelf.bytes_of(name)) {
            (Some(shown), Some(bytes)) => Ok(shown.want_bytes(bytes)?),
            _ => Err(Fault::Unread),
        }
    }

    /// The last command should have had this status.
    pub(crate) fn want_status(&mut self, status: u8) -> Result<(), Fault> {
        match self.shown.as_mut() {
            Some(shown) => {
                shown.want_status(status);
                Ok(())
            }
            None => Err(Fault::Unread),
        }
    }

    /// Whether a file or a link is as the last command should have left it.
    pub(crate) fn note_fit(&mut self, fits: bool) -> Result<(), Fault> {
        match self.shown.as_mut() {
            Some(shown) => {
                shown.note_fit(fits);
                Ok(())
            }
            None => Err(Fault::Unread),
        }
    }

    /// The last command. Its links are dropped.
    pub(crate) fn take_shown(&mut self, alloc: Global) -> Option<Shown> {
        let shown = self.shown.take()?;
        self.caller = MemCaller::new(alloc);
        self.door = MemDoor::new(alloc);
        Some(shown)
    }

    /// `FILE CALL`: one more link for the next command, over which the file's bytes arrive. If CALL is given, that call
    /// fails.
    pub(crate) fn add_link(&mut self, alloc: Global, line: &str) -> Result<(), Fault> {
        let (name, call) = line.split_once(' ').unwrap_or((line, ""));
        let bytes = self.shelf.bytes_of(name).ok_or(Fault::Unread)?;
        self.caller.add(link(alloc, bytes, self.moves, call)?)?;
        self.door.add(link(alloc, bytes, self.moves, call)?)?;
        Ok(())
    }

    /// The caller's or the door's call of that number will fail.
    pub(crate) fn fail_end_at(&mut self, call: u64) -> Result<(), Fault> {
        self.caller.fail_at(call)?;
        self.door.fail_at(call)?;
        Ok(())
    }

    /// `LINK FILE`: whether the link of that number came back and the file is what was written over it.
    pub(crate) fn wrote(&self, line: &str) -> Result<bool, Fault> {
        let (count, name) = two(line)?;
        let wanted = self.shelf.bytes_of(name).ok_or(Fault::Unread)?;
        let at = place(count)?;
        let link = self.given_back(at);
        Ok(link.is_some_and(|link| link.written() == wanted))
    }

    /// `LINK`: whether no link of that number came back.
    pub(crate) fn is_unserved(&self, count: &str) -> Result<bool, Fault> {
        Ok(self.given_back(place(count)?).is_none())
    }

    fn given_back(&self, at: u32) -> Option<&MemLink> {
        self.caller.given_back(at).or(self.door.given_back(at))
    }

    /// The sink of the next command.
    pub fn sink(&self, alloc: Global) -> Result<MemSink, Fault> {
        let mut sink = MemSink::new(alloc);
        sink.piece(self.moves.max(1));
        if let Some(call) = self.sink_fails {
            sink.fail_at(call)?;
        }
        Ok(sink)
    }

    /// A command was run over the stage, with this status and these printed bytes. It is to be compared with what its
    /// case wants.
    pub fn ran(
        &mut self,
        alloc: Global,
        said: &str,
        status: u8,
        printed: &[u8],
    ) -> Result<(), Fault> {
        self.shown = Some(Shown::new(alloc, said, status, printed)?);
        Ok(())
    }
}

fn link(alloc: Global, bytes: &[u8], moves: usize, call: &str) -> Result<MemLink, Fault>
    ensures { IfOk result IsUnused }
{
    let mut link = MemLink::new(alloc, Bytes::of(alloc, bytes)?);
    link.piece(moves.max(1));
    if !call.is_empty() {
        link.fail_at(number(call)? as u64)?;
    }
    Ok(link)
}

// The place of a link that is counted from 1.
fn place(count: &str) -> Result<u32, Fault> {
    let count = count.parse::<u32>().map_err(|_| Fault::Unread)?;
    count.checked_sub(1).ok_or(Fault::Unread)
}
