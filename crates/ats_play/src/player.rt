//! Plays the lines of a block.

use crate::fault::Fault;
use crate::files;
use crate::said::{number, two, words};
use crate::stage::Stage;
use crate::texts::show_terms;
use ats_base::MemShelf;
use ats_tally::Tally;
use std::alloc::Global;

const ARCHIVE: &str = "examples/archive.json";

/// Plays lines. Notes are kept from block to block.
#[derive(Drop)]
pub struct Player {
    /// What all that is played allocates from.
    pub alloc: Global,
    notes: MemShelf,
    /// What the next command is run over.
    pub stage: Stage,
    tally: Tally,
}

impl Player {
    /// A player whose shelves have the archive.
    pub fn new(alloc: Global, archive: &[u8]) -> Result<Self, Fault> {
        let mut notes = MemShelf::new(alloc);
        notes.put(ARCHIVE, archive)?;
        Ok(Player {
            alloc,
            notes,
            stage: Stage::new(alloc, 1),
            tally: Tally::new(alloc),
        })
    }

    /// The count of the commands that were settled.
    pub fn tally(&self) -> &Tally {
        &self.tally
    }

    /// Begins a block, with a shelf that has the archive and no other file.
    pub fn begin(&mut self, moves: usize) -> Result<(), Fault> {
        self.stage = Stage::new(self.alloc, moves);
        let archive = self.notes.bytes_of(ARCHIVE).ok_or(Fault::Unread)?;
        self.stage.shelf.put(ARCHIVE, archive)?;
        Ok(())
    }

    /// Counts the last command, if there is one that is not counted.
    pub fn settle(&mut self) -> Result<(), Fault> {
        match self.stage.take_shown(self.alloc) {
            Some(shown) => Ok(self.tally.count(self.alloc, &shown)?),
            None => Ok(()),
        }
    }

    /// Does what the line says, or reports it. If the line is that of a command, returns its words, which are then to be
    /// run over the stage.
    pub fn line(&mut self, line: &str) -> Result<Option<Vec<String>>, Fault> {
        match self.try_line(line) {
            Err(Fault::Unread) => {
                self.tally.refuse(line)?;
                Ok(None)
            }
            done => done,
        }
    }

    fn try_line(&mut self, line: &str) -> Result<Option<Vec<String>>, Fault> {
        if let Some(said) = line.strip_prefix("$ ./ats") {
            self.settle()?;
            Ok(Some(words(self.alloc, &self.notes, said)?))
        } else {
            self.other_line(line)?;
            Ok(None)
        }
    }

    // A line that is no command.
    fn other_line(&mut self, line: &str) -> Result<(), Fault> {
        match line.strip_prefix(": ") {
            Some(said) => {
                let (verb, rest) = said.split_once(' ').unwrap_or((said, ""));
                self.prepare_or_want(verb, rest)
            }
            None => self.want_line(line),
        }
    }

    // An empty line is for people, and `@NAME` stands for the text of that note.
    fn want_line(&mut self, line: &str) -> Result<(), Fault> {
        if line.is_empty() {
            return Ok(());
        }
        match line.strip_prefix('@') {
            Some(note) => self.want_note(note)?,
            None => self.stage.want(line)?,
        }
        self.stage.want("\n")
    }

    fn want_note(&mut self, note: &str) -> Result<(), Fault> {
        let text = self.notes.bytes_of(note).ok_or(Fault::Unread)?;
        self.stage.want_bytes(text)
    }

    // Expectations of the last command are tried before the verbs that prepare the next.
    fn prepare_or_want(&mut self, verb: &str, rest: &str) -> Result<(), Fault> {
        match verb {
            "status" => self.want_status(rest),
            "part" => self.stage.want(rest),
            "prints" => self.want_bytes(rest),
            "prints-file" => self.stage.want_file(rest),
            "lines" => self.want_lines(rest),
            "holds" | "size" | "none" | "wrote" | "unserved" => self.want_left(verb, rest),
            _ => self.prepare(verb, rest),
        }
    }

    fn want_status(&mut self, rest: &str) -> Result<(), Fault> {
        let status = rest.parse::<u8>().map_err(|_| Fault::Unread)?;
        self.stage.want_status(status)
    }

    // These bytes, printed as they are.
    fn want_bytes(&mut self, digits: &str) -> Result<(), Fault> {
        let bytes = hex::decode(self.alloc, digits).map_err(|_| Fault::Unread)?;
        self.stage.want_bytes(&bytes)
    }

    // `COUNT TEXT`: COUNT lines, each with its number.
    fn want_lines(&mut self, rest: &str) -> Result<(), Fault> {
        let (count, text) = two(rest)?;
        for at in 0..number(count)? {
            let place = at + 1;
            let line = format!(in self.alloc; "{place} {text}\n")?;
            self.stage.want(line.as_str())?;
        }
        Ok(())
    }

    // Whether a file or a link is as it should be after the last command.
    fn want_left(&mut self, verb: &str, rest: &str) -> Result<(), Fault> {
        let fits = match verb {
            "holds" => files::holds(&self.stage.shelf, &self.notes, rest)?,
            "size" => files::has_size(&self.stage.shelf, rest)?,
            "wrote" => self.stage.wrote(rest)?,
            "unserved" => self.stage.is_unserved(rest)?,
            _ => self.stage.shelf.bytes_of(rest).is_none(),
        };
        self.stage.note_fit(fits)
    }

    fn prepare(&mut self, verb: &str, rest: &str) -> Result<(), Fault> {
        self.settle()?;
        match verb {
            "moves" => Ok(()),
            "terms" => {
                let shown = show_terms(self.alloc, rest)?;
                self.stage.show(shown);
                Ok(())
            }
            "weak" => {
                self.stage.is_weak = true;
                Ok(())
            }
            "shelf-fails" => {
                self.stage.shelf.fail_at(number(rest)? as u64)?;
                Ok(())
            }
            "sink-fails" => {
                self.stage.sink_fails = Some(number(rest)? as u64);
                Ok(())
            }
            "link" => self.stage.add_link(self.alloc, rest),
            "end-fails" => self.stage.fail_end_at(number(rest)? as u64),
            _ => self.prepare_file(verb, rest),
        }
    }

    fn prepare_file(&mut self, verb: &str, rest: &str) -> Result<(), Fault> {
        let (alloc, shelf) = (self.alloc, &mut self.stage.shelf);
        match verb {
            "note" => put_text(&mut self.notes, rest),
            "file" => put_text(shelf, rest),
            "bytes" => files::bytes(alloc, shelf, rest),
            "put" => files::copy(shelf, &self.notes, rest),
            "keep" => files::copy(&mut self.notes, shelf, rest),
            "add" => files::add(alloc, shelf, rest),
            "join" => files::join(alloc, shelf, rest),
            "count" => files::count(alloc, shelf, rest),
            "patch" => files::patch(alloc, shelf, rest),
            _ => Err(Fault::Unread),
        }
    }
}

// `NAME TEXT`: what follows the name is the whole of the file.
fn put_text(shelf: &mut MemShelf, line: &str) -> Result<(), Fault> {
    let (name, text) = line.split_once(' ').unwrap_or((line, ""));
    shelf.put(name, text.as_bytes())?;
    Ok(())
}
