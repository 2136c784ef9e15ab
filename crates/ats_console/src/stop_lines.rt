//! Lines, as stops carry them.

ghost use Rattle.std.specs.Prelude.{◌≡◌, ◌++◌, IfOk};

use crate::phrase_line::PhraseLine;
use ats_refusal::Phrase;
use std::alloc::{AllocError, Global};
use std::marker::Model;

#[derive(Drop)]
enum Text {
    PhraseLine(PhraseLine),
    Made(Vec<u8>),
}

/// One line or more, as bytes. Words and numbers take no memory, and are formatted when they are printed; lines of a
/// collision or a sweep are made before.
#[derive(Drop)]
pub struct Line {
    text: Text,
}

impl Model for Line {
    ghost use Rattle.std.specs.Prelude.{ℕ, List};
    ghost use Rattle.ats_console.specs.Inner.Line.{text_of_line};

    ghost Value = { List ℕ };

    ghost view = { λ line. text_of_line line.text };
}

impl Line {
    /// A line of a phrase, between the first word and the end of the line. It needs no memory until it is printed.
    pub fn said(front: &'static str, phrase: Phrase, end: &'static str) -> Line
        ensures { result ≡ front.now ++ (phrase ++ end.now) }
    {
        Line {
            text: Text::PhraseLine(PhraseLine::new(front, phrase, end)),
        }
    }

    /// Lines that were made before.
    pub fn made(bytes: Vec<u8>) -> Line
        ensures { result ≡ bytes.items }
    {
        Line {
            text: Text::Made(bytes),
        }
    }

    /// The bytes that are printed.
    pub fn into_bytes(self, alloc: Global) -> Result<Vec<u8>, AllocError>
        ensures { IfOk result (λ bytes. bytes.items ≡ self) }
    {
        match self.text {
            Text::PhraseLine(said) => Ok(said.text(alloc)?.into_bytes()),
            Text::Made(bytes) => Ok(bytes),
        }
    }
}
