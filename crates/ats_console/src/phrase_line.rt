//! Lines of phrases.

ghost use Rattle.std.specs.Prelude.{◌≡◌, ◌++◌, IfOk, string_bytes};

use ats_refusal::Phrase;
use std::alloc::{AllocError, Global};
use std::marker::Model;

/// A line of a phrase, between the first word and the end of the line. It needs no memory until it is printed.
#[derive(Drop)]
pub struct PhraseLine {
    front: &'static str,
    phrase: Phrase,
    end: &'static str,
}

impl Model for PhraseLine {
    ghost use Rattle.std.specs.Prelude.{◌++◌, ℕ, List};

    ghost Value = { List ℕ };

    ghost view = { λ said. said.front.now ++ (said.phrase ++ said.end.now) };
}

impl PhraseLine {
    pub fn new(front: &'static str, phrase: Phrase, end: &'static str) -> PhraseLine
        ensures { result ≡ front.now ++ (phrase ++ end.now) }
    {
        PhraseLine { front, phrase, end }
    }

    /// The text that it is printed as.
    pub fn text(self, alloc: Global) -> Result<String, AllocError>
        ensures { IfOk result (λ text. string_bytes text ≡ self) }
    {
        let (front, end) = (self.front, self.end);
        let words = self.phrase.text(alloc)?;
        format!(in alloc; "{front}{words}{end}")
    }
}
