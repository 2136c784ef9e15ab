//! A list of texts, which are added one by one.

ghost use Rattle.std.specs.Prelude.{◌≡◌, ◌<◌, ◌++◌, ◌∷◌, [], List, ℕ, length, slice_index_or, string_bytes, is_ok, if◌then◌else◌};
ghost use Rattle.std.specs.List.{All};
ghost use Rattle.std.specs.Str.{IsUtf8};

use crate::memory::OutOfMemory;
use std::alloc::Global;
use std::marker::Model;

#[derive(Drop)]
pub(crate) struct Text {
    text: String,
}

impl Model for Text {
    ghost Value = { List ℕ };

    ghost view = { λ t. string_bytes t.text };
}

impl Text {
    pub(crate) fn len(&self) -> usize
        ensures { result ≡ length self.now }
    {
        self.text.len()
    }

    pub(crate) fn as_str(&self) -> &str
        ensures { result.now ≡ self.now }
    {
        self.text.as_str()
    }
}

/// A list of texts, in any number and of any length.
#[derive(Drop)]
pub struct Texts {
    items: Vec<Text>,
    alloc: Global,
}

impl Model for Texts {
    ghost use Rattle.std.specs.Prelude.{List, ℕ};
    ghost use Rattle.std.specs.List.{All};
    ghost use Rattle.std.specs.Str.{IsUtf8};

    ghost Value = { List (List ℕ) };

    ghost view = { λ t. t.items.items };

    ghost invariant = { λ t. All IsUtf8 t.items.items };
}

impl Texts {
    pub fn new(alloc: Global) -> Self
        ensures { result ≡ [] }
    {
        Texts {
            items: Vec::new(alloc),
            alloc,
        }
    }

    /// Appends a copy of the text. If memory runs out, the list stays as it was.
    pub fn push(&mut self, text: &str) -> Result<(), OutOfMemory>
        ensures { self.new ≡ (if is_ok result then self.old ++ text.now ∷ [] else self.old) }
    {
        let text = String::from_str(self.alloc, text)?;
        self.items.push(Text { text })?;
        Ok(())
    }

    /// The number of texts.
    pub fn len(&self) -> usize
        ensures value { result ≡ length self.now }
        ensures utf8 { All IsUtf8 self.now }
    {
        self.items.len()
    }

    /// Text `i`, counted from 0.
    pub fn get(&self, i: usize) -> &str
        requires { i < length self.now }
        ensures { result.now ≡ slice_index_or self.now i result.now }
    {
        self.items[i].as_str()
    }

    pub(crate) fn into_items(self) -> Vec<Text>
        ensures same { result.items ≡ self }
        ensures utf8 { All IsUtf8 self }
    {
        let Texts { items, alloc: _ } = self;
        items
    }
}
