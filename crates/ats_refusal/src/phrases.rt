//! Phrases: words with numbers between them.

ghost use Rattle.std.specs.Prelude.{◌≡◌, ◌++◌, decimal, IfOk, string_bytes};
ghost use Rattle.ats_refusal.specs.Inner.Phrase.{text_of_form};

use std::alloc::{AllocError, Global};
use std::marker::Model;

/// Words with at most two numbers between them, in decimal.
#[derive(Drop)]
pub(crate) enum Form {
    Plain(&'static str),
    Number(&'static str, u64),
    Numbers(&'static str, u64, &'static str, u64),
    Around(&'static str, u64, &'static str),
}

#[derive(Drop)]
enum Lead {
    Nothing,
    Around(&'static str, u64, &'static str),
}

/// Words with at most two numbers between them, in decimal, perhaps after words around a number. A phrase needs no memory
/// until it is printed.
#[derive(Drop)]
pub struct Phrase {
    lead: Lead,
    form: Form,
}

impl Model for Phrase {
    ghost use Rattle.std.specs.Prelude.{ℕ, List};
    ghost use Rattle.ats_refusal.specs.Inner.Phrase.{text_of_form, led};

    ghost Value = { List ℕ };

    ghost view = { λ phrase. led phrase.lead (text_of_form phrase.form) };
}

impl Phrase {
    pub(crate) fn of(form: Form) -> Phrase
        ensures { result ≡ text_of_form form }
    {
        Phrase {
            lead: Lead::Nothing,
            form,
        }
    }

    /// A form after words around a number.
    pub(crate) fn led(front: &'static str, number: u64, end: &'static str, form: Form) -> Phrase
        ensures { result ≡ front.now ++ (decimal number ++ (end.now ++ text_of_form form)) }
    {
        Phrase {
            lead: Lead::Around(front, number, end),
            form,
        }
    }

    /// Words alone.
    pub fn plain(words: &'static str) -> Phrase
        ensures { result ≡ words.now }
    {
        Phrase::of(Form::Plain(words))
    }

    /// Words and a number.
    pub fn number(words: &'static str, number: u64) -> Phrase
        ensures { result ≡ words.now ++ decimal number }
    {
        Phrase::of(Form::Number(words, number))
    }

    /// Words and a number, twice.
    pub fn numbers(front: &'static str, first: u64, middle: &'static str, second: u64) -> Phrase
        ensures { result ≡ front.now ++ (decimal first ++ (middle.now ++ decimal second)) }
    {
        Phrase::of(Form::Numbers(front, first, middle, second))
    }

    /// Words around a number.
    pub fn around(front: &'static str, number: u64, end: &'static str) -> Phrase
        ensures { result ≡ front.now ++ (decimal number ++ end.now) }
    {
        Phrase::of(Form::Around(front, number, end))
    }

    /// The text that it is printed as.
    pub fn text(self, alloc: Global) -> Result<String, AllocError>
        ensures { IfOk result (λ text. string_bytes text ≡ self) }
    {
        let words = form_text(alloc, self.form)?;
        match self.lead {
            Lead::Nothing => Ok(words),
            Lead::Around(front, number, end) => format!(in alloc; "{front}{number}{end}{words}"),
        }
    }
}

fn form_text(alloc: Global, form: Form) -> Result<String, AllocError>
    ensures { IfOk result (λ text. string_bytes text ≡ text_of_form form) }
{
    match form {
        Form::Plain(words) => format!(in alloc; "{words}"),
        Form::Number(words, number) => format!(in alloc; "{words}{number}"),
        Form::Numbers(front, first, middle, second) => {
            format!(in alloc; "{front}{first}{middle}{second}")
        }
        Form::Around(front, number, end) => format!(in alloc; "{front}{number}{end}"),
    }
}
