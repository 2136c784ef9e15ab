//! The texts and queries of a trial, whose words are drawn from a sequence of numbers.

ghost use Rattle.std.specs.Prelude.{◌≡◌, ◌⊎◌, ◌+◌, ◌*◌, ◌<◌, string_bytes, IfOk, OnOk, IfErr};
ghost use Rattle.ats_terms.specs.Terms.{terms};
ghost use Rattle.ats_terms.specs.Counted.{Counts};
ghost use Rattle.ats_terms.specs.Faults.{IsFirstFault};
ghost use Rattle.ats_terms.specs.Query.{IsQueryOf, HasQuery};
ghost use Rattle.ats_impact.specs.Limits.{AreWithin};
ghost use Rattle.ats_impact.specs.Trial.{next, number_at, drawn, word_number, word, joined_words, trial_texts, trial_query};

use crate::memory::OutOfMemory;
use crate::texts::Texts;
use ats_terms::{Query, QueryFault};
use std::alloc::{AllocError, Global};
use std::marker::Model;

/// The sequence of a trial, at one of its numbers.
#[derive(Drop)]
struct Sequence {
    last: u64,
}

impl Model for Sequence {
    ghost use Rattle.std.specs.Prelude.{ℕ};

    ghost Value = { ℕ };

    ghost view = { λ s. s.last };
}

const FACTOR: u64 = 6364136223846793005;

const INCREMENT: u64 = 1442695040888963407;

impl Sequence {
    fn new(number: u32) -> Self
        ensures { result ≡ number }
    {
        Sequence {
            last: u64::from(number),
        }
    }

    fn draw(&mut self) -> u32
        ensures value { result ≡ drawn self.new }
        ensures moved { self.new ≡ next self.old }
    {
        self.last = self.last.wrapping_mul(FACTOR).wrapping_add(INCREMENT);
        (self.last >> 33) as u32
    }

    // The number of the next word, which is below 1000.
    fn word(&mut self) -> u32
        ensures value { result ≡ word_number self.old 0 }
        ensures moved { self.new ≡ number_at self.old 2 }
    {
        let a = self.draw() % 1000;
        let b = self.draw() % 1000;
        a * b / 1000
    }

    // The next `count` words, joined by single spaces.
    fn words(&mut self, alloc: Global, count: u32) -> Result<String, AllocError>
        ensures value { IfOk result (λ text. string_bytes text ≡ joined_words self.old 0 count) }
        ensures moved { OnOk result (self.new ≡ number_at self.old (2 * count)) }
    {
        let mut text = String::new(alloc);
        for i in 0..count {
            let number = self.word();
            let word = if i == 0 {
                format!(in alloc; "w{number}")?
            } else {
                format!(in alloc; " w{number}")?
            };
            text.push_str(word.as_str())?;
        }
        Ok(text)
    }

    // Skips `count` words.
    fn pass(&mut self, count: u32)
        ensures { self.new ≡ number_at self.old (2 * count) }
    {
        for i in 0..count {
            self.word();
        }
    }
}

const TEXTS: u32 = 2000;

const TEXT_WORDS: u32 = 50;

const QUERY_WORDS: u32 = 3;

/// The 2,000 texts of 50 words each that a trial's number determines. They make a collection.
pub fn trial_texts(alloc: Global, number: u32) -> Result<Texts, OutOfMemory>
    ensures value { IfOk result (λ texts. texts ≡ trial_texts number) }
    ensures within { AreWithin (trial_texts number) }
{
    let mut sequence = Sequence::new(number);
    let mut texts = Texts::new(alloc);
    for i in 0..TEXTS {
        let text = sequence.words(alloc, TEXT_WORDS)?;
        texts.push(text.as_str())?;
    }
    Ok(texts)
}

/// Query `i` of a trial, counted from 0: its three words follow those of all texts and of the queries before it.
pub fn trial_query(alloc: Global, number: u32, i: u32) -> Result<Query, QueryFault>
    requires { i < 20 }
    ensures ok { IfOk result (IsQueryOf (trial_query number i)) }
    ensures counts { IfOk result (Counts (terms (trial_query number i))) }
    ensures fault { IfErr result (IsFirstFault (trial_query number i)) }
    ensures out { IfErr result (λ fault. fault ≡ QueryFault.OutOfMemory ⊎ ¬ HasQuery (trial_query number i)) }
{
    let mut sequence = Sequence::new(number);
    sequence.pass(TEXTS * TEXT_WORDS + QUERY_WORDS * i);
    match sequence.words(alloc, QUERY_WORDS) {
        Ok(text) => Query::read(alloc, text.as_str()),
        Err(_) => Err(QueryFault::OutOfMemory),
    }
}
