//! The marks of a check.

ghost use Rattle.std.specs.Prelude.{◌≡◌, ◌+◌, ◌<◌, ◌≤◌, ◌^◌, length, replicate, slice_set, IfOk};
ghost use Rattle.std.specs.Vec.{vec_capacity};
ghost use Rattle.ats_bound.specs.Work.{zero_mark, begun, mark_at};

use crate::memory::OutOfMemory;
use ats_hash::Steps;
use std::alloc::Global;
use std::marker::Model;

/// What a check notes of a document.
#[derive(Clone, Copy, Debug, PartialEq, Eq)]
pub struct Mark {
    /// The least that the document scores, by the entries read so far.
    pub lo: u64,
    /// The sum of the rests of the lists that name the document.
    pub held: u64,
    /// A list, for the notes of the call that uses the work.
    pub list: u32,
    /// A row, for the notes of the call that uses the work.
    pub row: bool,
}

const ZERO: Mark = Mark {
    lo: 0,
    held: 0,
    list: 0,
    row: false,
};

/// Memory for the marks of a check, allocated once and used for many checks.
///
/// Its room is the capacity of its memory, in marks. So the memory has not grown in a call that leaves the room as it was.
#[derive(Drop)]
pub struct Work {
    marks: Vec<Mark>,
}

impl Model for Work {
    ghost use Rattle.std.specs.Prelude.{◌<◌, ◌^◌};
    ghost use Rattle.std.specs.Vec.{vec_capacity};
    ghost use Rattle.ats_bound.specs.Work.{Marked};

    ghost Value = { Marked };

    ghost view = { λ w. record { marks = w.marks.items; room = vec_capacity w.marks } };

    ghost invariant = { λ w. vec_capacity w.marks < 2 ^ 32 };
}

// Replaces the marks by n zero marks, in the memory that they have, and ticks for each.
fn zero(marks: &mut Vec<Mark>, n: u32, steps: &mut Steps)
    requires space { n ≤ vec_capacity marks.old }
    requires count { steps.old + n < 2 ^ 64 }
    ensures marks { marks.new.items ≡ replicate n zero_mark }
    ensures capacity { vec_capacity marks.new ≡ vec_capacity marks.old }
    ensures steps { steps.new ≡ steps.old + n }
{
    marks.clear();
    for _i in 0..n {
        marks.push_reserved(ZERO);
        steps.tick();
    }
}

impl Work {
    /// Room for `n` marks, none of them begun.
    pub fn with_room(alloc: Global, n: u32) -> Result<Self, OutOfMemory>
        ensures { IfOk result (λ work. work ≡ begun 0 n) }
    {
        let marks = Vec::with_capacity(alloc, n as usize)?;
        Ok(Work { marks })
    }

    /// How many marks may be begun.
    pub fn room(&self) -> u32
        ensures { result ≡ self.now.room }
    {
        self.marks.capacity() as u32
    }

    /// Begins `n` marks in the memory that there is. The earlier marks are lost.
    pub fn begin(&mut self, n: u32, steps: &mut Steps)
        requires space { n ≤ self.old.room }
        requires count { steps.old ≤ 2 ^ 63 }
        ensures marks { self.new ≡ begun n self.old.room }
        ensures steps { steps.new ≡ steps.old + n }
    {
        zero(&mut self.marks, n, steps);
    }

    /// The mark at place `i`, counted from 0.
    pub fn get(&self, i: u32, steps: &mut Steps) -> Mark
        requires inside { i < length self.now.marks }
        requires count { steps.old + 1 < 2 ^ 64 }
        ensures mark { result ≡ mark_at self.now.marks i }
        ensures steps { steps.new ≡ steps.old + 1 }
    {
        steps.tick();
        self.marks[i as usize]
    }

    /// Puts a mark at place `i`, counted from 0.
    pub fn put(&mut self, i: u32, mark: Mark, steps: &mut Steps)
        requires inside { i < length self.old.marks }
        requires count { steps.old + 1 < 2 ^ 64 }
        ensures marks { self.new ≡ record { marks = slice_set self.old.marks i mark; room = self.old.room } }
        ensures steps { steps.new ≡ steps.old + 1 }
    {
        steps.tick();
        self.marks[i as usize] = mark;
    }
}
