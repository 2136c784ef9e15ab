//! The chosen answer.

ghost use Rattle.std.specs.Prelude.{◌≡◌, ◌<◌, ◌^◌, ℕ, List, length, map, IfOk, OnOk};
ghost use Rattle.std.specs.List.{range_with_len, All};
ghost use Rattle.std.specs.List.Sorted.{IsPermutation, IsSorted};
ghost use Rattle.ats_bound.specs.Settled.{ArePicks, HaveDistinctDocs, IsSettled};
ghost use Rattle.ats_bound.specs.Chosen.{AreBrackets, IsChosen};
ghost use Rattle.ats_bound.specs.Inner.Placed.{placed_cmp, IsPlaced};

use crate::bracket::Bracket;
use crate::memory::OutOfMemory;
use crate::picks::Picks;
use ats_impact::Top;
use std::alloc::Global;
use std::cmp::Reverse;

// A bracket with its place in the list.
#[derive(Clone, Copy)]
struct Placed {
    lo: u64,
    hi: u64,
    doc: u32,
    place: u32,
}

// The document of a bracket, which is one of 2^32.
fn document(bracket: &Bracket) -> u32
    ensures same { result ≡ bracket.now.doc }
    ensures in_range { result < 2 ^ 32 }
{
    bracket.doc
}

// Each bracket with its place.
fn with_places(alloc: Global, brackets: &[Bracket]) -> Result<Vec<Placed>, OutOfMemory>
    requires { HaveDistinctDocs brackets.now }
    ensures places { IfOk result (λ all. map (λ p. p.place) all.items ≡ range_with_len 0 (length brackets.now)) }
    ensures brackets { IfOk result (λ all. All (IsPlaced brackets.now) all.items) }
{
    let mut all: Vec<Placed> = Vec::with_capacity(alloc, brackets.len())?;
    for (place, bracket) in brackets.iter().enumerate() {
        all.push(Placed {
            lo: bracket.lo,
            hi: bracket.hi,
            doc: document(bracket),
            place: place as u32,
        })?;
    }
    Ok(all)
}

// Puts brackets in order, by lower bound descending, then upper bound descending, then document.
fn sort_placed(all: &mut Vec<Placed>) -> Result<(), OutOfMemory>
    ensures same { IsPermutation all.old.items all.new.items }
    ensures ordered { OnOk result (IsSorted placed_cmp all.new.items) }
{
    all.sort_by_key(|p| (Reverse(p.lo), Reverse(p.hi), p.doc))?;
    Ok(())
}

// Only the places.
fn places_of(alloc: Global, all: &[Placed]) -> Result<Picks, OutOfMemory>
    ensures { IfOk result (λ picks. picks ≡ map (λ p. p.place) all.now) }
{
    let mut picks = Picks::new(alloc);
    for placed in all {
        picks.push(placed.place)?;
    }
    Ok(picks)
}

/// The places of the first brackets, as [`choose`] orders them, for any number of rows.
pub(crate) fn choose_rows(
    alloc: Global,
    brackets: &[Bracket],
    rows: usize,
) -> Result<Picks, OutOfMemory>
    requires { HaveDistinctDocs brackets.now }
    ensures { IfOk result (IsChosen brackets.now rows) }
{
    let mut all = with_places(alloc, brackets)?;
    sort_placed(&mut all)?;
    all.truncate(rows);
    places_of(alloc, &all)
}

/// The places of the first brackets by lower bound descending, then upper bound descending, then
/// document ascending.
///
/// If any answer is settled, this one is too: a walk need try no other.
pub fn choose(alloc: Global, brackets: &[Bracket], top: Top) -> Result<Picks, OutOfMemory>
    requires distinct { HaveDistinctDocs brackets.now }
    requires proper { AreBrackets brackets.now }
    ensures chosen { IfOk result (λ picks. IsChosen brackets.now top picks) }
    ensures places { IfOk result (λ picks. ArePicks brackets.now picks) }
    ensures settled { IfOk result (λ picks. (threshold : ℕ) (answer : List ℕ) → ArePicks brackets.now answer
        → IsSettled brackets.now answer threshold top → IsSettled brackets.now picks threshold top) }
{
    choose_rows(alloc, brackets, top.get() as usize)
}
