//! A row put into its place.

ghost use Rattle.std.specs.Prelude.{◌≡◌, ◌≢◌, ◌⊎◌, ◌↔◌, ◌<◌, ◌≤◌, ◌+◌, ◌++◌, ◌∷◌, ◌^◌, ℕ, length, take, drop, IsTrue, true, false, if◌then◌else◌};
ghost use Rattle.ats_catalog_check.specs.Merge.{precedes, row_at, AreFalling};
ghost use Rattle.ats_catalog_check.specs.Inner.Places.{IsPlace, IsBetween, put_in};

use crate::row::{CatalogRow, CatalogRows};
use ats_hash::Steps;

// Whether a row comes before one of a lesser shard.
fn precedes(later: CatalogRow, row: CatalogRow) -> bool
    ensures { result ≡ precedes later row }
{
    row.lower < later.lower || (later.lower == row.lower && row.upper < later.upper)
}

// Puts a row at a place. The rows from there on move by one.
fn put_in(items: &mut [CatalogRow], len: usize, place: usize, row: CatalogRow)
    requires space { len < length items.old }
    requires inside { place ≤ len }
    ensures rows { take (len + 1) items.new ≡ put_in row (take len items.old) place }
    ensures room { length items.new ≡ length items.old }
{
    items[len] = row;
    items[place..len + 1].rotate_right(1);
}

// The place of a row among rows of its shard and of lesser ones. Each row that it passes, and the one that it does not, is
// one step.
fn place(rows: &CatalogRows, row: CatalogRow, steps: &mut Steps) -> u32
    requires count { steps.old + length rows.now.rows < 2 ^ 64 }
    ensures place { IsPlace row rows.now.rows result }
    ensures least { steps.old ≤ steps.new }
    ensures most { steps.new ≤ steps.old + length rows.now.rows }
{
    let mut place = rows.len();
    while place > 0 {
        steps.tick();
        let above = rows.get(place - 1);
        if above.shard == row.shard || !precedes(row, above) {
            return place;
        }
        place -= 1;
    }
    place
}

// Whether a row at a place scores no more than the row before it, and no less than the row after it.
fn is_between(rows: &CatalogRows, row: CatalogRow, place: u32) -> bool
    requires inside { place ≤ length rows.now.rows }
    ensures { IsTrue result ↔ IsBetween row rows.now.rows place }
{
    (place == 0 || row.upper <= rows.get(place - 1).lower)
        && (place == rows.len() || rows.get(place).upper <= row.lower)
}

// Puts a row at a place, if there is room for one more.
fn put(rows: &mut CatalogRows, place: u32, row: CatalogRow)
    requires inside { place ≤ length rows.old.rows }
    requires room { length rows.old.rows < rows.old.room }
    ensures rows { rows.new.rows ≡ put_in row rows.old.rows place }
    ensures room { rows.new.room ≡ rows.old.room }
{
    let len = rows.len() as usize;
    put_in(&mut rows.items, len, place as usize, row);
    rows.len += 1;
}

/// Puts a row into its place among rows that fall, if then they fall too and are at most `top`; else changes nothing.
pub(crate) fn insert(rows: &mut CatalogRows, row: CatalogRow, top: u32, steps: &mut Steps) -> bool
    requires room { top ≤ rows.old.room }
    requires falling { AreFalling top rows.old.rows }
    requires ordered { row.lower ≤ row.upper }
    requires count { steps.old + length rows.old.rows < 2 ^ 64 }
    ensures put { (place : ℕ) → IsPlace row rows.old.rows place
        → (IsTrue result ↔ AreFalling top (put_in row rows.old.rows place)) × (result ≡ true → rows.new.rows ≡ put_in row rows.old.rows place) }
    ensures room { rows.new.room ≡ rows.old.room }
    ensures least { steps.old ≤ steps.new }
    ensures most { steps.new ≤ steps.old + length rows.old.rows }
{
    let place = place(rows, row, steps);
    if rows.len() == top || !is_between(rows, row, place) {
        return false;
    }
    put(rows, place, row);
    true
}
