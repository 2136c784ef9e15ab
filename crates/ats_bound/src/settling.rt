//! Whether an answer is settled.

ghost use Rattle.std.specs.Prelude.{◌≡◌, ◌⊎◌, ◌↔◌, ◌+◌, ◌<◌, ◌≤◌, ℕ, IsTrue, length};
ghost use Rattle.ats_impact.specs.Rank.{times};
ghost use Rattle.ats_bound.specs.Floors.{AreWithin, IsInSpan, span_at};
ghost use Rattle.ats_bound.specs.Settled.{bracket_at, row, AreDistinct, ArePicks, HaveDistinctDocs, IsOutside, IsSettled};

use crate::bracket::Bracket;
use crate::span::Span;
use ats_impact::Top;

// The bracket of a pick.
fn picked(brackets: &[Bracket], pick: u32) -> Bracket
    requires { pick < length brackets.now }
    ensures { result ≡ bracket_at brackets.now pick }
{
    brackets[pick as usize]
}

// Whether some pick is this place.
fn is_picked(picks: &[u32], place: usize) -> bool
    ensures { IsTrue result ↔ (1 ≤ times place picks.now) }
{
    for pick in picks {
        if *pick as usize == place {
            return true;
        }
    }
    false
}

// Whether no place is picked twice.
fn are_distinct(picks: &[u32]) -> bool
    ensures { IsTrue result ↔ AreDistinct picks.now }
{
    for (k, pick) in picks.iter().enumerate() {
        if is_picked(&picks[..k], *pick as usize) {
            return false;
        }
    }
    true
}

// Whether each of the first places is picked. It stops at the first that is not, which is soon if picks are few.
fn are_all_picked(places: usize, picks: &[u32]) -> bool
    ensures { IsTrue result ↔ ((i : ℕ) → i < places → 1 ≤ times i picks.now) }
{
    for place in 0..places {
        if !is_picked(picks, place) {
            return false;
        }
    }
    true
}

// Whether the answer has as many rows as it may have, or every bracket while no other document can score.
fn is_whole(brackets: &[Bracket], picks: &[u32], threshold: u64, rows: usize) -> bool
    ensures { IsTrue result ↔ ((length picks.now ≡ rows)
        ⊎ (((i : ℕ) → i < length brackets.now → 1 ≤ times i picks.now) × (threshold ≡ 0))) }
{
    if picks.len() == rows {
        return true;
    }
    if threshold > 0 {
        return false;
    }
    are_all_picked(brackets.len(), picks)
}

// Whether no row can score more than the least that the row before it scores.
fn rows_fall(brackets: &[Bracket], picks: &[u32]) -> bool
    requires { ArePicks brackets.now picks.now }
    ensures { IsTrue result ↔ ((k : ℕ) → k + 1 < length picks.now
        → (row brackets.now picks.now (k + 1)).hi ≤ (row brackets.now picks.now k).lo) }
{
    for k in 1..picks.len() {
        if picked(brackets, picks[k]).hi > picked(brackets, picks[k - 1]).lo {
            return false;
        }
    }
    true
}

// Whether no bracket outside the answer goes above this score.
fn rest_is_within(brackets: &[Bracket], picks: &[u32], score: u64) -> bool
    ensures { IsTrue result ↔ ((i : ℕ) → IsOutside brackets.now picks.now i → (bracket_at brackets.now i).hi ≤ score) }
{
    for (place, bracket) in brackets.iter().enumerate() {
        if bracket.hi > score && !is_picked(picks, place) {
            return false;
        }
    }
    true
}

/// Whether a bracket lies within a span.
pub(crate) fn is_in_span(bracket: Bracket, span: Span) -> bool
    ensures { IsTrue result ↔ IsInSpan span bracket }
{
    span.lower <= bracket.lo && bracket.hi <= span.upper
}

// Whether each row is within its span.
fn rows_are_in_spans(brackets: &[Bracket], picks: &[u32], spans: &[Span]) -> bool
    requires picks { ArePicks brackets.now picks.now }
    requires size { length picks.now ≡ length spans.now }
    ensures { IsTrue result ↔ ((k : ℕ) → k < length picks.now
        → IsInSpan (span_at spans.now k) (row brackets.now picks.now k)) }
{
    for (k, pick) in picks.iter().enumerate() {
        if !is_in_span(picked(brackets, *pick), spans[k]) {
            return false;
        }
    }
    true
}

/// Whether the picks are as many rows as there are spans, each within its own, and no other document can score above
/// the floor.
pub(crate) fn within(
    brackets: &[Bracket],
    picks: &[u32],
    threshold: u64,
    spans: &[Span],
    floor: u64,
) -> bool
    requires picks { ArePicks brackets.now picks.now }
    ensures { IsTrue result ↔ AreWithin brackets.now picks.now threshold
        (record { spans = spans.now; floor = floor }) }
{
    if threshold > floor || picks.len() != spans.len() {
        return false;
    }
    rows_are_in_spans(brackets, picks, spans) && rest_is_within(brackets, picks, floor)
}

/// Whether the picks are an answer of at most so many rows that no document outside it, met or not, can change.
pub(crate) fn rows_settled(brackets: &[Bracket], picks: &[u32], threshold: u64, rows: usize) -> bool
    requires picks { ArePicks brackets.now picks.now }
    requires distinct { HaveDistinctDocs brackets.now }
    ensures { IsTrue result ↔ IsSettled brackets.now picks.now threshold rows }
{
    if picks.len() > rows || !rows_fall(brackets, picks) || !are_distinct(picks) {
        return false;
    }
    if !is_whole(brackets, picks, threshold, rows) {
        return false;
    }
    if picks.is_empty() {
        return true;
    }
    let score = picked(brackets, picks[picks.len() - 1]).lo;
    threshold <= score && rest_is_within(brackets, picks, score)
}

/// Whether the picks are an answer that no document outside it, met or not, can change.
///
/// The brackets are those of all met documents, and the threshold is the most that any other document can score.
pub fn settled(brackets: &[Bracket], picks: &[u32], threshold: u64, top: Top) -> bool
    requires picks { ArePicks brackets.now picks.now }
    requires distinct { HaveDistinctDocs brackets.now }
    ensures { IsTrue result ↔ IsSettled brackets.now picks.now threshold top }
{
    rows_settled(brackets, picks, threshold, top.get() as usize)
}
