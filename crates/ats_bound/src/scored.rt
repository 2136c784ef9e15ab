//! A walk that is given the score of each document that an entry names.

ghost use Rattle.std.specs.Prelude.{◌≡◌, ◌≢◌, ◌↔◌, ◌||◌, ◌==◌, ◌<◌, ◌≤◌, ◌+◌, ◌^◌, ◌∷◌, [], ℕ, Bool, true, false, List, length, map, set, slice_index, is_some, IfOk, IfSome, IsNone, OnOk, OnErr, IsTrue, MatchOption};
ghost use Rattle.std.specs.List.{All, Contains, list_any};
ghost use Rattle.std.specs.List.Sorted.{IsStrictlySortedBy};
ghost use Rattle.std.specs.Map.{keys_of, values_of};
ghost use Rattle.std.specs.Ordering.{nat_cmp};
ghost use Rattle.ats_bound.specs.Inner.Best.{AreBest};
ghost use Rattle.ats_bound.specs.Chosen.{IsChosen};
ghost use Rattle.ats_bound.specs.Cut.{names, threshold};
ghost use Rattle.ats_bound.specs.Cursors.{IsStage, entry_on, shown_on};
ghost use Rattle.ats_bound.specs.Floors.{IsWithinBy, floors_of_share};
ghost use Rattle.ats_bound.specs.Schedule.{AreAllShown, AreBracketsBy, AreWholeLanes, Bounding, IsNextLane, IsOpen, first_cut, has_bracket, shown, whole_lanes};
ghost use Rattle.ats_bound.specs.Settled.{ArePicks, IsSettled};
ghost use Rattle.ats_bound.specs.Scored.{AreFirstScores, exact, exactly};
ghost use Rattle.ats_bound.specs.Inner.Scored.{AreScored, exact_brackets, score_in};
ghost use Rattle.ats_bound.specs.QuickTest.{PassesQuickTest, TellsSettled};

use crate::best::Best;
use crate::bracket::{Bracket, Brackets};
use crate::choosing::choose_rows;
use crate::cursors::Cursors;
use crate::lane::Lane;
use crate::memory::OutOfMemory;
use crate::walk::Walk;
use std::alloc::Global;
use std::collections::BTreeMap;
use std::marker::Model;

/// A walk that is given the score of each document that an entry names.
///
/// It begins with one entry of each list. With each further entry the caller passes the score of the document that it
/// names. If the document was met before, its first score stays.
#[derive(Drop)]
pub struct Scored<'a> {
    alloc: Global,
    cursors: Cursors<'a>,
    rows: u32,
    scores: BTreeMap<u32, u64>,
    best: Best,
}

impl<'a> Model for Scored<'a> {
    ghost use Rattle.ats_bound.specs.Scored.{ScoredStanding};
    ghost use Rattle.ats_bound.specs.Inner.Scored.{AreScored, exact_brackets};

    ghost Value = { ScoredStanding };

    ghost view = { λ s. record { stage = s.cursors; rows = s.rows; brackets = exact_brackets s.scores.entries } };

    ghost invariant = { λ s. AreScored s.cursors s.rows s.scores.entries s.best };
}

// Adds the score of a document that is not met yet.
fn meet(
    scores: &mut BTreeMap<u32, u64>,
    best: &mut Best,
    doc: u32,
    score: u64,
) -> Result<(), OutOfMemory>
    requires rise { IsStrictlySortedBy nat_cmp (keys_of scores.old.entries) }
    requires small { All (λ pair. pair.1 < 2 ^ 64) scores.old.entries }
    requires best { AreBest best.old (values_of scores.old.entries) }
    ensures rise { IsStrictlySortedBy nat_cmp (keys_of scores.new.entries) }
    ensures small { All (λ pair. pair.1 < 2 ^ 64) scores.new.entries }
    ensures best { AreBest best.new (values_of scores.new.entries) }
    ensures size { length best.new ≡ length best.old }
    ensures met { OnOk result ((other : ℕ) → is_some (score_in scores.new.entries other)
        ≡ ((doc == other) || is_some (score_in scores.old.entries other))) }
    ensures scores { OnOk result ((given : ℕ → ℕ) → All (λ pair. given pair.0 ≡ pair.1) scores.old.entries
        → (is_some (score_in scores.old.entries doc) ≡ false → given doc ≡ score)
        → All (λ pair. given pair.0 ≡ pair.1) scores.new.entries) }
    ensures err { OnErr result (scores.new.entries ≡ scores.old.entries) }
{
    if scores.contains_key(&doc) {
        return Ok(());
    }
    scores.insert(doc, score)?;
    best.add(score);
    Ok(())
}

// The brackets of documents with their scores.
fn brackets(alloc: Global, scores: &BTreeMap<u32, u64>) -> Result<Brackets, OutOfMemory>
    ensures { IfOk result (λ brackets. brackets ≡ exact_brackets scores.now.entries) }
{
    let mut brackets = Brackets::new(alloc);
    for (doc, score) in scores {
        brackets.push(Bracket {
            doc: *doc,
            lo: *score,
            hi: *score,
        })?;
    }
    Ok(brackets)
}

// The scores of the documents that the first entries name.
fn first_met(
    alloc: Global,
    lanes: &[Lane<'_>],
    scores: &[u64],
    best: &mut Best,
) -> Result<BTreeMap<u32, u64>, OutOfMemory>
    requires lanes { AreWholeLanes (whole_lanes lanes.now) }
    requires each { length scores.now ≡ length lanes.now }
    requires none { AreBest best.old [] }
    ensures rise { IfOk result (λ met. IsStrictlySortedBy nat_cmp (keys_of met.entries)) }
    ensures small { IfOk result (λ met. All (λ pair. pair.1 < 2 ^ 64) met.entries) }
    ensures best { IfOk result (λ met. AreBest best.new (values_of met.entries)) }
    ensures size { length best.new ≡ length best.old }
    ensures met { IfOk result (λ met. (doc : ℕ) → is_some (score_in met.entries doc)
        ≡ list_any (names doc) (shown (whole_lanes lanes.now) (first_cut (whole_lanes lanes.now)))) }
    ensures scores { IfOk result (λ met. (given : ℕ → ℕ) → AreFirstScores given (whole_lanes lanes.now) scores.now
        → All (λ pair. given pair.0 ≡ pair.1) met.entries) }
{
    let mut met: BTreeMap<u32, u64> = BTreeMap::new(alloc);
    for (i, lane) in lanes.iter().enumerate() {
        meet(&mut met, best, lane.first_document(), scores[i])?;
    }
    Ok(met)
}

impl<'a> Scored<'a> {
    /// Begins with one entry of each list, for an answer of at most so many rows. The scores are those of the documents
    /// that the first entries name, one for each list; if several name a document, the first of its scores stays.
    pub fn new(
        alloc: Global,
        lanes: &[Lane<'a>],
        rows: u32,
        scores: &[u64],
    ) -> Result<Scored<'a>, OutOfMemory>
        requires lanes { AreWholeLanes (whole_lanes lanes.now) }
        requires each { length scores.now ≡ length lanes.now }
        ensures stage { IfOk result (λ walk.
            walk.stage ≡ record { lanes = whole_lanes lanes.now; cut = first_cut (whole_lanes lanes.now) }) }
        ensures rows { IfOk result (λ walk. walk.rows ≡ rows) }
        ensures brackets { IfOk result (λ walk. (given : ℕ → ℕ)
            → AreFirstScores given (whole_lanes lanes.now) scores.now
            → AreBracketsBy (exactly given) (shown_on walk.stage) walk.brackets) }
    {
        let cursors = Cursors::new(alloc, lanes)?;
        let mut best = Best::new(alloc, rows as usize + 1)?;
        let scores = first_met(alloc, lanes, scores, &mut best)?;
        Ok(Scored {
            alloc,
            cursors,
            rows,
            scores,
            best,
        })
    }

    /// The list that shows one more entry in the next turn, counted from 0; `None` if all lists are whole.
    pub fn next_lane(&self) -> Option<u32>
        ensures next { MatchOption result (threshold (shown_on self.now.stage) ≡ 0)
            (IsNextLane self.now.stage.lanes self.now.stage.cut) }
        ensures whole { IsNone result ↔ AreAllShown (shown_on self.now.stage) }
        ensures stage { IsStage self.now.stage }
    {
        self.cursors.next_lane()
    }

    /// The document that the next entry of a list names.
    pub fn next_document(&self, lane: u32) -> u32
        requires inside { lane < length self.now.stage.lanes }
        requires more { IsOpen self.now.stage.lanes self.now.stage.cut lane }
        ensures { result ≡ (entry_on self.now.stage lane).doc }
    {
        self.cursors.gain(lane).doc
    }

    /// The score of a met document; `None` for any other.
    pub fn score_of(&self, doc: u32) -> Option<u64>
        ensures { MatchOption result (has_bracket doc self.now.brackets ≡ false)
            (λ score. Contains self.now.brackets (exact doc score)) }
    {
        self.scores.get(&doc).copied()
    }

    /// Shows one more entry of a list that is not whole, with the score of the document that it names. If memory runs
    /// out, the walk stays as it was.
    pub fn advance(&mut self, lane: u32, score: u64) -> Result<(), OutOfMemory>
        requires inside { lane < length self.old.stage.lanes }
        requires more { IsOpen self.old.stage.lanes self.old.stage.cut lane }
        ensures lanes { self.new.stage.lanes ≡ self.old.stage.lanes }
        ensures rows { self.new.rows ≡ self.old.rows }
        ensures cut { OnOk result (self.new.stage.cut
            ≡ set self.old.stage.cut lane (slice_index self.old.stage.cut lane + 1)) }
        ensures brackets { OnOk result ((given : ℕ → ℕ)
            → AreBracketsBy (exactly given) (shown_on self.old.stage) self.old.brackets
            → (has_bracket (entry_on self.old.stage lane).doc self.old.brackets ≡ false →
            given (entry_on self.old.stage lane).doc ≡ score)
            → AreBracketsBy (exactly given) (shown_on self.new.stage) self.new.brackets) }
        ensures err { OnErr result (self.new ≡ self.old) }
    {
        let doc = self.cursors.gain(lane).doc;
        meet(&mut self.scores, &mut self.best, doc, score)?;
        self.cursors.advance(lane);
        Ok(())
    }

    /// Whether the chosen answer is settled.
    pub fn settled(&self) -> bool
        ensures quick { IsTrue result
            ↔ PassesQuickTest self.now.brackets (threshold (shown_on self.now.stage)) self.now.rows }
        ensures tells { (bounds : Bounding) → AreBracketsBy bounds (shown_on self.now.stage) self.now.brackets
            → TellsSettled bounds self.now.stage.lanes self.now.rows self.now.stage.cut result }
    {
        let threshold = self.cursors.threshold();
        threshold == 0 || threshold <= self.best.next()
    }

    /// Whether the chosen answer is all that is asked of a shard: it has as many rows as it may have, each scores at
    /// least the floor, and no other document can score above it.
    pub fn within(&self, floor: u64) -> bool
        ensures { (bounds : Bounding) → AreBracketsBy bounds (shown_on self.now.stage) self.now.brackets → IsTrue result
            ↔ IsWithinBy bounds self.now.stage.lanes (floors_of_share (record { rows = self.now.rows; floor = floor }))
            self.now.stage.cut }
    {
        let threshold = self.cursors.threshold();
        let least = self.best.least();
        let next = self.best.next();
        if threshold > floor || least > floor || next < floor {
            return false;
        }
        self.rows as usize <= self.scores.len()
    }

    /// How many entries of each list are shown, the brackets of the met documents by document ascending, the chosen
    /// answer and the threshold.
    pub fn finish(self) -> Result<Walk, OutOfMemory>
        ensures cut { IfOk result (λ walk. walk.cut ≡ self.entry.stage.cut) }
        ensures brackets { IfOk result (λ walk. walk.brackets ≡ self.entry.brackets) }
        ensures threshold { IfOk result (λ walk. walk.threshold ≡ threshold (shown_on self.entry.stage)) }
        ensures picks { IfOk result (λ walk. IsChosen walk.brackets self.entry.rows walk.picks) }
        ensures inside { IfOk result (λ walk. ArePicks walk.brackets walk.picks) }
        ensures best { IfOk result (λ walk. (answer : List ℕ) → ArePicks walk.brackets answer
            → IsSettled walk.brackets answer walk.threshold self.entry.rows
            → IsSettled walk.brackets walk.picks walk.threshold self.entry.rows) }
    {
        let Scored {
            alloc,
            cursors,
            rows,
            scores,
            best: _,
        } = self;
        let threshold = cursors.threshold();
        let brackets = brackets(alloc, &scores)?;
        let picks = choose_rows(alloc, brackets.as_slice(), rows as usize)?;
        Ok(Walk {
            cut: cursors.cut(),
            brackets,
            picks,
            threshold,
        })
    }
}
