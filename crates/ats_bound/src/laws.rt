//! The laws of cuts of whole lists and of scores, as contracts of functions that do nothing. They name no hash
//! function, and scores are any sums over lists.

ghost use Rattle.std.specs.Prelude.{◌≡◌, ◌↔◌, ◌+◌, ◌<◌, ◌≤◌, ◌*◌, ℕ, Bool, IsTrue, List, [], length, map, sum_by, slice_index_or};
ghost use Rattle.std.specs.List.{All};
ghost use Rattle.ats_impact.specs.Rank.{IsTopBy};
ghost use Rattle.ats_impact.specs.Score.{coefficient, score};
ghost use Rattle.ats_postings.specs.Lists.{list};
ghost use Rattle.ats_bound.specs.declared.bracket.Bracket.{Bracket};
ghost use Rattle.ats_bound.specs.Cut.{ShownLane, IsMet, bracket, held, missing, threshold};
ghost use Rattle.ats_bound.specs.Settled.{ArePicks, HaveDistinctDocs, IsSettled};
ghost use Rattle.ats_bound.specs.Chosen.{AreBrackets, IsChosen};
ghost use Rattle.ats_bound.specs.Narrow.{AreNarrow};
ghost use Rattle.ats_bound.specs.QuickTest.{PassesQuickTest, TellsSettled};
ghost use Rattle.ats_bound.specs.Schedule.{WholeLane, AreWholeLanes, Bounding, AreBracketsBy, IsFirstSettled, IsFirstSettledBy, shown};
ghost use Rattle.ats_bound.specs.Lookup.{Table, AreImpactsOf, looked_up};
ghost use Rattle.ats_bound.specs.Ranked.{CutLane, AreScores, HoldsScore, AreOfMet, answer_of, cut_of, impact_in};

/// A document that no shown entry names scores at most the threshold. One that a shown entry names is one
/// of the n documents and scores above 0, and its bracket from the shown entries holds its score.
pub fn cuts_bound_scores()
    ensures unmet { (n : ℕ) (score : ℕ → ℕ) (lanes : List CutLane) (doc : ℕ) → AreScores n score lanes → doc < n
        → ¬ IsMet (cut_of lanes) doc → score doc ≤ threshold (cut_of lanes) }
    ensures met { (n : ℕ) (score : ℕ → ℕ) (lanes : List CutLane) (doc : ℕ) → AreScores n score lanes
        → IsMet (cut_of lanes) doc → (doc < n) × (0 < score doc) }
    ensures bracket { (n : ℕ) (score : ℕ → ℕ) (lanes : List CutLane) (doc : ℕ) → AreScores n score lanes
        → IsMet (cut_of lanes) doc → HoldsScore score (bracket (cut_of lanes) doc) }
    ensures looked_up { (n : ℕ) (score : ℕ → ℕ) (lanes : List CutLane) (table : Table) (doc : ℕ)
        → AreScores n score lanes
        → AreImpactsOf table (map (λ (lane : CutLane). lane.entries) lanes) → IsMet (cut_of lanes) doc
        → HoldsScore score (looked_up table (cut_of lanes) doc) }
{}

/// The rests of the lists that name a document, and those of the other lists, sum to the threshold.
pub fn rests_are_held_or_missing()
    ensures { (lanes : List ShownLane) (doc : ℕ) → held lanes doc + missing lanes doc ≡ threshold lanes }
{}

/// The score of a document for a query is a sum over the lists of the query's terms. A term that no document has adds
/// nothing.
pub fn scores_are_sums_over_lists()
    ensures { (texts : List (List ℕ)) (query : List (List ℕ × ℕ)) (doc : ℕ) → doc < length texts
        → score texts query (slice_index_or texts doc [])
        ≡ sum_by (λ pair. coefficient texts pair * impact_in doc (list texts pair.0)) query }
{}

/// A settled answer is a top answer, whatever the brackets are made from: they need only be those of the met documents,
/// and contain their scores.
pub fn settled_answers_are_top()
    ensures { (n r : ℕ) (score : ℕ → ℕ) (lanes : List CutLane) (brackets : List Bracket) (picks : List ℕ)
        → AreScores n score lanes → AreOfMet lanes brackets → All (HoldsScore score) brackets → ArePicks brackets picks
        → IsSettled brackets picks (threshold (cut_of lanes)) r → IsTopBy n score r (answer_of brackets picks) }
{}

/// A walk ends at one cut with one answer, however brackets are formed: whole lists have one first settled cut, a cut
/// has one list of brackets, and brackets of distinct documents have one chosen answer.
pub fn walks_end_at_one_cut()
    ensures cut { (bounds : Bounding) (lanes : List WholeLane) (r : ℕ) (a b : List ℕ)
        → IsFirstSettledBy bounds lanes r a → IsFirstSettledBy bounds lanes r b → a ≡ b }
    ensures brackets { (bounds : Bounding) (lanes : List ShownLane) (a b : List Bracket)
        → AreBracketsBy bounds lanes a → AreBracketsBy bounds lanes b → a ≡ b }
    ensures answer { (brackets : List Bracket) (r : ℕ) (a b : List ℕ) → HaveDistinctDocs brackets
        → IsChosen brackets r a → IsChosen brackets r b → a ≡ b }
{}

/// A walk of whole lists ends, for any number of rows: if brackets are narrow, some cut of the schedule is the first at
/// which an answer is settled. Brackets from the shown entries are narrow, and so are those of scores that are looked
/// up. A cut has brackets, and brackets have a chosen answer.
pub fn walks_end()
    ensures cut { (bounds : Bounding) (lanes : List WholeLane) (r : ℕ) → AreNarrow bounds → AreWholeLanes lanes
        → (cut : List ℕ) × IsFirstSettledBy bounds lanes r cut }
    ensures shown { (lanes : List WholeLane) (r : ℕ)
        → AreWholeLanes lanes → (cut : List ℕ) × IsFirstSettled lanes r cut }
    ensures looked_up { (table : Table) (lanes : List WholeLane) (r : ℕ) → AreWholeLanes lanes
        → (cut : List ℕ) × IsFirstSettledBy (looked_up table) lanes r cut }
    ensures brackets { (bounds : Bounding) (lanes : List ShownLane) → AreNarrow bounds
        → (brackets : List Bracket) × AreBracketsBy bounds lanes brackets }
    ensures answer { (brackets : List Bracket) (r : ℕ) → (picks : List ℕ) × IsChosen brackets r picks }
{}

/// If the two bounds of each bracket are equal, the chosen answer is settled exactly if the necessary test passes. So a
/// walk with known scores needs no other test.
pub fn known_scores_settle_by_the_test()
    ensures { (brackets : List Bracket) (r threshold : ℕ) (picks : List ℕ)
        → 1 ≤ r → All (λ (b : Bracket). b.hi ≡ b.lo) brackets
        → IsChosen brackets r picks → PassesQuickTest brackets threshold r ↔ IsSettled brackets picks threshold r }
{}

/// A settled answer passes the necessary test: whether at least as many brackets as there are rows reach the threshold
/// by their lower bounds.
pub fn settled_answers_pass_the_test()
    ensures { (brackets : List Bracket) (picks : List ℕ) (threshold r : ℕ)
        → AreBrackets brackets → ArePicks brackets picks
        → IsSettled brackets picks threshold r → PassesQuickTest brackets threshold r }
{}

/// What a walk reports at a cut is what [`crate::settled`] returns for the answer that [`crate::choose`] makes there,
/// however brackets are formed.
pub fn walks_tell_the_chosen_answer()
    ensures { (bounds : Bounding) (lanes : List WholeLane) (r : ℕ) (cut : List ℕ)
        (told answered : Bool) (brackets : List Bracket) (picks : List ℕ)
        → TellsSettled bounds lanes r cut told → AreBracketsBy bounds (shown lanes cut) brackets
        → IsChosen brackets r picks
        → (IsTrue answered ↔ IsSettled brackets picks (threshold (shown lanes cut)) r) → told ≡ answered }
{}
