//! The laws of the lists of any texts, as contracts of functions that do nothing. A reader who believes these laws need
//! not read how the definitions are made.

ghost use Rattle.std.specs.Prelude.{◌≡◌, ◌<◌, List, ℕ, length, ◌↔◌};
ghost use Rattle.std.specs.List.{Contains};
ghost use Rattle.ats_impact.specs.Score.{frequency};
ghost use Rattle.ats_postings.specs.Postings.{count_in};
ghost use Rattle.ats_postings.specs.Lists.{list, vocabulary, IsListOf};
ghost use Rattle.ats_postings.specs.declared.entry.Entry.{Entry};

/// The list of a term is its postings by impact descending, then document ascending. No other list is: the order has no
/// ties.
pub fn lists_are_sorted_postings()
    ensures sorted { (texts : List (List ℕ)) (term : List ℕ) → IsListOf texts term (list texts term) }
    ensures only { (texts : List (List ℕ)) (term : List ℕ) (entries : List Entry)
        → IsListOf texts term entries → entries ≡ list texts term }
{}

/// A list has one entry for each document that has the term.
pub fn lists_have_all_documents()
    ensures { (texts : List (List ℕ)) (term : List ℕ) → length (list texts term) ≡ frequency term texts }
{}

/// The terms that have a list are those that some document has.
pub fn vocabulary_has_all_terms()
    ensures { (texts : List (List ℕ)) (term : List ℕ)
        → Contains (vocabulary texts) term ↔ ((doc : ℕ) × (doc < length texts) × (0 < count_in texts term doc)) }
{}
