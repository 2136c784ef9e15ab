//! The laws of the terms of all documents, as contracts of functions that do nothing. A reader who believes these laws
//! need not read how the definitions are made.

ghost use Rattle.std.specs.Prelude.{◌≡◌, ◌≢◌, ◌+◌, ◌<◌, ◌≤◌, ◌^◌, ℕ, List, [], length, Some, slice_get, slice_index, slice_index_or};
ghost use Rattle.std.specs.List.{All};
ghost use Rattle.ats_terms.specs.Terms.{terms};
ghost use Rattle.ats_terms.specs.Order.{IsBelow};
ghost use Rattle.ats_impact.specs.Numbers.{impact};
ghost use Rattle.ats_impact.specs.Score.{count, total_terms};
ghost use Rattle.ats_doctree.specs.Impacts.{doc_terms, AreImpacts};
ghost use Rattle.ats_doctree.specs.Sentinels.{low, high, item_at, term_at, leaf_bytes, terms_leaves};

/// The leaves by their positions: the low sentinel, the terms in their order, the high sentinel.
pub fn leaves_by_position()
    ensures count { (items : List (List ℕ × ℕ)) → length (terms_leaves items) ≡ length items + 2 }
    ensures leaf { (items : List (List ℕ × ℕ)) (p : ℕ) → p < length items + 2
        → slice_get (terms_leaves items) p ≡ Some (leaf_bytes (item_at items p)) }
    ensures first { (items : List (List ℕ × ℕ)) → item_at items 0 ≡ low }
    ensures inner { (items : List (List ℕ × ℕ)) (i : ℕ) (d : List ℕ × ℕ) → i < length items
        → item_at items (i + 1) ≡ slice_index_or items i d }
    ensures last { (items : List (List ℕ × ℕ)) → item_at items (length items + 1) ≡ high }
{}

/// The sentinels enclose each term that is not empty and does not begin with 0xFF, and the terms of all
/// leaves rise strictly in byte order, those of the sentinels included.
pub fn terms_rise()
    ensures low { (term : List ℕ) → 1 ≤ length term → IsBelow low.0 term }
    ensures high { (term : List ℕ) → 1 ≤ length term → slice_index term 0 < 255 → IsBelow term high.0 }
    ensures all { (items : List (List ℕ × ℕ)) (i j : ℕ) → AreImpacts items → i < j → j < length items + 2
        → IsBelow (term_at items i) (term_at items j) }
{}

/// Each term is one that the document has, with the impact of its count there, and each term that the document has is
/// among them.
pub fn impacts_tell_counts()
    ensures some { (texts : List (List ℕ)) (doc i : ℕ) (d : List ℕ × ℕ) → i < length (doc_terms texts doc)
        → 0 < count (slice_index_or (doc_terms texts doc) i d).0 (slice_index_or texts doc []) }
    ensures impact { (texts : List (List ℕ)) (doc i : ℕ) (d : List ℕ × ℕ) → i < length (doc_terms texts doc)
        → (slice_index_or (doc_terms texts doc) i d).1
        ≡ impact (count (slice_index_or (doc_terms texts doc) i d).0 (slice_index_or texts doc [])) (total_terms texts)
        (length (terms (slice_index_or texts doc []))) (length texts) }
    ensures absent { (texts : List (List ℕ)) (doc : ℕ) (term : List ℕ)
        → All (λ item. item.0 ≢ term) (doc_terms texts doc) → count term (slice_index_or texts doc []) ≡ 0 }
{}

/// Leaves of equal bytes have equal parts.
pub fn leaves_tell_their_parts()
    ensures { (term other : List ℕ) (m n : ℕ) → m < 2 ^ 16 → n < 2 ^ 16
        → leaf_bytes (term, m) ≡ leaf_bytes (other, n) → (term ≡ other) × (m ≡ n) }
{}
