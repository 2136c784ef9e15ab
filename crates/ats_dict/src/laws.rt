//! The laws of all dictionaries and headers, as contracts of functions that do nothing. A reader who believes these
//! laws need not read how the definitions are made.

ghost use Rattle.std.specs.Prelude.{◌≡◌, ◌+◌, ◌<◌, ◌≤◌, ◌^◌, ℕ, List, [], length, Some, slice_get, slice_index, slice_index_or};
ghost use Rattle.ats_terms.specs.Order.{IsBelow};
ghost use Rattle.ats_dict.specs.Header.{header_bytes, IsHeader};
ghost use Rattle.ats_dict.specs.Entry.{DictEntry, dict_leaf_bytes};
ghost use Rattle.ats_dict.specs.Dictionary.{IsDictionary, low, high, entry_at, term_at, leaf_of, dict_leaves};

/// The leaves by their positions: the low sentinel, the entries in their order, the high sentinel.
pub fn leaves_by_position()
    ensures count { (entries : List DictEntry) → length (dict_leaves entries) ≡ length entries + 2 }
    ensures leaf { (entries : List DictEntry) (p : ℕ) → p < length entries + 2
        → slice_get (dict_leaves entries) p ≡ Some (leaf_of (entry_at entries p)) }
    ensures first { (entries : List DictEntry) → entry_at entries 0 ≡ low }
    ensures inner { (entries : List DictEntry) (i : ℕ) (d : DictEntry) → i < length entries
        → entry_at entries (i + 1) ≡ slice_index_or entries i d }
    ensures last { (entries : List DictEntry) → entry_at entries (length entries + 1) ≡ high }
{}

/// The sentinels enclose each term that is not empty and does not begin with 0xFF, and the terms of all
/// leaves rise strictly in byte order, those of the sentinels included.
pub fn terms_rise()
    ensures low { (term : List ℕ) → 1 ≤ length term → IsBelow low.term term }
    ensures high { (term : List ℕ) → 1 ≤ length term → slice_index term 0 < 255 → IsBelow term high.term }
    ensures all { (entries : List DictEntry) (i j : ℕ) → IsDictionary entries → i < j → j < length entries + 2
        → IsBelow (term_at entries i) (term_at entries j) }
{}

/// Leaves of equal bytes have equal parts.
pub fn leaves_tell_their_parts()
    ensures { (term other : List ℕ) (f g : ℕ) (root another : List ℕ) → f < 2 ^ 32 → g < 2 ^ 32
        → dict_leaf_bytes term f root ≡ dict_leaf_bytes other g another → (term ≡ other) × (f ≡ g) × (root ≡ another) }
{}

/// Headers of equal bytes have equal parts.
pub fn headers_tell_their_parts()
    ensures { (m n d e : ℕ) (a b c x y z : List ℕ) → IsHeader m d a b c → IsHeader n e x y z
        → header_bytes m d a b c ≡ header_bytes n e x y z → (m ≡ n) × (d ≡ e) × (a ≡ x) × (b ≡ y) × (c ≡ z) }
{}
