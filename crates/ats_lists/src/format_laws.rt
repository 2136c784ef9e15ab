//! The laws that lists keep in either format, as contracts of functions that do nothing.

ghost use Rattle.std.specs.Prelude.{◌≡◌, ℕ, ◌<◌, ◌≤◌, ◌^◌, List, [], ◌∷◌, length, All, Some, None, IfSome, IsSome};
ghost use Rattle.std.specs.List.{range_with_len};
ghost use Rattle.ats_tree.specs.Nodes.{NodeNumbers};
ghost use Rattle.ats_tree.specs.Shown.{Shown, positions_of};
ghost use Rattle.ats_lists.specs.Formats.{deepest, first_leaves, list_root, list_string, prefix_digests, prefix_root, prefix_strings, IsListBoundTo};
ghost use Rattle.ats_postings.specs.declared.entry.Entry.{Entry};
ghost use Rattle.ats_lists.specs.declared.format.Format.{Format};

use ats_hash::HashKind;

/// The first entries of a list need at most 16 digests, which have 32 bytes each. With these they rebuild the list's
/// root, and each string that is hashed is the list's own at its numbers.
pub fn first_entries_suffice<H: HashKind>()
    ensures few { (format : Format) (entries : List Entry) (k : ℕ) → 1 ≤ k → k ≤ length entries → length entries ≤ 65536
        → length (prefix_digests H.hash format entries k) ≤ 16 }
    ensures sized { (format : Format) (entries : List Entry) (k : ℕ)
        → All (λ d. length d ≡ 32) (prefix_digests H.hash format entries k) }
    ensures rebuild { (format : Format) (entries : List Entry) (k : ℕ) → 1 ≤ k → k ≤ length entries
        → prefix_root H.hash format (length entries) (first_leaves entries k) (prefix_digests H.hash format entries k)
        ≡ Some (list_root H.hash format entries) }
    ensures own { (format : Format) (entries : List Entry) (k : ℕ) → 1 ≤ k → k ≤ length entries
        → All (λ s. list_string H.hash format entries s.place ≡ Some s.text)
        (prefix_strings H.hash format (length entries) (first_leaves entries k) (prefix_digests H.hash format entries k)) }
{}

/// If the first leaves of a list and digests of 32 bytes rebuild the root of a list, the leaves are bound to that list.
/// Nothing is assumed of the hash function.
pub fn first_leaves_are_bound<H: HashKind>()
    ensures { (format : Format) (shown : List Shown) (digests : List (List ℕ)) (entries : List Entry)
        → positions_of shown ≡ range_with_len 0 (length shown) → All (λ d. length d ≡ 32) digests
        → prefix_root H.hash format (length entries) shown digests ≡ Some (list_root H.hash format entries)
        → IsListBoundTo H.hash format (length entries) shown digests entries }
{}

/// Each string of a list begins with its tag, 0 for a leaf, 1 for a node with two parts and 3 for a block. A list
/// without entries has no string.
pub fn list_strings_have_tags<H: HashKind>()
    ensures tagged { (format : Format) (entries : List Entry) (at : NodeNumbers)
        → IfSome (list_string H.hash format entries at)
        (λ text. (tag : ℕ) × (rest : List ℕ) × (tag ≤ 3) × (text ≡ tag ∷ rest)) }
    ensures empty { (format : Format) (at : NodeNumbers) → list_string H.hash format [] at ≡ None }
{}

/// In one tree a string of at most 2^h entries is at most `h` deep. In blocks it is at most 1 + h deep, and at most 7. A
/// string has numbers that fit 32 bits.
pub fn list_strings_are_shallow<H: HashKind>()
    ensures depth { (format : Format) (entries : List Entry) (at : NodeNumbers) (h : ℕ) → length entries ≤ 2 ^ h
        → IsSome (list_string H.hash format entries at) → at.depth ≤ deepest format h }
    ensures turns { (format : Format) (entries : List Entry) (at : NodeNumbers) → length entries ≤ 2 ^ 31
        → IsSome (list_string H.hash format entries at)
        → (turns : ℕ) × (turns < 2 ^ 32)
        × (list_string H.hash format entries (record { depth = at.depth; turns = turns })
        ≡ list_string H.hash format entries at) }
{}
