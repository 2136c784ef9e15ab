//! The laws of lists in blocks, as contracts of functions that do nothing. A reader who believes these laws need not
//! read how the definitions are made.

ghost use Rattle.std.specs.Prelude.{◌≡◌, ℕ, ◌+◌, ◌*◌, ◌<◌, ◌≤◌, List, ◌∷◌, ◌++◌, length, take, drop, replicate, All, Some, IsSome};
ghost use Rattle.std.specs.List.{range_with_len};
ghost use Rattle.ats_tree.specs.Elided.{shown_with};
ghost use Rattle.ats_tree.specs.Paths.{Path, number_of};
ghost use Rattle.ats_tree.specs.Strings.{string_at};
ghost use Rattle.ats_tree.specs.Tree.{tree_of, mth};
ghost use Rattle.ats_lists.specs.Blocks.{block, blocks_in};
ghost use Rattle.ats_lists.specs.Chain.{chain, chain_from, chain_string, chain_elided, IsAtBlock};
ghost use Rattle.ats_lists.specs.ChainPrefix.{chain_rebuilt, chain_strings};

use ats_hash::HashKind;

/// A list of at most 64 byte strings is one block: its digest is that of the byte 3, the root of its tree and 32 zero
/// bytes. A longer list is its first 64 byte strings in front of the chain of the others.
pub fn chain_of_strings<H: HashKind>()
    ensures one { (ds : List (List ℕ)) → 1 ≤ length ds → length ds ≤ 64
        → chain H.hash ds ≡ H.hash (3 ∷ mth H.hash ds ++ replicate 32 0) }
    ensures more { (ds : List (List ℕ)) → 64 < length ds
        → chain H.hash ds ≡ H.hash (3 ∷ mth H.hash (take 64 ds) ++ chain H.hash (drop 64 ds)) }
{}

/// The string of block j stands at depth 0 and turns 64 j, and the string of a node of its tree, with depth d and turns
/// p there, at depth 1 + d and turns 64 j + p. No string stands elsewhere.
pub fn chain_strings_have_numbers<H: HashKind>()
    ensures block { (ds : List (List ℕ)) (j : ℕ) → j < blocks_in (length ds)
        → chain_string H.hash ds 0 (64 * j) ≡ Some (3 ∷ mth H.hash (block ds j) ++ chain_from H.hash ds (j + 1)) }
    ensures node { (ds : List (List ℕ)) (j : ℕ) (path : Path) → length path ≤ 6
        → chain_string H.hash ds (1 + length path) (64 * j + number_of path)
        ≡ string_at H.hash (tree_of (block ds j)) path }
    ensures only { (ds : List (List ℕ)) (depth turns : ℕ) → IsSome (chain_string H.hash ds depth turns)
        → (j : ℕ) × (j < blocks_in (length ds)) × IsAtBlock j depth turns }
{}

/// The first leaves of a list need at most 7 digests. With these they rebuild the list's digest, and each string that
/// is hashed is the list's own at its numbers.
pub fn first_leaves_suffice<H: HashKind>()
    ensures few { (ds : List (List ℕ)) (k : ℕ) → 1 ≤ k → k ≤ length ds → length (chain_elided H.hash ds k) ≤ 7 }
    ensures rebuild { (ds : List (List ℕ)) (k : ℕ) → 1 ≤ k → k ≤ length ds
        → chain_rebuilt H.hash (length ds) (shown_with ds (range_with_len 0 k)) (chain_elided H.hash ds k)
        ≡ Some (chain H.hash ds) }
    ensures own { (ds : List (List ℕ)) (k : ℕ) → 1 ≤ k → k ≤ length ds
        → All (λ s. chain_string H.hash ds s.place.depth s.place.turns ≡ Some s.text)
        (chain_strings H.hash (length ds) (shown_with ds (range_with_len 0 k)) (chain_elided H.hash ds k)) }
{}
