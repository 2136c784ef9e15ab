//! The laws of the trees, the header and the root of any archive, as contracts of functions that do nothing. A reader
//! who believes these laws need not read how the definitions are made.

ghost use Rattle.std.specs.Prelude.{◌≡◌, ◌+◌, ◌<◌, ◌≤◌, ◌^◌, ◌∷◌, ◌++◌, List, [], ℕ, Some, None, IsSome, MatchOption, length, map, slice_get, slice_index_or};
ghost use Rattle.std.specs.Int.{to_be_bytes, w32};
ghost use Rattle.std.specs.List.{All, range_with_len};
ghost use Rattle.std.specs.Str.{IsUtf8};
ghost use Rattle.ats_tree.specs.Differences.{first_difference, IsOurs};
ghost use Rattle.ats_tree.specs.Shown.{Shown, positions_of};
ghost use Rattle.ats_tree.specs.Tree.{mth};
ghost use Rattle.ats_tree.specs.Nodes.{NodeNumbers};
ghost use Rattle.ats_tree.specs.declared.places.Place.{Place};
ghost use Rattle.ats_tree.specs.declared.places.Tree.{Tree};
ghost use Rattle.ats_tree.specs.declared.places.Tree.TheVariants.{Header as HeaderTree, List as ListTree, Terms as TermsTree};
ghost use Rattle.ats_terms.specs.Terms.{IsTerm};
ghost use Rattle.ats_impact.specs.Limits.{AreWithin};
ghost use Rattle.ats_impact.specs.Score.{count, frequency, total_terms};
ghost use Rattle.ats_lists.specs.Chain.{chain};
ghost use Rattle.ats_lists.specs.Formats.{list_root, list_string, prefix_root, prefix_strings};
ghost use Rattle.ats_lists.specs.Leaf.{leaf_bytes};
ghost use Rattle.ats_postings.specs.Lists.{list, vocabulary};
ghost use Rattle.ats_postings.specs.declared.entry.Entry.{Entry};
ghost use Rattle.ats_doctree.specs.DocumentLeaf.{doc_leaf_bytes};
ghost use Rattle.ats_doctree.specs.Impacts.{doc_terms};
ghost use Rattle.ats_doctree.specs.Sentinels.{terms_leaves, leaf_bytes as term_bytes};
ghost use Rattle.ats_doctree.specs.declared.doc_leaf.DocLeaf.{DocLeaf};
ghost use Rattle.ats_dict.specs.Header.{header_bytes, IsHeader};
ghost use Rattle.ats_dict.specs.declared.header.Header.{Header};
ghost use Rattle.ats_dict.specs.Entry.{DictEntry, dict_leaf_bytes};
ghost use Rattle.ats_dict.specs.Dictionary.{IsBelow, dict_leaves};
ghost use Rattle.ats_lists.specs.declared.format.Format.{Format};
ghost use Rattle.ats_lists.specs.declared.format.Format.TheVariants.{One, Two};
ghost use Rattle.ats_commit.specs.Archive.{Archive, header_tag};
ghost use Rattle.ats_commit.specs.OwnShown.{IsOwnTreeShown, tree_strings};
ghost use Rattle.ats_commit.specs.Places.{in_tree, depth_limit};
ghost use Rattle.ats_commit.specs.Trees.{dictionary_of, documents_of};
ghost use Rattle.ats_commit.specs.Root.{header_of, root_of, HasHeaderInRange};
ghost use Rattle.ats_commit.specs.Ours.{asked_term, own_leaves, ours};
ghost use Rattle.ats_commit.specs.Own.{AreTexts, AreNeighbours, AreTermNeighbours, IsHeaderOf, IsEntryOf, IsDocumentOf, IsImpactOf};

use ats_hash::HashKind;

/// The dictionary has the terms that have a list, each with the number of documents that have it and the root of its
/// list: in the first format the root of one tree, in the second the digest of the list's first block.
pub fn dictionary_has_all_terms<H: HashKind>()
    ensures terms { (archive : Archive) → map (λ entry. entry.term) (dictionary_of H.hash archive)
        ≡ vocabulary archive.texts }
    ensures numbers { (archive : Archive)
        → All (λ entry. entry.f ≡ frequency entry.term archive.texts) (dictionary_of H.hash archive) }
    ensures roots { (archive : Archive)
        → All (λ entry. entry.root ≡ list_root H.hash archive.format (list archive.texts entry.term))
        (dictionary_of H.hash archive) }
    ensures whole { (entries : List Entry) → list_root H.hash One entries ≡ mth H.hash (map leaf_bytes entries) }
    ensures blocks { (entries : List Entry) → list_root H.hash Two entries ≡ chain H.hash (map leaf_bytes entries) }
{}

/// The documents tree has a leaf for each text: the number of leaves of its terms tree, which are its terms and two
/// sentinels, and the root of that tree.
pub fn documents_have_all_texts<H: HashKind>()
    ensures count { (texts : List (List ℕ)) → length (documents_of H.hash texts) ≡ length texts }
    ensures leaf { (texts : List (List ℕ)) (doc : ℕ) → doc < length texts
        → slice_get (documents_of H.hash texts) doc
        ≡ Some (doc_leaf_bytes (length (doc_terms texts doc) + 2) (mth H.hash (terms_leaves (doc_terms texts doc)))) }
{}

/// Texts within the limits have a header in range, so that its bytes are read back. UTF-8 texts have no more terms than
/// bytes, so they have few terms; a `Collection` knows the number.
pub fn headers_are_in_range<H: HashKind>()
    ensures texts { (archive : Archive) → All IsUtf8 archive.texts → AreWithin archive.texts
        → HasHeaderInRange H.hash archive }
    ensures counted { (archive : Archive) → AreWithin archive.texts → total_terms archive.texts ≤ 2 ^ 24
        → HasHeaderInRange H.hash archive }
{}

/// The root is the digest of the header after the tag of the format: 2 if each list is one tree, 4 if the lists are in
/// blocks. So equal tags have equal formats. The header is, in both formats, the version 1, the numbers of documents and
/// of dictionary leaves, high byte first, and the roots of the dictionary, the documents and the texts, 105 bytes in all.
pub fn roots_bind_headers<H: HashKind>()
    ensures root { (archive : Archive) → root_of H.hash archive
        ≡ H.hash (header_tag archive.format ∷ header_of H.hash archive) }
    ensures tags { (header_tag One ≡ 2) × (header_tag Two ≡ 4) }
    ensures formats { (a b : Format) → header_tag a ≡ header_tag b → a ≡ b }
    ensures header { (archive : Archive) → header_of H.hash archive
        ≡ 1 ∷ to_be_bytes w32 (length archive.texts) ++ to_be_bytes w32 (length (vocabulary archive.texts) + 2)
        ++ mth H.hash (dict_leaves (dictionary_of H.hash archive))
        ++ mth H.hash (documents_of H.hash archive.texts) ++ mth H.hash archive.texts }
    ensures size { (archive : Archive) → length (header_of H.hash archive) ≡ 105 }
{}

/// A header in range whose bytes are those of the archive's own has the archive's numbers and roots.
pub fn own_headers_are_read<H: HashKind>()
    ensures { (archive : Archive) (header : Header) → AreTexts archive.texts
        → IsHeader header.documents header.dict_leaves header.dict_root header.docs_root header.texts_root
        → header_bytes header.documents header.dict_leaves header.dict_root header.docs_root header.texts_root
        ≡ header_of H.hash archive
        → IsHeaderOf H.hash archive header }
{}

/// A leaf with the bytes of one of the archive's own is true of its lists. A term's leaf in the dictionary has the
/// length and the root of its list. Between the terms of two neighbours there is no term that a text has. A leaf of a
/// list is the posting at that place.
pub fn own_leaves_tell_lists<H: HashKind>()
    ensures entry { (archive : Archive) (p : ℕ) (entry : DictEntry) → AreTexts archive.texts → IsTerm entry.term
        → entry.f < 2 ^ 32
        → slice_get (dict_leaves (dictionary_of H.hash archive)) p
        ≡ Some (dict_leaf_bytes entry.term entry.f entry.root)
        → IsEntryOf H.hash archive entry }
    ensures absent { (archive : Archive) (p : ℕ) (lower upper : DictEntry) (term : List ℕ) → AreTexts archive.texts
        → AreNeighbours (dict_leaves (dictionary_of H.hash archive)) p lower upper
        → IsBelow lower.term term → IsBelow term upper.term
        → (list archive.texts term ≡ []) × (frequency term archive.texts ≡ 0) }
    ensures posting { (texts : List (List ℕ)) (term : List ℕ) (i : ℕ) (entry : Entry) → AreTexts texts
        → entry.doc < 2 ^ 32 → entry.impact < 2 ^ 16
        → slice_get (map leaf_bytes (list texts term)) i ≡ Some (leaf_bytes entry)
        → slice_get (list texts term) i ≡ Some entry }
{}

/// A leaf with the bytes of one of the texts' own is true of its document. The document's leaf in the documents tree
/// has the number of leaves and the root of the document's terms tree. If a term has a leaf in the terms tree, the
/// document has the term, with this impact. Between the terms of two neighbours the document has no term.
pub fn own_leaves_tell_documents<H: HashKind>()
    ensures document { (texts : List (List ℕ)) (doc : ℕ) (leaf : DocLeaf) → AreTexts texts → leaf.leaves < 2 ^ 32
        → slice_get (documents_of H.hash texts) doc ≡ Some (doc_leaf_bytes leaf.leaves leaf.root)
        → IsDocumentOf H.hash texts doc leaf }
    ensures term { (texts : List (List ℕ)) (doc p : ℕ) (item : List ℕ × ℕ) → IsTerm item.0 → item.1 < 2 ^ 16
        → slice_get (terms_leaves (doc_terms texts doc)) p ≡ Some (term_bytes item) → IsImpactOf texts doc item }
    ensures absent { (texts : List (List ℕ)) (doc p : ℕ) (lower upper : List ℕ × ℕ) (term : List ℕ)
        → AreTermNeighbours (terms_leaves (doc_terms texts doc)) p lower upper
        → IsBelow lower.0 term → IsBelow term upper.0
        → count term (slice_index_or texts doc []) ≡ 0 }
{}

/// If the first leaves of a list rebuild its root with some digests, then either they are the list's own, or the first
/// string that differs from the list's has an equal digest. This holds in either format.
pub fn list_prefixes_are_bound<H: HashKind>()
    ensures { (format : Format) (entries : List Entry) (shown : List Shown) (digests : List (List ℕ))
        → positions_of shown ≡ range_with_len 0 (length shown) → All (λ d. length d ≡ 32) digests
        → prefix_root H.hash format (length entries) shown digests ≡ Some (list_root H.hash format entries)
        → MatchOption (first_difference (list_string H.hash format entries)
        (prefix_strings H.hash format (length entries) shown digests))
        (All (λ s. slice_get (map leaf_bytes entries) s.0 ≡ Some s.1) shown)
        (λ c. H.hash c.theirs ≡ H.hash c.ours) }
{}

/// If what a proof shows of a tree is the archive's own, then each string that it hashes for the tree is the archive's
/// own at its place.
pub fn own_trees_have_own_strings<H: HashKind>()
    ensures { (archive : Archive) (query : List (List ℕ × ℕ)) (format : Format) (tree : Tree) (n : ℕ)
        (shown : List Shown) (digests : List (List ℕ))
        → IsOwnTreeShown H.hash archive query format tree n shown digests
        → All (IsOurs (λ at. ours H.hash archive query (in_tree tree at)))
        (tree_strings H.hash format tree n shown digests) }
{}

/// The header's string is at depth 0. No tree has a string past its leaves: with at most 2^h leaves the depth of a
/// string is at most `h`. In a list in blocks it is at most 1 + h, and at most 7. Each string has a depth of 8 bits, and
/// turns of 32 bits lead to it. There is no string in the list of a term that no text has, nor in the tree of a document past
/// the last.
pub fn own_strings_stand_in_trees<H: HashKind>()
    ensures header { (archive : Archive) (query : List (List ℕ × ℕ)) (turns : ℕ)
        → ours H.hash archive query (record { tree = HeaderTree; depth = 0; turns = turns })
        ≡ Some (header_tag archive.format ∷ header_of H.hash archive) }
    ensures within { (archive : Archive) (query : List (List ℕ × ℕ)) (place : Place) (h : ℕ)
        → length (own_leaves H.hash archive query place.tree) ≤ 2 ^ h → IsSome (ours H.hash archive query place)
        → place.depth ≤ depth_limit archive.format place.tree h }
    ensures fits { (archive : Archive) (query : List (List ℕ × ℕ)) (place : Place)
        → length (own_leaves H.hash archive query place.tree) ≤ 2 ^ 31 → IsSome (ours H.hash archive query place)
        → (place.depth < 2 ^ 8) × ((turns : ℕ) × (turns < 2 ^ 32)
        × (ours H.hash archive query (record { tree = place.tree; depth = place.depth; turns = turns })
        ≡ ours H.hash archive query place)) }
    ensures lists { (archive : Archive) (query : List (List ℕ × ℕ)) (number : ℕ) (at : NodeNumbers)
        → frequency (asked_term query number) archive.texts ≡ 0
        → ours H.hash archive query (in_tree (ListTree number) at) ≡ None }
    ensures documents { (archive : Archive) (query : List (List ℕ × ℕ)) (doc : ℕ) (at : NodeNumbers)
        → length archive.texts ≤ doc
        → ours H.hash archive query (in_tree (TermsTree doc) at) ≡ None }
{}
