//! The laws of growth, as contracts of functions that do nothing. A reader who believes these laws need not read how the
//! definitions are made.

ghost use Rattle.std.specs.Prelude.{◌≡◌, ◌+◌, ◌-◌, ◌*◌, ◌^◌, ◌<◌, ◌≤◌, ◌∷◌, ◌++◌, ℕ, List, [], length, take, drop, reverse, Bool, true, false};
ghost use Rattle.ats_tree.specs.Tree.{tree_of};
ghost use Rattle.ats_growth_check.specs.Bytes.{IsAcceptedGrowth};
ghost use Rattle.ats_growth_check.specs.Headline.{IsGrownOrCollides};
ghost use Rattle.ats_growth_check.specs.Pair.{roots};
ghost use Rattle.ats_growth_check.specs.Rules.{AcceptsGrowth, IsFirstGrowthRefusal};
ghost use Rattle.ats_growth_check.specs.Shape.{turns, need};
ghost use Rattle.ats_growth_check.specs.Strings.{ranges, AreRangesOf};
ghost use Rattle.ats_growth_check.specs.Value.{Growth, IsGrowth, AreInRange};
ghost use Rattle.ats_refusal.specs.declared.growth.GrowthRefusal.{GrowthRefusal};

use ats_hash::HashKind;

/// How many digests a growth from the first `m` of `n` leaves needs. If all leaves are old, it is none if their digest is
/// known, and else one. Else the tree is cut at the largest power of two below `n`, here `2 ^ h`: one digest is that of
/// the part without the last old leaf, and the others are those that the other part needs. To the right of the cut the
/// digest of the old leaves is not known.
pub fn growth_needs_digests()
    ensures all_known { (m : ℕ) → need (turns m m) true ≡ 0 }
    ensures all { (m : ℕ) → need (turns m m) false ≡ 1 }
    ensures left { (m n h : ℕ) (known : Bool) → 2 ^ h < n → n ≤ 2 * 2 ^ h → m ≤ 2 ^ h
        → need (turns m n) known ≡ 1 + need (turns m (2 ^ h)) known }
    ensures right { (m n h : ℕ) (known : Bool) → n ≤ 2 * 2 ^ h → 2 ^ h < m → m < n
        → need (turns m n) known ≡ 1 + need (turns (m - 2 ^ h) (n - 2 ^ h)) false }
{}

/// The two roots that digests give, as RFC 6962, section 2.1.4.2, builds them: the last digest is the one beside the root
/// of the new tree. Left of the cut it extends the new tree only; right of the cut it begins both trees.
pub fn digests_give_roots<H: HashKind>()
    ensures all_known { (root : List ℕ) (m : ℕ) → ((roots H.hash root (turns m m) true []).old ≡ root)
        × ((roots H.hash root (turns m m) true []).new ≡ root) }
    ensures all { (root x : List ℕ) (m : ℕ) → ((roots H.hash root (turns m m) false (x ∷ [])).old ≡ x)
        × ((roots H.hash root (turns m m) false (x ∷ [])).new ≡ x) }
    ensures left { (root y : List ℕ) (others : List (List ℕ)) (m n h : ℕ) (known : Bool)
        → 2 ^ h < n → n ≤ 2 * 2 ^ h → m ≤ 2 ^ h
        → ((roots H.hash root (turns m n) known (reverse (others ++ y ∷ []))).old
        ≡ (roots H.hash root (turns m (2 ^ h)) known (reverse others)).old)
        × ((roots H.hash root (turns m n) known (reverse (others ++ y ∷ []))).new
        ≡ H.hash (1 ∷ (roots H.hash root (turns m (2 ^ h)) known (reverse others)).new ++ y)) }
    ensures right { (root y : List ℕ) (others : List (List ℕ)) (m n h : ℕ) (known : Bool)
        → n ≤ 2 * 2 ^ h → 2 ^ h < m → m < n
        → ((roots H.hash root (turns m n) known (reverse (others ++ y ∷ []))).old
        ≡ H.hash (1 ∷ y ++ (roots H.hash root (turns (m - 2 ^ h) (n - 2 ^ h)) false (reverse others)).old))
        × ((roots H.hash root (turns m n) known (reverse (others ++ y ∷ []))).new
        ≡ H.hash (1 ∷ y ++ (roots H.hash root (turns (m - 2 ^ h) (n - 2 ^ h)) false (reverse others)).new)) }
{}

/// The ranges whose digests form both roots, of old texts and at least as many new ones. They are all old documents, each
/// once and the later ones first, and each range has the same documents on both sides. If all leaves are old, they are one
/// range. Left of the cut the ranges are those of the left part of the new texts. Right of the cut the left part is the last
/// range, as its digest is the last one (`honest_digests_are_subproofs`), and the others are those of both right parts.
pub fn ranges_are_old_documents()
    ensures documents { (old new : List (List ℕ)) → 1 ≤ length old → length old ≤ length new
        → AreRangesOf old new 0 (length old) (ranges (turns (length old) (length new)) (tree_of old) (tree_of new)) }
    ensures all { (old new : List (List ℕ)) → length old ≡ length new
        → ranges (turns (length old) (length new)) (tree_of old) (tree_of new)
        ≡ record { old = tree_of old; new = tree_of new } ∷ [] }
    ensures left { (old new : List (List ℕ)) (h : ℕ)
        → 2 ^ h < length new → length new ≤ 2 * 2 ^ h → length old ≤ 2 ^ h
        → ranges (turns (length old) (length new)) (tree_of old) (tree_of new)
        ≡ ranges (turns (length old) (2 ^ h)) (tree_of old) (tree_of (take (2 ^ h) new)) }
    ensures right { (old new : List (List ℕ)) (h : ℕ)
        → length new ≤ 2 * 2 ^ h → 2 ^ h < length old → length old < length new
        → ranges (turns (length old) (length new)) (tree_of old) (tree_of new)
        ≡ ranges (turns (length old - 2 ^ h) (length new - 2 ^ h)) (tree_of (drop (2 ^ h) old)) (tree_of (drop (2 ^ h) new))
        ++ record { old = tree_of (take (2 ^ h) old); new = tree_of (take (2 ^ h) new) } ∷ [] }
{}

/// Bytes say at most one growth, and its parts are in their ranges. Each growth has at most one spelling.
pub fn bytes_say_one_growth()
    ensures one { (bytes : List ℕ) (g h : Growth) → IsGrowth bytes g → IsGrowth bytes h → g ≡ h }
    ensures range { (bytes : List ℕ) (g : Growth) → IsGrowth bytes g → AreInRange g }
    ensures spelling { (bytes others : List ℕ) (g : Growth) → IsGrowth bytes g → IsGrowth others g → bytes ≡ others }
{}

/// Each growth whose parts are in their ranges has a spelling.
pub fn growths_in_range_are_spelled()
    ensures { (g : Growth) → AreInRange g → (bytes : List ℕ) × IsGrowth bytes g }
{}

/// A growth is refused by at most one rule, and not if it is accepted.
pub fn growths_are_refused_once<H: HashKind>()
    ensures one { (old new : List ℕ) (g : Growth) (a b : GrowthRefusal)
        → IsFirstGrowthRefusal H.hash old new g a → IsFirstGrowthRefusal H.hash old new g b → a ≡ b }
    ensures apart { (old new : List ℕ) (g : Growth) (a : GrowthRefusal)
        → AcceptsGrowth H.hash old new g → IsFirstGrowthRefusal H.hash old new g a → ⊥ }
{}

/// The headline: for all archives with the two roots under which bytes are accepted, either nothing was withdrawn, or the
/// strings that the growth and the two archives hash contain two different ones with equal digests.
pub fn accepted_growths_are_right<H: HashKind>()
    ensures { (old new : List ℕ) (bytes : List ℕ) (g : Growth) → IsAcceptedGrowth H.hash old new bytes g
        → IsGrownOrCollides H.hash old new g }
{}
