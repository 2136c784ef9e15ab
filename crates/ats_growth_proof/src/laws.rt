//! What an honest growth is in the words of RFC 6962, that it is accepted, and what an audit of an accepted growth finds, as
//! contracts of functions that do nothing.

ghost use Rattle.std.specs.Prelude.{◌≡◌, ◌-◌, ◌*◌, ◌^◌, ◌<◌, ◌≤◌, ◌∷◌, ◌++◌, ℕ, List, [], length, take, drop, reverse, Bool, true, false, None};
ghost use Rattle.ats_tree.specs.Tree.{mth, tree_of};
ghost use Rattle.ats_commit.specs.Archive.{Archive};
ghost use Rattle.ats_commit.specs.Own.{AreTexts};
ghost use Rattle.ats_commit.specs.Root.{root_of};
ghost use Rattle.ats_growth_check.specs.Bytes.{IsAcceptedGrowth};
ghost use Rattle.ats_growth_check.specs.Headline.{IsPrefix};
ghost use Rattle.ats_growth_check.specs.Rules.{AcceptsGrowth};
ghost use Rattle.ats_growth_check.specs.Shape.{turns};
ghost use Rattle.ats_growth_check.specs.Strings.{growth_collision};
ghost use Rattle.ats_growth_check.specs.Value.{Growth, IsGrowth};
ghost use Rattle.ats_growth_proof.specs.Honest.{shown, honest, IsFirstApart};
ghost use Rattle.ats_growth_proof.specs.Verdicts.{IsGrowthVerdict, IsGrownOrTold};
ghost use Rattle.ats_growth_proof.specs.declared.verdict.GrowthVerdict.{GrowthVerdict};
ghost use Rattle.ats_growth_proof.specs.declared.verdict.GrowthVerdict.TheVariants.{Right};

use ats_hash::HashKind;

/// The digests of an honest growth are SUBPROOF of RFC 6962, section 2.1.2: of all leaves that are old, none if their
/// digest is known, and else theirs. Left of the cut the digest of the right part comes last, and right of the cut that of
/// the left part.
pub fn honest_digests_are_subproofs<H: HashKind>()
    ensures all_known { (texts : List (List ℕ)) → reverse (shown H.hash (turns (length texts) (length texts)) true (tree_of texts)) ≡ [] }
    ensures all { (texts : List (List ℕ)) → reverse (shown H.hash (turns (length texts) (length texts)) false (tree_of texts))
        ≡ mth H.hash texts ∷ [] }
    ensures left { (texts : List (List ℕ)) (m h : ℕ) (known : Bool)
        → 2 ^ h < length texts → length texts ≤ 2 * 2 ^ h → m ≤ 2 ^ h
        → reverse (shown H.hash (turns m (length texts)) known (tree_of texts))
        ≡ reverse (shown H.hash (turns m (2 ^ h)) known (tree_of (take (2 ^ h) texts))) ++ mth H.hash (drop (2 ^ h) texts) ∷ [] }
    ensures right { (texts : List (List ℕ)) (m h : ℕ) (known : Bool)
        → length texts ≤ 2 * 2 ^ h → 2 ^ h < m → m < length texts
        → reverse (shown H.hash (turns m (length texts)) known (tree_of texts))
        ≡ reverse (shown H.hash (turns (m - 2 ^ h) (length texts - 2 ^ h)) false (tree_of (drop (2 ^ h) texts)))
        ++ mth H.hash (take (2 ^ h) texts) ∷ [] }
{}

/// If the old texts are the first of the new ones, the honest growth is spelled by some bytes, is accepted under the two
/// roots, whatever the two formats, and has no collision with the two archives. So the only verdict on its bytes is that it
/// is right, with the numbers of both. If an old document is missing or differs, the old texts are not the first.
pub fn honest_growths_are_accepted<H: HashKind>()
    ensures spelled { (older newer : Archive) → AreTexts older.texts → AreTexts newer.texts
        → IsPrefix older.texts newer.texts → (bytes : List ℕ) × IsGrowth bytes (honest H.hash older newer) }
    ensures accepted { (older newer : Archive) → AreTexts older.texts → IsPrefix older.texts newer.texts
        → AcceptsGrowth H.hash (root_of H.hash older) (root_of H.hash newer) (honest H.hash older newer) }
    ensures none { (older newer : Archive) → AreTexts older.texts → IsPrefix older.texts newer.texts
        → growth_collision H.hash older newer (honest H.hash older newer) ≡ None }
    ensures right { (older newer : Archive) (bytes : List ℕ) (verdict : GrowthVerdict)
        → AreTexts older.texts → IsPrefix older.texts newer.texts → IsGrowth bytes (honest H.hash older newer)
        → IsGrowthVerdict H.hash older newer bytes verdict
        → verdict ≡ Right (record { old = length older.texts; new = length newer.texts }) }
    ensures differs { (old new : List (List ℕ)) (doc : ℕ) → IsFirstApart old new doc → IsPrefix old new → ⊥ }
{}

/// For all archives with the two roots, either nothing was withdrawn, or every verdict on the bytes of an accepted growth
/// against these archives contains two different strings with equal digests.
pub fn accepted_growths_are_audited<H: HashKind>()
    ensures { (old new : List ℕ) (bytes : List ℕ) (g : Growth) → IsAcceptedGrowth H.hash old new bytes g
        → IsGrownOrTold H.hash old new bytes g }
{}
