//! The check of a growth.

ghost use Rattle.std.specs.Prelude.{◌≡◌, ◌+◌, ◌≤◌, ◌^◌, length, IsOk, OnOk, IfOk, IfErr};
ghost use Rattle.ats_growth_check.specs.Headline.{IsGrownOrCollides};
ghost use Rattle.ats_growth_check.specs.Rules.{AcceptsGrowth, IsFirstGrowthRefusal, digests_needed, texts_roots};

use crate::pairing::{RootPair, digests_needed, roots_of};
use crate::view::GrowthView;
use ats_commit::root_of_header_in;
use ats_hash::{Hash32, Steps};
use ats_refusal::GrowthRefusal;

/// The numbers of documents of an archive that has grown.
#[derive(Clone, Copy, Debug, PartialEq, Eq)]
pub struct Grown {
    /// How many documents there were, 1 to 65,536.
    pub old: u32,
    /// How many there are, at least as many.
    pub new: u32,
}

// The roots that all digests give for the old texts and for the new ones.
fn texts_roots<'a, H: Hash32>(proof: &GrowthView<'a>, steps: &mut Steps) -> RootPair
    requires within { proof.now.old.documents ≤ proof.now.new.documents }
    requires fits { length proof.now.digests ≡ digests_needed proof.now.old.documents proof.now.new.documents }
    requires space { steps.old ≤ 2 ^ 63 }
    ensures old { result.old ≡ (texts_roots H.hash proof.now).old }
    ensures new { result.new ≡ (texts_roots H.hash proof.now).new }
    ensures cost { steps.new ≤ steps.old + 49 }
{
    proof.facts();
    let (_, old) = proof.old();
    let (_, new) = proof.new_archive();
    let (_, mut digests) = proof.shown();
    roots_of::<H>(
        &old.texts_root,
        old.documents,
        new.documents,
        true,
        &mut digests,
        steps,
    )
}

// The check, rule by rule.
fn checked<'a, H: Hash32>(
    old: &[u8; 32],
    new: &[u8; 32],
    proof: &GrowthView<'a>,
    steps: &mut Steps,
) -> Result<Grown, GrowthRefusal>
    requires count { steps.old ≤ 2 ^ 62 }
    ensures accepts { OnOk result (AcceptsGrowth H.hash old.now new.now proof.now) }
    ensures numbers { IfOk result (λ grown. (grown.old ≡ proof.now.old.documents) × (grown.new ≡ proof.now.new.documents)) }
    ensures refused { IfErr result (IsFirstGrowthRefusal H.hash old.now new.now proof.now) }
    ensures steps { steps.new ≤ steps.old + 70 }
{
    proof.facts();
    let (old_format, old_header) = proof.old();
    let (new_format, new_header) = proof.new_archive();
    if root_of_header_in::<H>(old_format, &old_header, steps) != *old {
        return Err(GrowthRefusal::OtherOld);
    }
    if root_of_header_in::<H>(new_format, &new_header, steps) != *new {
        return Err(GrowthRefusal::OtherNew);
    }
    let (m, n) = (old_header.documents, new_header.documents);
    if m > n {
        return Err(GrowthRefusal::Shrunk { old: m, new: n });
    }
    let (count, _) = proof.shown();
    if count != digests_needed(m, n, true) {
        return Err(GrowthRefusal::GrowthMisfit { digests: count });
    }
    let roots = texts_roots::<H>(proof, steps);
    if roots.old != old_header.texts_root {
        return Err(GrowthRefusal::OldTexts);
    }
    if roots.new != new_header.texts_root {
        return Err(GrowthRefusal::NewTexts);
    }
    Ok(Grown { old: m, new: n })
}

/// Checks whether a growth shows that nothing was withdrawn between the archives with these two roots: the texts of the
/// old one are the first of the new one. Returns the numbers of their documents, or the first rule that the growth
/// breaks. It allocates nothing.
pub fn check_growth<'a, H: Hash32>(
    old: &[u8; 32],
    new: &[u8; 32],
    proof: &GrowthView<'a>,
    steps: &mut Steps,
) -> Result<Grown, GrowthRefusal>
    requires count { steps.old ≤ 2 ^ 62 }
    ensures accepts { OnOk result (AcceptsGrowth H.hash old.now new.now proof.now) }
    ensures numbers { IfOk result (λ grown. (grown.old ≡ proof.now.old.documents) × (grown.new ≡ proof.now.new.documents)) }
    ensures grown { OnOk result (IsGrownOrCollides H.hash old.now new.now proof.now) }
    ensures exact { AcceptsGrowth H.hash old.now new.now proof.now → IsOk result }
    ensures refused { IfErr result (IsFirstGrowthRefusal H.hash old.now new.now proof.now) }
    ensures steps { steps.new ≤ steps.old + 70 }
{
    proof.facts();
    checked::<H>(old, new, proof, steps)
}
