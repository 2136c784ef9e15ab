//! Making the bytes that show a growth.

ghost use Rattle.std.specs.Prelude.{◌≡◌, ◌+◌, ◌-◌, ◌*◌, ◌^◌, ◌<◌, ◌≤◌, ◌↔◌, ◌++◌, length, take, drop, slice_get, OnOk, IfOk, IfErr, IfSome, IfNone, IsTrue};
ghost use Rattle.ats_tree.specs.Tree.{mth, tree_of};
ghost use Rattle.ats_growth_check.specs.Headline.{IsPrefix};
ghost use Rattle.ats_growth_check.specs.Shape.{turns};
ghost use Rattle.ats_growth_check.specs.Value.{IsGrowth};
ghost use Rattle.ats_growth_proof.specs.Honest.{honest, IsFirstApart, IsGrowFault};
ghost use Rattle.ats_growth_proof.specs.Inner.Honest.{digest_bytes};

use crate::comparing::digest_of_range;
use crate::memory::OutOfMemory;
use ats_base::Bytes;
use ats_growth_check::{MAGIC, digests_needed};
use ats_hash::{Hash32, Steps};
use ats_impact::Collection;
use ats_index::Index;
use ats_proof::put_archive;
use ats_tree::cut_of;
use std::alloc::Global;

/// Why there is nothing to show.
#[derive(Clone, Copy, Debug, PartialEq, Eq)]
pub enum GrowFault {
    /// The new archive does not have this document of the old one with the same text. It is the first such document,
    /// counted from 0; it may be one past the end of the new archive.
    Differs { doc: u32 },
    OutOfMemory,
}

impl From<OutOfMemory> for GrowFault {
    ghost use Rattle.std.specs.Prelude.{◌≡◌};
    ghost use Rattle.ats_growth_proof.specs.declared.growing.GrowFault.TheVariants.{OutOfMemory};

    ghost from_gives = { λ _ e. e ≡ OutOfMemory };

    fn from(_: OutOfMemory) -> Self {
        GrowFault::OutOfMemory
    }
}

// Whether the new texts have this old document with the same text.
fn has_same_text(old: &Collection, new: &Collection, doc: u32) -> bool
    requires { doc < length old.now }
    ensures { IsTrue result ↔ slice_get new.now doc ≡ slice_get old.now doc }
{
    if doc >= new.documents() {
        return false;
    }
    old.text(doc) == new.text(doc)
}

// The first old document that the new texts do not have with the same text.
pub(crate) fn first_apart(old: &Collection, new: &Collection) -> Option<u32>
    ensures apart { IfSome result (IsFirstApart old.now new.now) }
    ensures none { IfNone result (IsPrefix old.now new.now) }
{
    for doc in 0..old.documents() {
        if !has_same_text(old, new, doc) {
            return Some(doc);
        }
    }
    None
}

// Appends the digest of the `n` texts from document `from` on.
fn put_range<H: Hash32>(
    texts: &Collection,
    from: u32,
    n: u32,
    bytes: &mut Bytes,
    steps: &mut Steps,
) -> Result<(), OutOfMemory>
    requires some { 1 ≤ n }
    requires inside { from + n ≤ length texts.now }
    requires space { steps.old ≤ 2 ^ 63 }
    ensures put { OnOk result (bytes.new ≡ bytes.old ++ mth H.hash (take n (drop from texts.now))) }
    ensures cost { steps.new ≤ steps.old + 2 * n }
{
    bytes.extend(&digest_of_range::<H>(texts, from, n, steps))?;
    Ok(())
}

// Appends the digests that show the growth from the first `m` to all of the `n` texts from document `from` on. Each range
// is hashed once.
fn put_digests<H: Hash32>(
    texts: &Collection,
    from: u32,
    m: u32,
    n: u32,
    known: bool,
    bytes: &mut Bytes,
    steps: &mut Steps,
) -> Result<(), OutOfMemory>
    requires some { 1 ≤ m }
    requires within { m ≤ n }
    requires inside { from + n ≤ length texts.now }
    requires space { steps.old + 2 * n ≤ 2 ^ 63 }
    ensures put { OnOk result (bytes.new
        ≡ bytes.old ++ digest_bytes H.hash (turns m n) known (tree_of (take n (drop from texts.now)))) }
    ensures cost { steps.new ≤ steps.old + 2 * n }
{
    let _facts = texts.documents();
    if m == n {
        if known {
            return Ok(());
        }
        return put_range::<H>(texts, from, n, bytes, steps);
    }
    let k = cut_of(n);
    if m <= k {
        put_digests::<H>(texts, from, m, k, known, bytes, steps)?;
        put_range::<H>(texts, from + k, n - k, bytes, steps)
    } else {
        put_digests::<H>(texts, from + k, m - k, n - k, false, bytes, steps)?;
        put_range::<H>(texts, from, k, bytes, steps)
    }
}

// The bytes that show a growth between archives whose texts allow it.
fn bytes_of<H: Hash32>(alloc: Global, old: &Index<H>, new: &Index<H>) -> Result<Bytes, OutOfMemory>
    requires { IsPrefix old.now.texts new.now.texts }
    ensures { IfOk result (λ bytes. IsGrowth bytes (honest H.hash old.now new.now)) }
{
    let m = old.collection().documents();
    let n = new.collection().documents();
    let mut bytes = Bytes::new(alloc);
    bytes.extend(&MAGIC.to_be_bytes())?;
    put_archive(&mut bytes, old.format(), old.header())?;
    put_archive(&mut bytes, new.format(), new.header())?;
    bytes.push(digests_needed(m, n, true) as u8)?;
    let mut steps = Steps::new(alloc);
    put_digests::<H>(new.collection(), 0, m, n, true, &mut bytes, &mut steps)?;
    Ok(bytes)
}

/// The bytes which show that nothing was withdrawn between two archives: the old texts are the first of the new ones. The
/// formats of the two may differ.
///
/// # Errors
/// `Differs`, if the old texts are not the first of the new ones.
pub fn grow<H: Hash32>(alloc: Global, old: &Index<H>, new: &Index<H>) -> Result<Bytes, GrowFault>
    ensures made { IfOk result (λ bytes. IsGrowth bytes (honest H.hash old.now new.now)) }
    ensures prefix { OnOk result (IsPrefix old.now.texts new.now.texts) }
    ensures fault { IfErr result (IsGrowFault old.now.texts new.now.texts) }
{
    if let Some(doc) = first_apart(old.collection(), new.collection()) {
        return Err(GrowFault::Differs { doc });
    }
    let bytes = bytes_of::<H>(alloc, old, new)?;
    Ok(bytes)
}
