//! Checks the root, the number of slots, and the dictionary section.

ghost use Rattle.std.specs.Prelude.{◌≤◌, ◌+◌, ◌*◌, ◌^◌, length, OnOk, IfErr};
ghost use Rattle.ats_terms.specs.Query.{IsQuery};
ghost use Rattle.ats_client.specs.Groups.{IsOpened, IsOpeningFault, IsDictionary, IsDictFault};

use crate::rebuilding::rebuilt;
use ats_commit::root_of_header_in;
use ats_hash::{Hash32, Steps};
use ats_proof::ProofView;
use ats_refusal::Refusal;
use ats_terms::Query;

/// Checks that the header has this root in the format of the proof, and that the proof has as many slots as the query has terms.
pub(crate) fn opened<H: Hash32>(
    root: &[u8; 32],
    query: &Query,
    proof: &ProofView<'_>,
    steps: &mut Steps,
) -> Result<(), Refusal>
    requires space { steps.old ≤ 2 ^ 63 }
    ensures holds { OnOk result (IsOpened H.hash root.now query.now proof.now) }
    ensures asked { OnOk result (IsQuery query.now) }
    ensures fault { IfErr result (IsOpeningFault H.hash root.now query.now proof.now) }
    ensures cost { steps.new ≤ steps.old + 1 }
{
    if root_of_header_in::<H>(proof.format(), &proof.header(), steps) != *root {
        return Err(Refusal::OtherRoot);
    }
    let shown = proof.terms();
    if shown as usize != query.len() {
        return Err(Refusal::SlotCount { shown });
    }
    Ok(())
}

/// Checks that the dictionary section is part of the header's dictionary.
pub(crate) fn dictionary<H: Hash32>(proof: &ProofView<'_>, steps: &mut Steps) -> Result<(), Refusal>
    requires space { steps.old ≤ 2 ^ 63 }
    ensures holds { OnOk result (IsDictionary H.hash proof.now) }
    ensures fault { IfErr result (IsDictFault H.hash proof.now) }
    ensures cost { steps.new ≤ steps.old + 2 ^ 34 }
    ensures most { steps.new
        ≤ steps.old + 3 * length proof.now.dict + 2 * length proof.now.dict_digests + 1 }
{
    let header = proof.header();
    let mut section = proof.dict();
    let Some(digest) = rebuilt::<H, _>(header.dict_leaves, &mut section, steps) else {
        return Err(Refusal::DictMisfit);
    };
    if digest != header.dict_root {
        return Err(Refusal::DictRoot);
    }
    Ok(())
}
