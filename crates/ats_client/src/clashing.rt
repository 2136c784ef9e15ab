//! The first string of a proof that differs from an archive's own there and has the same digest.

ghost use Rattle.std.specs.Prelude.{◌≡◌, ℕ, ◌+◌, ◌*◌, ◌^◌, ◌<◌, ◌≤◌, List, [], ◌∷◌, length, map, All, IsSome, IfOk, option_map};
ghost use Rattle.std.specs.List.{flat_map, range_with_len};
ghost use Rattle.ats_tree.specs.Differences.{first_collision, moved};
ghost use Rattle.ats_tree.specs.Shown.{positions_of};
ghost use Rattle.ats_tree.specs.declared.places.Tree.TheVariants.{List as ListOf};
ghost use Rattle.ats_lists.specs.Formats.{prefix_root, prefix_strings};
ghost use Rattle.ats_lists.specs.declared.format.Format.TheVariants.{Two};
ghost use Rattle.ats_commit.specs.Ours.{ours};
ghost use Rattle.ats_commit.specs.Places.{in_tree, IsOfQuery};
ghost use Rattle.ats_proof.specs.Ranges.{IsPrefixInRange, IsSectionInRange, AreDocumentsInRange};
ghost use Rattle.ats_proof.specs.Runs.{shown_entry};
ghost use Rattle.ats_proof.specs.SeenDocs.{documents_of, ids_of};
ghost use Rattle.ats_client.specs.Documents.{IsDocsTree, IsTermsTree, documents_from, met_documents};
ghost use Rattle.ats_client.specs.Groups.{IsDictionary, AreSlotsRight, IsListRight, AreListsRight};
ghost use Rattle.ats_client.specs.Inner.SeenLists.{prefix_of, presented_of};
ghost use Rattle.ats_client.specs.Presented.{presented};
ghost use Rattle.ats_client.specs.Sections.{AreRebuilt, difference_of};
ghost use Rattle.ats_client.specs.Inner.Sections.{difference_in};
ghost use Rattle.ats_client.specs.Inner.SeenTerms.{document_of};
ghost use Rattle.ats_client.specs.Strings.{hashed_header, strings_in, list_strings, terms_strings, documents_strings, proof_collision};

use crate::memory::OutOfMemory;
use crate::next_term::present;
use crate::own_tree::OwnTree;
use crate::present_term::Present;
use crate::shown_section::PartialTreeView;
use crate::walk::Walk;
use ats_commit::{OwnStrings, root_of_header_in, string_of_header};
use ats_hash::{Hash32, Steps};
use ats_lists::{Format, chain_first_clash};
use ats_proof::{DocView, DocsView, ProofView};
use ats_terms::Query;
use ats_tree::{HashedString, Place, Revealed, Tree, collides};
use std::alloc::Global;
use std::marker::PhantomData;

/// Two different strings with equal digests at one place: the archive's own, and the one that the proof hashes there.
#[derive(Clone, Copy, Debug, PartialEq, Eq)]
pub struct Clash {
    /// The tree, and the depth and turns of the string there.
    pub place: Place,
    /// The archive's own string.
    pub ours: HashedString,
    /// The string that rebuilding the proof hashes.
    pub theirs: HashedString,
}

/// The first clash between an archive's own strings and those that rebuilding a proof hashes. The order is: the
/// header's string, then those of the dictionary, of each shown list in the order of terms, of the documents tree, and
/// of each met document's terms. Sections that are all the archive's own are not hashed.
pub fn first_clash<'a, H: Hash32, O: OwnStrings<H>>(
    alloc: Global,
    own: &O,
    query: &Query,
    proof: &ProofView<'a>,
) -> Result<Option<Clash>, OutOfMemory>
    requires { AreRebuilt H.hash query.now proof.now }
    ensures { IfOk result
        (λ clash. option_map difference_of clash ≡ proof_collision H.hash (O.archive own.now) query.now proof.now) }
{
    let mut steps = Steps::new(alloc);
    if let Some(clash) = header::<H, O>(own, query, proof, &mut steps) {
        return Ok(Some(clash));
    }
    if let Some(clash) = dictionary::<H, O>(own, query, proof, &mut steps) {
        return Ok(Some(clash));
    }
    if let Some(clash) = lists::<H, O>(own, query, proof, &mut steps) {
        return Ok(Some(clash));
    }
    Ok(documents::<H, O>(own, query, proof, &mut steps))
}

// The header's string.
fn header<'a, H: Hash32, O: OwnStrings<H>>(
    own: &O,
    query: &Query,
    proof: &ProofView<'a>,
    steps: &mut Steps,
) -> Option<Clash>
    requires space { steps.old ≤ 2 ^ 63 }
    ensures clash { option_map difference_of result
        ≡ first_collision H.hash (ours H.hash (O.archive own.now) query.now)
        (hashed_header proof.now.format proof.now.header ∷ []) }
    ensures cost { steps.new ≤ steps.old + 2 }
{
    let place = Place {
        tree: Tree::Header,
        depth: 0,
        turns: 0,
    };
    let header = proof.header();
    let format = proof.format();
    let theirs = string_of_header(format, &header);
    let digest = root_of_header_in::<H>(format, &header, steps);
    match own.hashed_string(&place, query) {
        Some(ours) if collides::<H, _>(&ours, &theirs, &digest, steps) => Some(Clash {
            place,
            ours,
            theirs,
        }),
        _ => None,
    }
}

// The strings of what is shown of one tree, which rebuilds. A list in blocks is shown by its first `front` leaves; of any
// other tree, hashed as in the first format, any leaves may be shown.
fn in_tree<'a, H: Hash32, O: OwnStrings<H>, R: Revealed<'a> + Copy>(
    own: &O,
    query: &Query,
    format: Format,
    tree: Tree,
    leaves: u32,
    front: u32,
    revealed: &mut R,
    steps: &mut Steps,
) -> Option<Clash>
    requires asked { IsOfQuery query.now tree }
    requires hashed { format ≡ Two → (term : ℕ) × (tree ≡ ListOf term) }
    requires rebuilds { IsSome (prefix_root H.hash format leaves (R.shown revealed.old) (R.digests revealed.old)) }
    requires few { front ≤ 65536 }
    requires front { format ≡ Two → positions_of (R.shown revealed.old) ≡ range_with_len 0 front }
    requires short { All (λ s. length s.1 ≤ 127) (R.shown revealed.old) }
    requires space { steps.old ≤ 2 ^ 63 }
    ensures clash { option_map difference_of result
        ≡ first_collision H.hash (ours H.hash (O.archive own.now) query.now)
        (map (moved (in_tree tree)) (prefix_strings H.hash format leaves (R.shown revealed.old) (R.digests revealed.old))) }
    ensures cost { steps.new ≤ steps.old + 2 ^ 35 }
{
    let mut taken = PartialTreeView {
        section: *revealed,
        lends: PhantomData,
    };
    // If it is all the archive's own, it need not be hashed.
    if own.has_shown(format, tree, leaves, query, &mut taken) {
        return None;
    }
    let strings: OwnTree<'_, H, O> = OwnTree {
        own,
        query,
        tree,
        kind: PhantomData,
    };
    match format {
        Format::One => placed(
            tree,
            ats_tree::first_clash::<H, R, HashedString, _>(leaves, revealed, &strings, steps),
        ),
        Format::Two => placed(
            tree,
            chain_first_clash::<H, R, _>(leaves, front, revealed, &strings, steps),
        ),
    }
}

// A clash of a tree, with its place.
fn placed(tree: Tree, found: Option<ats_tree::Clash<HashedString>>) -> Option<Clash>
    ensures { option_map difference_of result ≡ option_map (difference_in tree) found }
{
    let clash = found?;
    Some(Clash {
        place: Place {
            tree,
            depth: clash.depth,
            turns: clash.turns,
        },
        ours: clash.ours,
        theirs: clash.theirs,
    })
}

// The strings of the dictionary section.
fn dictionary<'a, H: Hash32, O: OwnStrings<H>>(
    own: &O,
    query: &Query,
    proof: &ProofView<'a>,
    steps: &mut Steps,
) -> Option<Clash>
    requires rooted { IsDictionary H.hash proof.now }
    requires space { steps.old ≤ 2 ^ 63 }
    ensures clash { option_map difference_of result ≡ first_collision H.hash (ours H.hash (O.archive own.now) query.now)
        (strings_in H.hash Tree.Dictionary proof.now.header.dict_leaves
        (map shown_entry proof.now.dict) proof.now.dict_digests) }
    ensures cost { steps.new ≤ steps.old + 2 ^ 35 }
{
    proof.facts();
    let leaves = proof.header().dict_leaves;
    let mut section = proof.dict();
    in_tree::<H, O, _>(
        own,
        query,
        Format::One,
        Tree::Dictionary,
        leaves,
        0,
        &mut section,
        steps,
    )
}

// The strings of the prefix of a present term.
#[tactic(auto, unfolding(crate::specs::Inner::SeenLists::prefix_of))]
fn list<'a, H: Hash32, O: OwnStrings<H>>(
    own: &O,
    query: &Query,
    proof: &ProofView<'a>,
    one: &Present<'a>,
    steps: &mut Steps,
) -> Option<Clash>
    requires number { one.now.number < length query.now }
    requires few { one.now.number < 32 }
    requires range { IsPrefixInRange (prefix_of one.now.list) }
    requires right { IsListRight H.hash proof.now.format proof.now.met (presented_of one.now) }
    requires space { steps.old ≤ 2 ^ 63 }
    ensures clash { option_map difference_of result ≡ first_collision H.hash (ours H.hash (O.archive own.now) query.now)
        (list_strings H.hash proof.now.format proof.now.met (presented_of one.now)) }
    ensures cost { steps.new ≤ steps.old + 2 ^ 35 }
{
    let term = one.number as u8;
    let mut section = one.list.revealed(proof);
    in_tree::<H, O, _>(
        own,
        query,
        proof.format(),
        Tree::List { term },
        one.entry.f,
        one.list.len(),
        &mut section,
        steps,
    )
}

// The strings of the prefixes of all present terms.
fn lists<'a, H: Hash32, O: OwnStrings<H>>(
    own: &O,
    query: &Query,
    proof: &ProofView<'a>,
    steps: &mut Steps,
) -> Option<Clash>
    requires each { length proof.now.slots ≡ length query.now }
    requires slots { AreSlotsRight query.now proof.now }
    requires right { AreListsRight H.hash query.now proof.now }
    requires space { steps.old ≤ 2 ^ 62 }
    ensures clash { option_map difference_of result ≡ first_collision H.hash (ours H.hash (O.archive own.now) query.now)
        (flat_map (list_strings H.hash proof.now.format proof.now.met) (presented query.now proof.now)) }
    ensures cost { steps.new ≤ steps.old + 2 ^ 41 }
{
    proof.facts();
    let mut walk = Walk::over(proof.dict());
    let mut left = proof.lists();
    for i in 0..query.len() {
        if let Some(one) = present(query, proof, i as u32, &mut walk, &mut left, steps) {
            if let Some(clash) = list::<H, O>(own, query, proof, &one, steps) {
                return Some(clash);
            }
        }
    }
    None
}

// The strings of what is shown of the met documents.
fn documents<'a, H: Hash32, O: OwnStrings<H>>(
    own: &O,
    query: &Query,
    proof: &ProofView<'a>,
    steps: &mut Steps,
) -> Option<Clash>
    requires tree { IsDocsTree H.hash proof.now }
    requires terms { All (IsTermsTree H.hash) (met_documents proof.now) }
    requires space { steps.old ≤ 2 ^ 62 }
    ensures { option_map difference_of result ≡ first_collision H.hash (ours H.hash (O.archive own.now) query.now)
        (documents_strings H.hash proof.now.header proof.now.met proof.now.docs) }
{
    proof.facts();
    let docs = proof.docs()?;
    let leaves = proof.header().documents;
    let mut section = docs.revealed(proof);
    if let Some(clash) = in_tree::<H, O, _>(
        own,
        query,
        Format::One,
        Tree::Documents,
        leaves,
        0,
        &mut section,
        steps,
    ) {
        return Some(clash);
    }
    each::<H, O>(docs, own, query, proof, steps)
}

// The strings of what is shown of the terms of each met document.
fn each<'a, H: Hash32, O: OwnStrings<H>>(
    docs: DocsView<'a>,
    own: &O,
    query: &Query,
    proof: &ProofView<'a>,
    steps: &mut Steps,
) -> Option<Clash>
    requires met { ids_of docs ≡ proof.now.met }
    requires range { AreDocumentsInRange (documents_of docs) }
    requires right { All (IsTermsTree H.hash)
        (documents_from proof.now.met (documents_of docs).leaves (documents_of docs).sections) }
    requires space { steps.old ≤ 2 ^ 62 + 2 ^ 50 }
    ensures { option_map difference_of result ≡ first_collision H.hash (ours H.hash (O.archive own.now) query.now)
        (flat_map (terms_strings H.hash)
        (documents_from proof.now.met (documents_of docs.entry).leaves (documents_of docs.entry).sections)) }
{
    proof.facts();
    let mut left = docs;
    for _index in 0..proof.met() {
        let Some(doc) = left.next(steps) else {
            return None;
        };
        if let Some(clash) = terms::<H, O>(&doc, own, query, steps) {
            return Some(clash);
        }
    }
    None
}

// The strings of what is shown of one document's terms.
fn terms<'a, H: Hash32, O: OwnStrings<H>>(
    doc: &DocView<'a>,
    own: &O,
    query: &Query,
    steps: &mut Steps,
) -> Option<Clash>
    requires range { IsSectionInRange (document_of doc.now).section }
    requires right { IsTermsTree H.hash (document_of doc.now) }
    requires space { steps.old ≤ 2 ^ 63 }
    ensures clash { option_map difference_of result
        ≡ first_collision H.hash (ours H.hash (O.archive own.now) query.now)
        (terms_strings H.hash (document_of doc.now)) }
    ensures cost { steps.new ≤ steps.old + 2 ^ 35 }
{
    let tree = Tree::Terms { doc: doc.doc() };
    let leaves = doc.leaf().leaves;
    let mut section = doc.terms();
    in_tree::<H, O, _>(
        own,
        query,
        Format::One,
        tree,
        leaves,
        0,
        &mut section,
        steps,
    )
}
