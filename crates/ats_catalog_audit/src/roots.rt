//! The first string over the roots of shards that differs from our own there and has the same digest.

ghost use Rattle.std.specs.Prelude.{◌≡◌, ◌≤◌, ◌+◌, ◌*◌, ◌^◌, [], ◌∷◌, ℕ, List, length, IfOk, option_map};
ghost use Rattle.std.specs.List.{All};
ghost use Rattle.ats_tree.specs.Differences.{first_collision};
ghost use Rattle.ats_tree.specs.Kept.{kept_digests};
ghost use Rattle.ats_catalog_bytes.specs.Catalog.{string_over};
ghost use Rattle.ats_catalog_bytes.specs.Strings.{roots_string, roots_collision, tree_strings};
ghost use Rattle.ats_catalog_bytes.specs.Value.{shown_roots};
ghost use Rattle.ats_catalog_check.specs.Strings.{over_roots, difference_at};
ghost use Rattle.ats_catalog_audit.specs.Inner.Clashes.{difference_in, hashed_header};
ghost use Rattle.ats_catalog_audit.specs.Verdicts.{difference_of};

use crate::shown::ShownRoots;
use crate::verdict::{CatalogClash, StringPlace};
use ats_catalog_bytes::CatalogView;
use ats_hash::{Hash32, Steps};
use ats_tree::{
    Clash, HashedString, Leaves, Nodes, OutOfMemory, OwnNodes, Preimage, ShortLeaves, collides,
    first_clash, root,
};
use std::alloc::Global;
use std::marker::PhantomData;

// The roots of shards as the leaves of their tree.
#[derive(Clone, Copy)]
struct RootLeaves<'r> {
    roots: &'r [[u8; 32]],
    pub ghost few: { length roots.now ≤ 4096 },
}

impl<'r> Leaves for RootLeaves<'r> {
    ghost items = { λ leaves. leaves.roots.now };

    fn len(&self) -> u32 {
        self.roots.len() as u32
    }

    fn leaf_digest<H: Hash32>(&self, i: u32, steps: &mut Steps) -> [u8; 32] {
        self.leaf_string(i).digest::<H>(steps)
    }
}

impl ShortLeaves for RootLeaves<'_> {
    fn leaf_string(&self, i: u32) -> HashedString {
        HashedString::tagged(0, &self.roots[i as usize], &[])
    }
}

// The string of a catalog's header, with its tag.
fn string_over<H: Hash32>(roots: &[[u8; 32]], steps: &mut Steps) -> HashedString
    requires some { 1 ≤ length roots.now }
    requires few { length roots.now ≤ 4096 }
    requires space { steps.old ≤ 2 ^ 63 }
    ensures value { result ≡ string_over H.hash roots.now }
    ensures cost { steps.new + 1 ≡ steps.old + 2 * length roots.now }
{
    let tree = root::<H, _>(&RootLeaves { roots }, steps);
    let [a, b, c, d] = (roots.len() as u32).to_be_bytes();
    HashedString::tagged(2, &[b'A', b'T', b'S', b'C', 1, a, b, c, d], &tree)
}

// The strings of the tree of our own roots.
#[derive(Drop)]
struct OwnRoots<'r, H: Hash32> {
    leaves: RootLeaves<'r>,
    nodes: Nodes,
    kind: PhantomData<H>,
    ghost kept: { nodes ≡ kept_digests H.hash leaves.roots.now },
}

impl<H: Hash32> OwnNodes<HashedString> for OwnRoots<'_, H> {
    ghost use Rattle.ats_tree.specs.Strings.{node_string};

    ghost ours = { λ s node. node_string H.hash s.leaves.roots.now node };

    fn at(&self, depth: u8, turns: u32) -> Option<HashedString> {
        self.nodes.string_at::<H, _>(&self.leaves, depth, turns)
    }
}

// The strings of the headers, if they collide.
fn header_clash<H: Hash32>(
    ours: &[[u8; 32]],
    theirs: &[[u8; 32]],
    steps: &mut Steps,
) -> Option<CatalogClash>
    requires some { 1 ≤ length ours.now }
    requires few { length ours.now ≤ 4096 }
    requires some_others { 1 ≤ length theirs.now }
    requires few_others { length theirs.now ≤ 4096 }
    requires space { steps.old ≤ 2 ^ 61 }
    ensures clash { option_map difference_of result ≡ option_map (difference_at over_roots)
        (first_collision H.hash (roots_string H.hash ours.now) (hashed_header H.hash theirs.now ∷ [])) }
    ensures cost { steps.new ≤ steps.old + 2 ^ 15 }
{
    let own = string_over::<H>(ours, steps);
    let other = string_over::<H>(theirs, steps);
    let digest = other.digest::<H>(steps);
    if !collides::<H, _>(&own, &other, &digest, steps) {
        return None;
    }
    Some(CatalogClash {
        place: StringPlace::Header,
        ours: own,
        theirs: other,
    })
}

// A clash of the tree of the roots, with its place.
fn in_tree(found: Option<Clash<HashedString>>) -> Option<CatalogClash>
    ensures { option_map difference_of result ≡ option_map (difference_at over_roots) (option_map difference_in found) }
{
    let clash = found?;
    Some(CatalogClash {
        place: StringPlace::Roots {
            depth: clash.depth,
            turns: clash.turns,
        },
        ours: clash.ours,
        theirs: clash.theirs,
    })
}

// The first clash in the tree of the roots.
fn tree_clash<H: Hash32>(
    alloc: Global,
    ours: &[[u8; 32]],
    theirs: &[[u8; 32]],
    steps: &mut Steps,
) -> Result<Option<CatalogClash>, OutOfMemory>
    requires some { 1 ≤ length ours.now }
    requires few { length ours.now ≤ 4096 }
    requires some_others { 1 ≤ length theirs.now }
    requires few_others { length theirs.now ≤ 4096 }
    requires sized { All (λ (root : List ℕ). length root ≡ 32) theirs.now }
    requires space { steps.old ≤ 2 ^ 62 }
    ensures { IfOk result (λ clash. option_map difference_of clash ≡ option_map (difference_at over_roots)
        (first_collision H.hash (roots_string H.hash ours.now) (tree_strings H.hash theirs.now))) }
{
    let leaves = RootLeaves { roots: ours };
    let nodes = Nodes::of::<H, _>(alloc, &leaves, steps)?;
    let own: OwnRoots<'_, H> = OwnRoots {
        leaves,
        nodes,
        kind: PhantomData,
    };
    let mut shown = ShownRoots::of(theirs);
    let found = first_clash::<H, _, HashedString, _>(theirs.len() as u32, &mut shown, &own, steps);
    Ok(in_tree(found))
}

/// The first clash between the strings that the root of a catalog hashes over our own roots, 1 to
/// [`MAX_SHARDS`](ats_catalog_bytes::MAX_SHARDS) of them, and those that it hashes over the roots that a proof shows: the header's, then
/// those of the tree of the roots in pre-order, a node, its left part, its right part. The tree of our own roots is kept
/// meanwhile, in at most 64 bytes a root.
pub(crate) fn first_roots_clash<H: Hash32>(
    alloc: Global,
    ours: &[[u8; 32]],
    view: &CatalogView<'_>,
) -> Result<Option<CatalogClash>, OutOfMemory>
    requires some { 1 ≤ length ours.now }
    requires few { length ours.now ≤ 4096 }
    ensures { IfOk result (λ clash. option_map difference_of clash
        ≡ option_map (difference_at over_roots) (roots_collision H.hash ours.now (shown_roots view.now))) }
{
    view.facts();
    let theirs = view.roots();
    let mut steps = Steps::new(alloc);
    match header_clash::<H>(ours, theirs, &mut steps) {
        Some(clash) => Ok(Some(clash)),
        None => tree_clash::<H>(alloc, ours, theirs, &mut steps),
    }
}
