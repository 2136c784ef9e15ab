//! The root of a catalog, from the roots of its shards.

ghost use Rattle.std.specs.Prelude.{◌≡◌, ◌≤◌, ◌+◌, ◌*◌, ◌^◌, length};
ghost use Rattle.ats_catalog_bytes.specs.Catalog.{root_over};
ghost use Rattle.ats_catalog_bytes.specs.Value.{shown_roots};

use crate::view::CatalogView;
use ats_hash::{Hash32, Steps};
use ats_tree::{Leaves, root};

/// The roots of shards as the leaves of their tree.
#[derive(Clone, Copy)]
struct RootLeaves<'r> {
    roots: &'r [[u8; 32]],
    ghost few: { length roots.now ≤ 4096 },
}

impl<'r> Leaves for RootLeaves<'r> {
    ghost items = { λ leaves. leaves.roots.now };

    fn len(&self) -> u32 {
        self.roots.len() as u32
    }

    fn leaf_digest<H: Hash32>(&self, i: u32, steps: &mut Steps) -> [u8; 32] {
        H::digest2(0, &self.roots[i as usize], &[], steps)
    }
}

/// The root of the catalog whose shards have these roots, 1 to [`MAX_SHARDS`](crate::MAX_SHARDS) of them.
pub fn catalog_root<H: Hash32>(roots: &[[u8; 32]], steps: &mut Steps) -> [u8; 32]
    requires some { 1 ≤ length roots.now }
    requires few { length roots.now ≤ 4096 }
    requires space { steps.old ≤ 2 ^ 63 }
    ensures value { result ≡ root_over H.hash roots.now }
    ensures cost { steps.new ≡ steps.old + 2 * length roots.now }
{
    let tree = root::<H, _>(&RootLeaves { roots }, steps);
    let [a, b, c, d] = (roots.len() as u32).to_be_bytes();
    H::digest2(2, &[b'A', b'T', b'S', b'C', 1, a, b, c, d], &tree, steps)
}

/// The root of the catalog whose shards have the roots that a proof shows.
pub fn root_of_view<H: Hash32>(view: &CatalogView<'_>, steps: &mut Steps) -> [u8; 32]
    requires space { steps.old ≤ 2 ^ 63 }
    ensures value { result ≡ root_over H.hash (shown_roots view.now) }
    ensures cost { steps.new ≡ steps.old + 2 * length view.now }
{
    view.facts();
    catalog_root::<H>(view.roots(), steps)
}
