//! All roots of a list, as what is shown of the tree of them.

ghost use Rattle.std.specs.Prelude.{◌≡◌, ◌≤◌, length};

use ats_hash::Steps;
use ats_tree::Revealed;

/// The roots of a list after the first ones, each as the leaf of its number. No digest is needed.
#[derive(Clone, Copy)]
pub(crate) struct ShownRoots<'a> {
    roots: &'a [[u8; 32]],
    passed: u32,
    pub ghost few: { length roots.now ≤ 4096 },
}

impl<'a> ShownRoots<'a> {
    ghost use Rattle.std.specs.List.{range_with_len};
    ghost use Rattle.ats_tree.specs.Elided.{shown_with};
    ghost use Rattle.ats_catalog_audit.specs.Inner.Shown.{leaves_left};

    /// All of them.
    pub(crate) fn of(roots: &'a [[u8; 32]]) -> ShownRoots<'a>
        requires { length roots.now ≤ 4096 }
        ensures { leaves_left result ≡ shown_with roots.now (range_with_len 0 (length roots.now)) }
    {
        ShownRoots { roots, passed: 0 }
    }
}

impl<'a> Revealed<'a> for ShownRoots<'a> {
    ghost use Rattle.std.specs.Prelude.{[]};
    ghost use Rattle.ats_tree.specs.Shown.{first_leaf};
    ghost use Rattle.ats_catalog_audit.specs.Inner.Shown.{leaves_left};

    ghost shown = { λ s. leaves_left s };

    ghost digests = { λ s. [] };

    ghost front_part = { λ s. first_leaf (leaves_left s) };

    fn position(&self) -> Option<u32> {
        if self.roots.len() <= self.passed as usize {
            return None;
        }
        Some(self.passed)
    }

    fn leaf_front(&self) -> &'a [u8] {
        &self.roots[self.passed as usize]
    }

    fn leaf_back(&self) -> &'a [u8] {
        &[]
    }

    fn pass_leaf(&mut self, steps: &mut Steps) {
        steps.tick();
        self.passed += 1;
    }

    fn pass_digest(&mut self, steps: &mut Steps) -> Option<&'a [u8]> {
        steps.tick();
        None
    }
}
