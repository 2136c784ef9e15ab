//! A section of a proof, taken from the front.

ghost use Rattle.std.specs.Prelude.{◌≡◌, length};

use ats_hash::Steps;
use ats_tree::{HashedString, PartialTree, Revealed};
use std::marker::PhantomData;

/// A section of a proof, from which leaves and digests are taken.
#[derive(Clone, Copy)]
pub(crate) struct PartialTreeView<'a, R> {
    pub(crate) section: R,
    pub(crate) lends: PhantomData<&'a u8>,
}

impl<'a, R: Revealed<'a>> PartialTree for PartialTreeView<'a, R> {
    ghost shown = { λ s. R.shown s.section };

    ghost digests = { λ s. R.digests s.section };

    fn position(&self) -> Option<u32> {
        self.section.position()
    }

    fn take_leaf(&mut self, steps: &mut Steps) -> HashedString {
        let leaf = HashedString::tagged(0, self.section.leaf_front(), self.section.leaf_back());
        self.section.pass_leaf(steps);
        leaf
    }

    fn take_digest(&mut self, steps: &mut Steps) -> Option<[u8; 32]> {
        match self.section.pass_digest(steps) {
            Some(bytes) => Some(digest_from(bytes)),
            None => None,
        }
    }
}

// The 32 bytes of a digest.
fn digest_from(bytes: &[u8]) -> [u8; 32]
    requires { length bytes.now ≡ 32 }
    ensures { result ≡ bytes.now }
{
    let mut digest = [0; 32];
    digest.copy_from_slice(bytes);
    digest
}
