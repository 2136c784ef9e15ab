//! The strings of a tree of our own.

ghost use Rattle.std.specs.Prelude.{◌≡◌, ℕ, ◌^◌, ◌<◌, ◌≤◌, List, length, Option, IfSome, option_map};
ghost use Rattle.ats_tree.specs.Nodes.{Node, by_path};
ghost use Rattle.ats_tree.specs.Paths.{path_of};

use crate::preimage::Preimage;

/// The strings that are hashed at the nodes of a tree.
pub trait OwnNodes<S: Preimage> {
    /// The string at a node, if there is one.
    ghost ours: { Self → Node → Option (List ℕ) };

    /// The string at the node to which `depth` turns lead from the root: the binary digits of `turns`, highest first, 0
    /// for left and 1 for right. There is no digit above the lowest `depth`. Each string begins with its tag.
    fn at(&self, depth: u8, turns: u32) -> Option<S>
        requires deep { depth ≤ 32 }
        requires inside { turns < 2 ^ depth }
        ensures string { option_map S.bytes result ≡ ours self.now (by_path (path_of depth turns)) }
        ensures tagged { IfSome result (λ own. 0 < length (S.bytes own)) };
}
