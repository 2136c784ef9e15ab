//! The strings of a list of our own.

ghost use Rattle.std.specs.Prelude.{◌≡◌, ℕ, ◌<◌, ◌≤◌, List, length, Option, IfSome};
ghost use Rattle.ats_tree.specs.Nodes.{NodeNumbers};

use ats_tree::HashedString;

/// The strings that are hashed for the digest of a list, by their two numbers.
pub trait OwnList {
    /// The string with these numbers, if there is one.
    ghost ours: { Self → NodeNumbers → Option (List ℕ) };

    /// The string with these numbers, if there is one. Each string begins with its tag.
    fn at(&self, depth: u8, turns: u32) -> Option<HashedString>
        requires { depth ≤ 32 }
        ensures string { result ≡ ours self.now (record { depth = depth; turns = turns }) }
        ensures tagged { IfSome result (λ own. 0 < length own) };
}
