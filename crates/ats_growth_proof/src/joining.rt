//! One node on two sides: the strings there, and their digests.

ghost use Rattle.std.specs.Prelude.{◌≡◌, ◌+◌, ◌<◌, ◌^◌, ◌∷◌, ◌++◌, option_map};
ghost use Rattle.ats_growth_proof.specs.Inner.Compared.{IsJoined};
ghost use Rattle.ats_growth_proof.specs.Inner.FirstDifference.{string_of, strings_of};

use ats_hash::{Hash32, Steps};
use ats_tree::HashedString;

/// The digests of the two parts of a node.
#[derive(Clone, Copy)]
pub(crate) struct Children {
    pub(crate) left: [u8; 32],
    pub(crate) right: [u8; 32],
}

/// Where two sides hash different strings.
#[derive(Clone, Copy)]
pub(crate) enum FirstDifference<'a> {
    /// At a node, with the digests of its parts on either side.
    Node { first: Children, second: Children },
    /// At a document, with its two texts, which are not copied.
    Texts { first: &'a [u8], second: &'a [u8] },
}

/// The digests of one part on two sides, and the first place from the top down where their strings differ.
#[derive(Clone, Copy)]
pub(crate) struct Side<'a> {
    /// As the growth has it, or of the old texts.
    pub(crate) theirs: [u8; 32],
    /// As an archive has it.
    pub(crate) own: [u8; 32],
    pub(crate) unlike: Option<FirstDifference<'a>>,
}

/// What a growth and two archives have at one part of the old tree and of the new one.
#[derive(Clone, Copy)]
pub(crate) struct Compared<'a> {
    pub(crate) old: Side<'a>,
    pub(crate) new: Side<'a>,
}

/// The string of a node.
pub(crate) fn string_of(children: &Children) -> HashedString
    ensures { result ≡ string_of children.now }
{
    HashedString::tagged(1, &children.left, &children.right)
}

/// A node of both sides, compared with what was found below it: a difference here comes first, as it is nearer the root.
pub(crate) fn joined<'a, H: Hash32>(
    theirs: Children,
    own: Children,
    below: Option<FirstDifference<'a>>,
    steps: &mut Steps,
) -> Side<'a>
    requires { steps.old + 2 < 2 ^ 64 }
    ensures joined { IsJoined H.hash (string_of theirs) (string_of own) (option_map strings_of below.entry) result }
    ensures cost { steps.new ≡ steps.old + 2 }
{
    let unlike = if string_of(&own).bytes() == string_of(&theirs).bytes() {
        below
    } else {
        Some(FirstDifference::Node {
            first: theirs,
            second: own,
        })
    };
    Side {
        theirs: H::digest2(1, &theirs.left, &theirs.right, steps),
        own: H::digest2(1, &own.left, &own.right, steps),
        unlike,
    }
}
