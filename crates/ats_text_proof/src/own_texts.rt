//! The strings that are hashed for the texts tree of an archive.

ghost use Rattle.std.specs.Prelude.{◌≡◌, ◌↔◌, ◌+◌, ◌*◌, ◌^◌, ◌<◌, ◌≤◌, ◌++◌, ◌∷◌, IsTrue, IfOk, length, take, drop, option_map};
ghost use Rattle.ats_tree.specs.Paths.{path_of};
ghost use Rattle.ats_tree.specs.Strings.{string_at};
ghost use Rattle.ats_tree.specs.Tree.{tree_of, mth};
ghost use Rattle.ats_text_proof.specs.Inner.TextString.{bytes_of};

use crate::memory::OutOfMemory;
use ats_base::Bytes;
use ats_commit::TextLeaves;
use ats_hash::{Hash32, Steps};
use ats_impact::Collection;
use ats_tree::{HashedString, LeafPreimage, OwnNodes, Preimage, cut_of, root};
use std::alloc::Global;
use std::marker::PhantomData;

/// The digests of the parts of a node.
#[derive(Clone, Copy)]
pub(crate) struct Parts {
    left: [u8; 32],
    right: [u8; 32],
}

impl Parts {
    // The string of the node.
    fn string(&self) -> HashedString
        ensures { result ≡ 1 ∷ self.now.left ++ self.now.right }
    {
        HashedString::tagged(1, &self.left, &self.right)
    }
}

/// A string that is hashed in the texts tree, whose text is lent.
#[derive(Clone, Copy)]
pub(crate) enum TextString<'a> {
    /// That of a node.
    Node(Parts),
    /// That of a text, in two parts.
    Text { front: &'a [u8], back: &'a [u8] },
}

// Whether the first byte string is the other two joined.
fn is_joined(whole: &[u8], front: &[u8], back: &[u8]) -> bool
    ensures { IsTrue result ↔ (whole.now ≡ front.now ++ back.now) }
{
    if whole.len() < front.len() {
        return false;
    }
    let (head, tail) = whole.split_at(front.len());
    head == front && tail == back
}

// Whether two pairs of byte strings are the same when they are joined, if the first is not longer than the third.
fn are_same_within(a: &[u8], b: &[u8], c: &[u8], d: &[u8]) -> bool
    requires { length a.now ≤ length c.now }
    ensures { IsTrue result ↔ (a.now ++ b.now ≡ c.now ++ d.now) }
{
    let (head, tail) = c.split_at(a.len());
    a == head && is_joined(b, tail, d)
}

// Whether two pairs of byte strings are the same when they are joined.
fn are_same(a: &[u8], b: &[u8], c: &[u8], d: &[u8]) -> bool
    ensures { IsTrue result ↔ (a.now ++ b.now ≡ c.now ++ d.now) }
{
    if a.len() <= c.len() {
        are_same_within(a, b, c, d)
    } else {
        are_same_within(c, d, a, b)
    }
}

impl Preimage for TextString<'_> {
    ghost bytes = { λ s. bytes_of s };

    ghost fits = { λ leaf. Unit {0} };

    fn of_node(left: &[u8; 32], right: &[u8; 32]) -> Self {
        TextString::Node(Parts {
            left: *left,
            right: *right,
        })
    }

    fn is_same(&self, other: &Self) -> bool {
        match (*self, *other) {
            (TextString::Node(parts), TextString::Node(others)) => {
                parts.string().bytes() == others.string().bytes()
            }
            (
                TextString::Text { front, back },
                TextString::Text {
                    front: other_front,
                    back: other_back,
                },
            ) => are_same(front, back, other_front, other_back),
            _ => false,
        }
    }

    fn digest<H: Hash32>(&self, steps: &mut Steps) -> [u8; 32] {
        match *self {
            TextString::Node(parts) => parts.string().digest::<H>(steps),
            TextString::Text { front, back } => H::digest2(0, front, back, steps),
        }
    }
}

impl<'a> LeafPreimage<'a> for TextString<'a> {
    fn of_leaf(front: &'a [u8], back: &'a [u8]) -> Self {
        TextString::Text { front, back }
    }
}

impl TextString<'_> {
    /// The bytes, copied.
    pub(crate) fn copied(&self, alloc: Global) -> Result<Bytes, OutOfMemory>
        ensures { IfOk result (λ bytes. bytes ≡ bytes_of self.now) }
    {
        match *self {
            TextString::Node(parts) => Ok(Bytes::of(alloc, parts.string().bytes())?),
            TextString::Text { front, back } => {
                let mut bytes = Bytes::with_room(alloc, 1)?;
                bytes.push(0)?;
                bytes.extend(front)?;
                bytes.extend(back)?;
                Ok(bytes)
            }
        }
    }
}

// The string at the node to which the turns lead from the root of the tree of the `n` texts from document `from` on.
fn string_in<'a, H: Hash32>(
    texts: &'a Collection,
    from: u32,
    n: u32,
    depth: u8,
    turns: u32,
    steps: &mut Steps,
) -> Option<TextString<'a>>
    requires some { 1 ≤ n }
    requires within { from + n ≤ length texts.now }
    requires shallow { depth ≤ 32 }
    requires space { steps.old ≤ 2 ^ 62 }
    ensures { option_map bytes_of result
        ≡ string_at H.hash (tree_of (take n (drop from texts.now))) (path_of depth turns) }
{
    let _facts = texts.documents();
    if n == 1 {
        return if depth == 0 {
            Some(TextString::Text {
                front: texts.text(from).as_bytes(),
                back: &[],
            })
        } else {
            None
        };
    }
    let k = cut_of(n);
    if depth == 0 {
        return Some(TextString::Node(Parts {
            left: root_of_texts::<H>(texts, from, k, steps),
            right: root_of_texts::<H>(texts, from + k, n - k, steps),
        }));
    }
    let further = depth - 1;
    if (turns >> further) % 2 == 0 {
        string_in::<H>(texts, from, k, further, turns, steps)
    } else {
        string_in::<H>(texts, from + k, n - k, further, turns, steps)
    }
}

// The root of the `n` texts from document `from` on.
fn root_of_texts<H: Hash32>(texts: &Collection, from: u32, n: u32, steps: &mut Steps) -> [u8; 32]
    requires some { 1 ≤ n }
    requires inside { from + n ≤ length texts.now }
    requires space { steps.old ≤ 2 ^ 63 }
    ensures value { result ≡ mth H.hash (take n (drop from texts.now)) }
    ensures cost { steps.new ≤ steps.old + 2 * n }
{
    let _facts = texts.documents();
    let range = TextLeaves::new(texts, from, from + n);
    root::<H, _>(&range, steps)
}

/// The texts of an archive, as the strings of their tree. It keeps no digests, and hashes the texts below a node for its
/// string.
#[derive(Drop)]
pub(crate) struct OwnTexts<'a, H> {
    pub(crate) texts: &'a Collection,
    pub(crate) alloc: Global,
    pub(crate) kind: PhantomData<H>,
}

impl<'a, H: Hash32> OwnNodes<TextString<'a>> for OwnTexts<'a, H> {
    ghost use Rattle.ats_tree.specs.Strings.{node_string};

    ghost ours = { λ s node. node_string H.hash s.texts.now node };

    fn at(&self, depth: u8, turns: u32) -> Option<TextString<'a>> {
        let n = self.texts.documents();
        string_in::<H>(self.texts, 0, n, depth, turns, &mut Steps::new(self.alloc))
    }
}
