//! The leaf of a document in the documents tree.

ghost use Rattle.std.specs.Prelude.{◌≡◌};
ghost use Rattle.ats_doctree.specs.DocumentLeaf.{doc_leaf_bytes};

/// How many bytes the leaf of a document has.
pub const DOC_LEAF_BYTES: usize = 36;

/// The leaf of a document in the tree of all documents.
#[derive(Clone, Copy, Debug, PartialEq, Eq)]
pub struct DocLeaf {
    /// The number of leaves of the document's terms tree, the two sentinels included.
    pub leaves: u32,
    /// The root of the document's terms tree.
    pub root: [u8; 32],
}

impl DocLeaf {
    /// The number in 4 bytes, high byte first, then the root.
    pub fn bytes(&self) -> [u8; DOC_LEAF_BYTES]
        ensures { result ≡ doc_leaf_bytes self.now.leaves self.now.root }
    {
        let mut bytes = [0; DOC_LEAF_BYTES];
        bytes[..4].copy_from_slice(&self.leaves.to_be_bytes());
        bytes[4..].copy_from_slice(&self.root);
        bytes
    }
}
