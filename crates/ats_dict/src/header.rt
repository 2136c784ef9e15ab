//! The header of a collection.

ghost use Rattle.std.specs.Prelude.{◌≡◌, ◌+◌, ◌≤◌, ◌↔◌, ℕ, List, slice_range, Some, IfSome, IfNone, IsTrue};
ghost use Rattle.ats_dict.specs.Header.{header_bytes, number_at, AreInRange, IsHeader, HasHeader};

use crate::pieces::put;
use byteorder::{BigEndian, ByteOrder};

/// How many documents and dictionary leaves a collection has, and the roots of its trees.
///
/// A header in range has 1 to 65,536 documents and 2 to 16,777,218 dictionary leaves, of which two are sentinels.
#[derive(Clone, Copy, Debug, PartialEq, Eq)]
pub struct Header {
    /// The number of documents.
    pub documents: u32,
    /// The number of leaves of the dictionary, the two sentinels included.
    pub dict_leaves: u32,
    /// The root of the dictionary.
    pub dict_root: [u8; 32],
    /// The root of the tree of the documents.
    pub docs_root: [u8; 32],
    /// The root of the tree of the texts.
    pub texts_root: [u8; 32],
}

/// How many bytes a header has.
pub const HEADER_BYTES: usize = 105;

// Where the fields after the version begin.
const DOCUMENTS: usize = 1;

const DICT_LEAVES: usize = 5;

const DICT_ROOT: usize = 9;

const DOCS_ROOT: usize = 41;

const TEXTS_ROOT: usize = 73;

const VERSION: u8 = 1;

const MAX_DOCUMENTS: u32 = 65_536;

const MAX_DICT_LEAVES: u32 = 16_777_218;

// Whether a collection can have these numbers.
fn are_in_range(documents: u32, dict_leaves: u32) -> bool
    ensures { IsTrue result ↔ AreInRange documents dict_leaves }
{
    (1..=MAX_DOCUMENTS).contains(&documents) && (2..=MAX_DICT_LEAVES).contains(&dict_leaves)
}

// The number that begins at a place of a header.
fn number_at(bytes: &[u8; HEADER_BYTES], place: usize) -> u32
    requires { place ≤ 101 }
    ensures { result ≡ number_at bytes.now place }
{
    BigEndian::read_u32(&bytes[place..place + 4])
}

// The root that begins at a place of a header.
fn root_at(bytes: &[u8; HEADER_BYTES], place: usize) -> [u8; 32]
    requires { place ≤ 73 }
    ensures { result ≡ slice_range bytes.now place (place + 32) }
{
    let mut root = [0; 32];
    root.copy_from_slice(&bytes[place..place + 32]);
    root
}

impl Header {
    /// Version 1 in one byte, the numbers of documents and of dictionary leaves in 4 bytes each, high byte
    /// first, and the roots of the dictionary, the documents and the texts.
    pub fn bytes(&self) -> [u8; HEADER_BYTES]
        ensures { result ≡ header_bytes self.now.documents self.now.dict_leaves
            self.now.dict_root self.now.docs_root self.now.texts_root }
    {
        let mut bytes = [0; HEADER_BYTES];
        bytes[0] = VERSION;
        put(&mut bytes, DOCUMENTS, &self.documents.to_be_bytes());
        put(&mut bytes, DICT_LEAVES, &self.dict_leaves.to_be_bytes());
        put(&mut bytes, DICT_ROOT, &self.dict_root);
        put(&mut bytes, DOCS_ROOT, &self.docs_root);
        put(&mut bytes, TEXTS_ROOT, &self.texts_root);
        bytes
    }

    /// The header that these bytes are, or `None` if the version or a number is out of its range.
    pub fn read(bytes: &[u8; HEADER_BYTES]) -> Option<Self>
        ensures bytes { IfSome result (λ h. bytes.now
            ≡ header_bytes h.documents h.dict_leaves h.dict_root h.docs_root h.texts_root) }
        ensures header { IfSome result (λ h. IsHeader h.documents h.dict_leaves h.dict_root h.docs_root h.texts_root) }
        ensures none { IfNone result (¬ HasHeader bytes.now) }
        ensures again { (documents dict_leaves : ℕ) (dict_root docs_root texts_root : List ℕ)
            → IsHeader documents dict_leaves dict_root docs_root texts_root
            → bytes.now ≡ header_bytes documents dict_leaves dict_root docs_root texts_root
            → result ≡ Some (record {
              documents = documents;
              dict_leaves = dict_leaves;
              dict_root = dict_root;
              docs_root = docs_root;
              texts_root = texts_root;
            }) }
    {
        let version = bytes[0];
        let documents = number_at(bytes, DOCUMENTS);
        let dict_leaves = number_at(bytes, DICT_LEAVES);
        if version != VERSION || !are_in_range(documents, dict_leaves) {
            return None;
        }
        Some(Header {
            documents,
            dict_leaves,
            dict_root: root_at(bytes, DICT_ROOT),
            docs_root: root_at(bytes, DOCS_ROOT),
            texts_root: root_at(bytes, TEXTS_ROOT),
        })
    }
}
