//! An index from its bytes.

ghost use Rattle.std.specs.Prelude.{◌≡◌, IfOk, IfErr};
ghost use Rattle.ats_commit.specs.Archive.{Archive};
ghost use Rattle.ats_index.specs.Spelling.{IsSpelling};
ghost use Rattle.ats_index.specs.LoadFaults.{IsLoadFault};

use crate::index::Index;
use crate::memory::OutOfMemory;
use crate::read::read_texts;
use ats_hash::Hash32;
use ats_impact::{Collection, CollectionFault};
use std::alloc::Global;
use std::thread::Threads;

/// Why bytes are no index.
#[derive(Clone, Copy, Debug, PartialEq, Eq)]
pub enum LoadFault {
    /// The bytes are the index of no archive. If a field up to the last text is bad, the place is the start of the
    /// first such field: it is cut off, has another magic, a version that is not 1 or 2, a number of texts or a length beyond the limits,
    /// or is not UTF-8. If all of these fields are good, the place is the length of the longest common prefix with the
    /// index of the texts in the version's format.
    BadIndex { at: u64 },
    /// Memory ran out.
    OutOfMemory,
}

impl From<OutOfMemory> for LoadFault {
    ghost use Rattle.std.specs.Prelude.{◌≡◌};
    ghost use Rattle.ats_index.specs.declared.load.LoadFault.TheVariants.{OutOfMemory};

    ghost from_gives = { λ _ e. e ≡ OutOfMemory };

    fn from(_: OutOfMemory) -> Self {
        LoadFault::OutOfMemory
    }
}

impl<H: Hash32 + Sync> Index<H> {
    /// The index that these bytes are. Its lists and trees are made again from the texts, in the format of the version, and
    /// the bytes must be the same. A length is used only after as many bytes are found.
    pub fn load(rt: &(impl Threads + Sync), alloc: Global, bytes: &[u8]) -> Result<Self, LoadFault>
        ensures ok { IfOk result (IsSpelling H.hash bytes.now) }
        ensures only { (archive : Archive)
            → IsSpelling H.hash bytes.now archive → IfOk result (λ index. index ≡ archive) }
        ensures fault { IfErr result (IsLoadFault H.hash bytes.now) }
    {
        let (format, texts) = match read_texts(alloc, bytes)? {
            Ok(read) => read,
            Err(at) => return Err(LoadFault::BadIndex { at }),
        };
        let collection = match Collection::new(alloc, texts) {
            Ok(collection) => collection,
            Err(CollectionFault::OutOfMemory) => return Err(LoadFault::OutOfMemory),
            Err(_) => unreachable!(),
        };
        let index = Index::<H>::build_in(rt, alloc, collection, format)?;
        match index.difference(bytes)? {
            Some(at) => Err(LoadFault::BadIndex { at }),
            None => Ok(index),
        }
    }
}
