//! Indexes built by several threads equal those built by one.

use ats_base::Bytes;
use ats_hash::{Hash32, HashKind, Sha};
use ats_impact::{Collection, Texts, trial_texts};
use ats_index::{Index, OutOfMemory};
use std::alloc::Global;
use std::test::Fail;
use std::thread::Threads;

// Some consecutive texts of a collection, each cut to a number of bytes.
fn part(
    alloc: Global,
    all: &Texts,
    from: usize,
    to: usize,
    size: usize,
) -> Result<Collection, Fail> {
    let mut texts = Texts::new(alloc);
    for doc in from..to {
        if doc < all.len() {
            texts.push(all.get(doc).get(..size).unwrap_or(all.get(doc)))?;
        }
    }
    Ok(Collection::new(alloc, texts)?)
}

// The hash function is any one here: with a known one the prover looks into digests, which takes minutes.
fn bytes_of<H: HashKind>(index: &Index<H>) -> Result<Bytes, OutOfMemory> {
    index.bytes()
}

fn by_one_thread<H: Hash32>(alloc: Global, collection: Collection) -> Result<Bytes, OutOfMemory> {
    let index = Index::<H>::build_plain(alloc, collection)?;
    bytes_of(&index)
}

fn by_several<H: Hash32 + Sync>(
    rt: &(impl Threads + Sync),
    alloc: Global,
    collection: Collection,
) -> Result<Bytes, OutOfMemory> {
    let index = Index::<H>::build(rt, alloc, collection)?;
    bytes_of(&index)
}

// Whether both build the same from these texts.
fn are_built_alike(
    rt: &(impl Threads + Sync),
    alloc: Global,
    all: &Texts,
    (from, to, size): (usize, usize, usize),
) -> Result<bool, Fail> {
    let one = by_one_thread::<Sha>(alloc, part(alloc, all, from, to, size)?)?;
    let several = by_several::<Sha>(rt, alloc, part(alloc, all, from, to, size)?)?;
    Ok(one.as_slice() == several.as_slice())
}

// All of a trial's texts, and 1 to 34 of them in 0 to 110 bytes each, some of whose last words are cut.
const PARTS: [(usize, usize, usize); 13] = [
    (0, 2000, usize::MAX),
    (0, 1, 0),
    (100, 104, 10),
    (200, 207, 20),
    (300, 310, 30),
    (400, 413, 40),
    (500, 516, 50),
    (600, 619, 60),
    (700, 722, 70),
    (800, 825, 80),
    (900, 928, 90),
    (1000, 1031, 100),
    (1100, 1134, 110),
];

// A text of `words` distinct words, twice.
fn twice(alloc: Global, words: u32) -> Result<Texts, Fail> {
    let mut text = String::new(alloc);
    for word in 0..words {
        write!(text, "{word} ")?;
    }
    let mut texts = Texts::new(alloc);
    texts.push(text.as_str())?;
    texts.push(text.as_str())?;
    Ok(texts)
}

// The trees of this many terms are cut, and hashed in parts. Some terms get a further number in the second document.
#[test]
fn threads_build_large_documents(rt: HostRuntime) -> Result<(), Fail> {
    let all = twice(rt.alloc(), 40_000)?;
    assert!(rt; are_built_alike(&rt, rt.alloc(), &all, (0, 2, usize::MAX))?);
    Ok(())
}

#[test]
fn threads_build_what_one_builds(rt: HostRuntime) -> Result<(), Fail> {
    let all = trial_texts(rt.alloc(), 0)?;
    for part in PARTS {
        assert!(rt;
            are_built_alike(&rt, rt.alloc(), &all, part)?,
            "from {}",
            part.0
        );
    }
    Ok(())
}
