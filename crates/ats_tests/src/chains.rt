//! The digests of lists in blocks, as another program computed them, and how many digests their first entries need. The
//! digests themselves, of a list of 65,536 entries in either format.

ghost use Rattle.std.specs.Prelude.{◌≡◌};
ghost use Rattle.ats_lists.specs.KeptList.{entries_of};

use crate::digests::is_digest;
use ats_base::Bytes;
use ats_hash::{Hash32, Sha, Steps};
use ats_lists::{Chain, Format, ListDigests, OutOfMemory};
use ats_postings::Entry;
use ats_tree::Digests;
use std::alloc::Global;
use std::test::Fail;

// For each number of entries the digest of the list, and for some numbers of first entries how many digests they need.
// The entries have the documents from 0 on, with the impact 7.
const LISTS: [(u32, &str, &[(u32, usize)]); 7] = [
    (
        1,
        "4fc7c8d3e9babde454a36ca03c9a45d3cfe1d108caee816e641f7c9ed00862a0",
        &[(1, 0)],
    ),
    (
        63,
        "ed2928c2b5a0ea23915faba494b51f033d7f7e8d9246b4d777d8e702bdffd4ee",
        &[(1, 6), (63, 0)],
    ),
    (
        64,
        "17b1da60b74ca56a8e79960c89b2dfea696e6dadc7d6e7d66f2ef68f8bc9f88c",
        &[(63, 1), (64, 0)],
    ),
    (
        65,
        "39d6dd90712beb8c0350eeea40d4846050b0650aa69e15ca12a502039e338e7c",
        &[(63, 2), (64, 1), (65, 0)],
    ),
    (
        128,
        "2b578108204ec68a206363b05c1cfb5892d417b55dcc0533eaaefa9fbacb5633",
        &[(65, 6), (128, 0)],
    ),
    (
        200,
        "e312e73ffbdfb94391b991b5715ed819a0cba104c9a991b33a9b163b94ee5c3b",
        &[(1, 7), (64, 1), (70, 5), (200, 0)],
    ),
    (
        65536,
        "a4e24a771c3ac2b52d8a1f998298f6bc7eb6078eba7dbb777bfbc988c40c0005",
        &[(1, 7), (65, 7), (128, 1), (65536, 0)],
    ),
];

fn entries(alloc: Global, n: u32) -> Result<Vec<Entry>, OutOfMemory> {
    let mut entries = Vec::new(alloc);
    for doc in 0..n {
        entries.push(Entry { doc, impact: 7 })?;
    }
    Ok(entries)
}

fn chain_of<H: Hash32>(alloc: Global, n: u32) -> Result<Option<Chain>, OutOfMemory> {
    let entries = entries(alloc, n)?;
    if entries.is_empty() || entries.len() > 65536 {
        return Ok(None);
    }
    let mut steps = Steps::new(alloc);
    Ok(Some(Chain::of::<H>(alloc, &entries, &mut steps)?))
}

// How many digests the first `k` entries need, or none if there are not so many.
fn count_needed(alloc: Global, chain: &Chain, k: u32) -> Result<Option<usize>, OutOfMemory> {
    if k == 0 || k > chain.len() {
        return Ok(None);
    }
    let mut digests = Digests::new(alloc);
    match chain.elided(k, &mut digests) {
        Ok(()) => Ok(Some(digests.len())),
        Err(_) => Err(OutOfMemory),
    }
}

fn is_as_wanted<H: Hash32>(
    alloc: Global,
    n: u32,
    root: &str,
    fronts: &[(u32, usize)],
) -> Result<bool, OutOfMemory> {
    let Some(chain) = chain_of::<H>(alloc, n)? else {
        return Ok(false);
    };
    for (k, wanted) in fronts {
        if count_needed(alloc, &chain, *k)? != Some(*wanted) {
            return Ok(false);
        }
    }
    Ok(is_digest(&chain.root(), root))
}

#[test]
fn lists_in_blocks(rt: HostRuntime) -> Result<(), Fail> {
    for (n, root, fronts) in LISTS {
        assert!(rt;
            is_as_wanted::<Sha>(rt.alloc(), n, root, fronts)?,
            "{n} entries"
        );
    }
    Ok(())
}

// For each format some numbers of first entries of the list of 65,536, how many digests they need, and the digest of these
// after a byte 0.
const FRONTS: [(Format, &[(u32, usize, &str)]); 2] = [
    (
        Format::One,
        &[
            (
                1,
                16,
                "20ef2a871da6ec7612430a23acfe64e1894229afb4ca5147943c0262934ee9a3",
            ),
            (
                40_000,
                6,
                "6d127f5a45da21d7f982f31e58be4370ff878ad67ed70f5ad1789cfe30cb420d",
            ),
        ],
    ),
    (
        Format::Two,
        &[
            (
                65,
                7,
                "2ba67d8b8b75e797d503693fa61b66bad6618690349836f7ef6a71eb1dfa90a0",
            ),
            (
                40_000,
                1,
                "530c49524c7a3cb455524c1f8adf1bb6ee43d795e7706f7f347b9d6bf231429f",
            ),
            (
                65_536,
                0,
                "6e340b9cffb37a989ca544e6bb780a2c78901d3fb33738768511a30617afa01d",
            ),
        ],
    ),
];

fn kept_of<H: Hash32>(
    alloc: Global,
    format: Format,
    n: u32,
) -> Result<Option<ListDigests>, OutOfMemory> {
    let entries = entries(alloc, n)?;
    if entries.is_empty() || entries.len() > 65536 {
        return Ok(None);
    }
    let mut steps = Steps::new(alloc);
    Ok(Some(ListDigests::of::<H>(alloc, format, &entries, &mut steps)?))
}

fn count_entries(kept: &ListDigests) -> u32
    ensures { result ≡ entries_of kept.now }
{
    match kept {
        ListDigests::Tree(nodes) => nodes.len().div_ceil(2),
        ListDigests::Blocks(chain) => chain.len(),
    }
}

// The digests that the first `k` entries need, or none if there are not so many entries.
fn front_of(alloc: Global, kept: &ListDigests, k: u32) -> Result<Digests, OutOfMemory> {
    let mut digests = Digests::new(alloc);
    if k > 0 && k <= count_entries(kept) {
        kept.front(alloc, k, &mut digests)?;
    }
    Ok(digests)
}

fn joined_digest<H: Hash32>(alloc: Global, digests: &Digests) -> Result<[u8; 32], Fail> {
    let mut joined = Bytes::new(alloc);
    for digest in digests.as_slice() {
        joined.extend(digest)?;
    }
    let mut steps = Steps::new(alloc);
    Ok(H::digest2(0, joined.as_slice(), &[], &mut steps))
}

fn are_fronts<H: Hash32>(
    alloc: Global,
    kept: &ListDigests,
    fronts: &[(u32, usize, &str)],
) -> Result<bool, Fail> {
    for (k, count, text) in fronts {
        let digests = front_of(alloc, kept, *k)?;
        if digests.len() != *count || !is_digest(&joined_digest::<H>(alloc, &digests)?, text) {
            return Ok(false);
        }
    }
    Ok(true)
}

#[test]
fn fronts_of_a_large_list(rt: HostRuntime) -> Result<(), Fail> {
    for (format, fronts) in FRONTS {
        let kept = kept_of::<Sha>(rt.alloc(), format, 65_536)?.ok_or("no list")?;
        assert!(rt; are_fronts::<Sha>(rt.alloc(), &kept, fronts)?, "{format:?}");
    }
    Ok(())
}
