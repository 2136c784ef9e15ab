//! The example tree of eight leaves that implementations of RFC 6962 share. An independent program
//! computed the digests from the RFC's section 2.1.

ghost use Rattle.std.specs.Prelude.{◌≡◌, ◌<◌, ◌^◌, length, map};

use crate::digests::is_digest;
use ats_hash::{Hash32, Sha, Steps};
use ats_tree::{Digests, Leaves, OutOfMemory, elided, root};
use std::alloc::Global;
use std::test::Fail;

const LEAVES: [&[u8]; 8] = [
    b"",
    b"\x00",
    b"\x10",
    b"\x20\x21",
    b"\x30\x31",
    b"\x40\x41\x42\x43",
    b"\x50\x51\x52\x53\x54\x55\x56\x57",
    b"\x60\x61\x62\x63\x64\x65\x66\x67\x68\x69\x6a\x6b\x6c\x6d\x6e\x6f",
];

// The roots of the first 1 to 8 leaves.
const ROOTS: [&str; 8] = [
    "6e340b9cffb37a989ca544e6bb780a2c78901d3fb33738768511a30617afa01d",
    "fac54203e7cc696cf0dfcb42c92a1d9dbaf70ad9e621f4bd8d98662f00e3c125",
    "aeb6bcfe274b70a14fb067a5e5578264db0fa9b51af5e0ba159158f329e06e77",
    "d37ee418976dd95753c1c73862b9398fa2a2cf9b4ff0fdfe8b30cd95209614b7",
    "4e3bbb1f7b478dcfe71fb631631519a3bca12c9aefca1612bfce4c13a86264d4",
    "76e67dadbcdf1e10e1b74ddc608abd2f98dfb16fbce75277b5232a127f2087ef",
    "ddb89be403809e325750d3d263cd78929c2942b7942a34b77e122c9594a74c8c",
    "5dc9da79a70659a9ad559cb701ded9a2ab9d823aad2f4960cfe370eff4604328",
];

// A leaf, how many leaves the tree has, and the digests of the leaf's audit path from left to right.
const PATHS: [(u32, u32, &[&str]); 4] = [
    (
        0,
        8,
        &[
            "96a296d224f285c67bee93c30f8a309157f0daa35dc5b87e410b78630a09cfc7",
            "5f083f0a1a33ca076a95279832580db3e0ef4584bdff1f54c8a360f50de3031e",
            "6b47aaf29ee3c2af9af889bc1fb9254dabd31177f16232dd6aab035ca39bf6e4",
        ],
    ),
    (
        5,
        8,
        &[
            "d37ee418976dd95753c1c73862b9398fa2a2cf9b4ff0fdfe8b30cd95209614b7",
            "bc1a0643b12e4d2d7c77918f44e0f4f79a838b6cf9ec5b5c283e1f4d88599e6b",
            "ca854ea128ed050b41b35ffc1b87b8eb2bde461e9e3b5596ece6b9d5975a0ae0",
        ],
    ),
    (
        2,
        3,
        &["fac54203e7cc696cf0dfcb42c92a1d9dbaf70ad9e621f4bd8d98662f00e3c125"],
    ),
    (
        1,
        5,
        &[
            "6e340b9cffb37a989ca544e6bb780a2c78901d3fb33738768511a30617afa01d",
            "5f083f0a1a33ca076a95279832580db3e0ef4584bdff1f54c8a360f50de3031e",
            "bc1a0643b12e4d2d7c77918f44e0f4f79a838b6cf9ec5b5c283e1f4d88599e6b",
        ],
    ),
];

// Leaves in a slice.
#[derive(Drop)]
struct SliceLeaves<'a> {
    leaves: &'a [&'a [u8]],
    ghost few: { length leaves.now < 2 ^ 32 },
}

impl Leaves for SliceLeaves<'_> {
    ghost items = { λ s. map (λ d. d.now) s.leaves.now };

    fn len(&self) -> u32 {
        self.leaves.len() as u32
    }

    fn leaf_digest<H: Hash32>(&self, i: u32, steps: &mut Steps) -> [u8; 32] {
        H::digest2(0, self.leaves[i as usize], &[], steps)
    }
}

// Whether the first leaves, up to this one, have this root.
fn has_root(alloc: Global, last: usize, text: &str) -> bool {
    if last >= LEAVES.len() {
        return false;
    }
    let mut steps = Steps::new(alloc);
    let leaves = SliceLeaves {
        leaves: &LEAVES[..=last],
    };
    is_digest(&root::<Sha, _>(&leaves, &mut steps), text)
}

#[test]
fn roots_of_the_first_leaves(rt: HostRuntime) {
    for (last, text) in ROOTS.iter().enumerate() {
        assert!(rt; has_root(rt.alloc(), last, text));
    }
}

// The digests that leaf `at` of the first `n` leaves needs, from left to right, or none if there is no such leaf.
fn path(alloc: Global, at: u32, n: u32) -> Result<Digests, OutOfMemory> {
    let mut out = Digests::new(alloc);
    if at < n && n <= 8 {
        let mut steps = Steps::new(alloc);
        let leaves = SliceLeaves {
            leaves: &LEAVES[..n as usize],
        };
        elided::<Sha, _>(&leaves, &[at], &mut out, &mut steps)?;
    }
    Ok(out)
}

#[test]
fn audit_paths(rt: HostRuntime) -> Result<(), Fail> {
    for (at, n, wanted) in PATHS {
        let path = path(rt.alloc(), at, n)?;
        let digests = path.as_slice();
        assert!(rt; digests.len() == wanted.len(), "leaf {at}");
        assert!(rt;
            digests
                .iter()
                .zip(wanted)
                .all(|(digest, text)| is_digest(digest, text)),
            "leaf {at}"
        );
    }
    Ok(())
}
