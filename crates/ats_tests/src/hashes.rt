//! The digests of two examples.

use crate::digests::is_digest;
use ats_hash::{Hash32, Sha, Steps, Weak};
use std::alloc::Global;

fn is_sha_of_abc(alloc: Global) -> bool {
    let mut steps = Steps::new(alloc);
    let digest = Sha::digest2(0x61, b"b", b"c", &mut steps);
    is_digest(
        &digest,
        "ba7816bf8f01cfea414140de5dae2223b00361a396177a9cb410ff61f20015ad",
    )
}

fn is_weak_sum(alloc: Global) -> bool {
    let mut steps = Steps::new(alloc);
    let digest = Weak::digest2(1, &[2], &[3], &mut steps);
    is_digest(
        &digest,
        "0006000000000000000000000000000000000000000000000000000000000000",
    )
}

// FIPS 180-4: the digest of the example message "abc".
#[test]
fn digests_of_three_bytes(rt: HostRuntime) {
    assert!(rt; is_sha_of_abc(rt.alloc()));
    assert!(rt; is_weak_sum(rt.alloc()));
}
