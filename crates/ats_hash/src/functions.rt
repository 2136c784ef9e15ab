//! SHA-256, and a weak sum for tests.

ghost use Rattle.std.specs.Prelude.{◌≡◌, ◌+◌, ◌%◌, ◌^◌, sum};
ghost use Rattle.sha2.specs.Sha256.{sha256};
ghost use Rattle.ats_hash.specs.Digest.{weak_sum, length-weak_sum, length-sha256_lem};

use crate::counter::Steps;
use crate::kinds::{Hash32, HashKind};
use sha2::{Digest, Sha256};

/// SHA-256 of FIPS 180-4, as the crate `sha2` computes it.
#[derive(Clone, Copy, Debug)]
pub struct Sha;

impl HashKind for Sha {
    ghost hash = { sha256 };

    ghost sized = { length-sha256_lem };
}

impl Hash32 for Sha {
    fn digest2(tag: u8, a: &[u8], b: &[u8], steps: &mut Steps) -> [u8; 32] {
        steps.tick();
        let mut hasher = Sha256::new();
        hasher.update(&[tag]);
        hasher.update(a);
        hasher.update(b);
        hasher.finalize()
    }
}

/// The sum of the bytes modulo 65,536, high byte first, then 30 zero bytes. It exists so that tests have
/// collisions.
#[derive(Clone, Copy, Debug)]
pub struct Weak;

impl HashKind for Weak {
    ghost hash = { weak_sum };

    ghost sized = { length-weak_sum };
}

impl Hash32 for Weak {
    fn digest2(tag: u8, a: &[u8], b: &[u8], steps: &mut Steps) -> [u8; 32] {
        steps.tick();
        let [high, low] = sum_on(sum_on(u16::from(tag), a), b).to_be_bytes();
        let mut digest = [0; 32];
        digest[0] = high;
        digest[1] = low;
        digest
    }
}

/// The sum of `start` and the bytes, modulo 65,536.
fn sum_on(start: u16, bytes: &[u8]) -> u16
    ensures { result ≡ (start + sum bytes.now) % 2 ^ 16 }
{
    let mut total = start;
    for byte in bytes {
        total = total.wrapping_add(u16::from(*byte));
    }
    total
}
