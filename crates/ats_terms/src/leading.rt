//! The first bytes of a term as a number.

ghost use Rattle.std.specs.Prelude.{◌≡◌};
ghost use Rattle.ats_terms.specs.Front.{front, AreBytes};
ghost use Rattle.ats_terms.specs.Order.{byte_cmp};

use byteorder::{BigEndian, ByteOrder};
use std::cmp::Ordering;

/// The first 8 bytes of a term as a number, high byte first, padded with zeros. Terms with different numbers are in the
/// same order as their numbers, so two numbers decide most comparisons.
pub fn front(term: &[u8]) -> u64
    ensures value { result ≡ front 8 term.now }
    ensures bytes { AreBytes term.now }
{
    if term.len() >= 8 {
        return BigEndian::read_u64(term);
    }
    if term.len() >= 4 {
        // The last 4 bytes. Those that are among the first 4 too are shifted out.
        let last = u64::from(BigEndian::read_u32(&term[term.len() - 4..]));
        let rest = (last << (8 * (8 - term.len()))) % (1 << 32);
        return (u64::from(BigEndian::read_u32(term)) << 32) + rest;
    }
    let mut first = [0; 8];
    first[..term.len()].copy_from_slice(term);
    BigEndian::read_u64(&first)
}

/// The byte order of two terms whose numbers of the first 8 bytes are known. The terms are read only if the numbers are
/// equal and both terms have more than 8 bytes.
pub fn cmp_by_front(first: u64, term: &[u8], other_first: u64, other: &[u8]) -> Ordering
    requires first { first ≡ front 8 term.now }
    requires bytes { AreBytes term.now }
    requires other_first { other_first ≡ front 8 other.now }
    requires other_bytes { AreBytes other.now }
    ensures { result ≡ byte_cmp term.now other.now }
{
    match first.cmp(&other_first) {
        Ordering::Equal if term.len().min(other.len()) <= 8 => term.len().cmp(&other.len()),
        Ordering::Equal => term.cmp(other),
        unequal => unequal,
    }
}
