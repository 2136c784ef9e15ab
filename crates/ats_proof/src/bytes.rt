//! Numbers and digests at the front of bytes.

ghost use Rattle.std.specs.Prelude.{◌≡◌, ◌≤◌, ◌<◌, ◌*◌, length, take, drop};
ghost use Rattle.ats_proof.specs.Parts.{number_in};

use byteorder::{BigEndian, ByteOrder};

pub(crate) fn number_1(bytes: &[u8]) -> u8
    requires { 1 ≤ length bytes.now }
    ensures { result ≡ number_in 1 bytes.now }
{
    bytes[0]
}

pub(crate) fn number_2(bytes: &[u8]) -> u16
    requires { 2 ≤ length bytes.now }
    ensures { result ≡ number_in 2 bytes.now }
{
    BigEndian::read_u16(bytes)
}

pub(crate) fn number_4(bytes: &[u8]) -> u32
    requires { 4 ≤ length bytes.now }
    ensures { result ≡ number_in 4 bytes.now }
{
    BigEndian::read_u32(bytes)
}

pub(crate) fn digest(bytes: &[u8]) -> [u8; 32]
    requires { 32 ≤ length bytes.now }
    ensures { result ≡ take 32 bytes.now }
{
    let mut digest = [0; 32];
    digest.copy_from_slice(&bytes[..32]);
    digest
}

/// The bytes from part `i` on, if there are `count` parts of one size.
pub(crate) fn nth(bytes: &[u8], count: u32, size: usize, i: u32) -> &[u8]
    requires within { i < count }
    requires small { size ≤ 64 }
    requires space { count * size ≤ length bytes.now }
    ensures part { result.now ≡ drop (size * i) bytes.now }
    ensures space { size ≤ length result.now }
{
    let (_, part) = bytes.split_at(size * i as usize);
    part
}
