//! Digests as hexadecimal text.

/// Whether the digest is the one of these hexadecimal digits.
pub fn is_digest(digest: &[u8; 32], text: &str) -> bool {
    let mut bytes = [0; 32];
    hex::decode_to_slice(text, &mut bytes).is_ok() && *digest == bytes
}
