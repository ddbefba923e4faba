//! The checksums of chunks, and the digests of whole byte strings.
ghost use Rattle.std.specs.Prelude.{◌≡◌};
ghost use Rattle.merkle_delta.specs.Chunks.{checksum, digest_of};

use merkle_digest::Sip24;

/// Above each checksum: they have 28 bits, so that a count of one has four bytes at most.
const ABOVE: u32 = 1 << 28;

/// The digest of bytes, by SipHash under the zero key.
pub(crate) fn digest_of(bytes: &[u8]) -> [u8; 16]
    ensures { result ≡ digest_of bytes.now }
{
    let mut sip = Sip24::new();
    sip.write(bytes);
    sip.finish128()
}

/// The checksum of a chunk.
pub(crate) fn checksum(chunk: &[u8]) -> u32
    ensures { result ≡ checksum chunk.now }
{
    let [a, b, c, d, _, _, _, _, _, _, _, _, _, _, _, _] = digest_of(chunk);
    u32::from_le_bytes([a, b, c, d]) % ABOVE
}
