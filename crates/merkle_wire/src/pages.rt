//! The digests of pages in messages: each as a byte 0 where there is no page, or a byte 1 and its 16 bytes.
ghost use Rattle.std.specs.Prelude.{OnOk, IfOk, IfErr};
ghost use Rattle.std.specs.Option.{option_map};
ghost use Rattle.merkle_bytes.specs.Encodings.{AddsBytes};
ghost use Rattle.merkle_bytes.specs.Options.{option_bytes};
ghost use Rattle.merkle_bytes.specs.Reading.{Reads, BeginsWithNo};
ghost use Rattle.merkle_bytes.specs.Refusals.{IsMalformed};
ghost use Rattle.merkle_wire.specs.Coming.{IsPageDigest};

use merkle_bytes::{ReadError, Reader};
use merkle_digest::PageDigest;
use std::alloc::AllocError;

/// Writes the digest of a page, where there is one.
pub(crate) fn encode_page(
    digest: Option<&PageDigest>,
    bytes: &mut Vec<u8>,
) -> Result<(), AllocError>
    ensures { OnOk result (AddsBytes bytes.old (option_bytes (λ d. d) (option_map (λ d. d.now) digest.entry)) bytes.new) }
{
    match digest {
        None => bytes.extend_from_slice(&[0]),
        Some(digest) => {
            bytes.extend_from_slice(&[1])?;
            bytes.extend_from_slice(digest.as_bytes())
        }
    }
}

/// Reads the digest of a page, where there is one.
pub(crate) fn decode_page(reader: &mut Reader<'_>) -> Result<Option<PageDigest>, ReadError>
    ensures len { IfOk result IsPageDigest }
    ensures read { IfOk result (λ digest. Reads reader.old (option_bytes (λ d. d) digest) reader.new) }
    ensures malformed { IfErr result (λ error. IsMalformed error → BeginsWithNo (option_bytes (λ d. d)) IsPageDigest reader.old.left.now) }
{
    if reader.flag()? {
        Ok(Some(PageDigest::new(reader.array::<16>()?)))
    } else {
        Ok(None)
    }
}
