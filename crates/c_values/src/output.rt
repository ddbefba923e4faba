//! Bytes for the caller.
ghost use Rattle.std.specs.Prelude.{◌≡◌, ◌≢◌, ◌<◌, ◌↔◌, ◌⊎◌, IsOkAnd, length};
ghost use Rattle.c_values.specs.Output.{AreInFront};

use crate::status::{DONE, MEMORY, SHORT};
use std::alloc::AllocError;

/// Puts bytes at the front of `out`, and their count at `needed`: `DONE`, or `SHORT` where `out` is too short, and is as before then.
pub fn put_bytes(bytes: &[u8], out: &mut [u8], needed: &mut usize) -> u32
    ensures done { result ≡ 0 → AreInFront bytes.now out.old out.new }
    ensures needed { needed.new ≡ length bytes.now }
    ensures short { (result ≡ 3) ↔ (length out.old < length bytes.now) }
    ensures unchanged { result ≢ 0 → out.new ≡ out.old }
    ensures status { (result ≡ 0) ⊎ (result ≡ 3) }
{
    *needed = bytes.len();
    if out.len() < bytes.len() {
        return SHORT;
    }
    let (front, _) = out.split_at_mut(bytes.len());
    front.copy_from_slice(bytes);
    DONE
}

/// The same of bytes that were made, where they were: `MEMORY` where there was no memory for them, and then `needed` is as before too.
pub fn put_made(made: Result<Vec<u8>, AllocError>, out: &mut [u8], needed: &mut usize) -> u32
    ensures done { result ≡ 0 → IsOkAnd made (λ bytes. AreInFront bytes.items out.old out.new) }
    ensures short { result ≡ 3 → IsOkAnd made (λ bytes. length out.old < length bytes.items) }
    ensures needed { result ≢ 1 → IsOkAnd made (λ bytes. needed.new ≡ length bytes.items) }
    ensures unchanged { result ≢ 0 → out.new ≡ out.old }
    ensures refused { result ≡ 1 → needed.new ≡ needed.old }
    ensures status { (result ≡ 0) ⊎ (result ≡ 1) ⊎ (result ≡ 3) }
{
    match made {
        Ok(bytes) => put_bytes(bytes.as_slice(), out, needed),
        Err(_) => MEMORY,
    }
}
