//! Sixteen bytes, as C passes them.

/// A digest, or a key of SipHash.
#[repr(C)]
#[derive(Drop)]
pub struct MstBytes16 {
    pub bytes: [u8; 16],
}
