//! Values as bytes.
ghost use Rattle.std.specs.Prelude.{◌≡◌, ◌++◌, ℕ, List, OnOk};

use std::alloc::AllocError;

/// A value that can be written as bytes.
pub trait Encode {
    /// The bytes.
    ghost encoding: { Self → List ℕ };

    /// Writes the bytes after those that are there.
    fn encode(&self, bytes: &mut Vec<u8>) -> Result<(), AllocError>
        ensures { OnOk result (bytes.new.items ≡ bytes.old.items ++ encoding self.now) };
}

/// The bytes of what it points to.
impl<T: Encode> Encode for &T {
    ghost encoding = { λ value. T.encoding value.now };

    fn encode(&self, bytes: &mut Vec<u8>) -> Result<(), AllocError> {
        (**self).encode(bytes)
    }
}
