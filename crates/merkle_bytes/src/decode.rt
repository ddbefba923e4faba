//! Values, read from their bytes.
ghost use Rattle.std.specs.Prelude.{◌≡◌, ◌++◌, ◌≤◌, ℕ, List, length, true, IfOk, IfErr};
ghost use Rattle.merkle_bytes.specs.Reading.{FindsNo};
ghost use Rattle.merkle_bytes.specs.Refusals.{IsRefusal};

use crate::encode::Encode;
use crate::error::ReadError;
use crate::reader::Reader;

/// A value that can be read back from its bytes, and from no others.
pub trait Decode: Encode + Eq + Drop {
    /// What a value that is read keeps to.
    ghost is_value: { Self → Type 0 };

    /// Reads the next value.
    ///
    /// # Errors
    ///
    /// [`ReadError`], where no value's bytes stand at the front, with the place and what was expected there, or out of memory.
    fn decode(reader: &mut Reader<'_>) -> Result<Self, ReadError>
        ensures read { IfOk result (λ value. reader.old.left.now ≡ Self.encoding value ++ reader.new.left.now) }
        ensures value { IfOk result (λ value. is_value value) }
        ensures total { reader.new.total ≡ reader.old.total }
        ensures refused { IfErr result (IsRefusal reader.old.total reader.old.left.now) }
        ensures malformed { IfErr result (FindsNo Self.encoding is_value reader.old) };

    /// A value has at least one byte.
    ghost some: { (x : Self) → 1 ≤ length (Self.encoding x) };

    /// Bytes that begin with the bytes of a value tell it, and where they end.
    ghost told: { (x y : Self) (r s : List ℕ) → Self.encoding x ++ r ≡ Self.encoding y ++ s → (Self.eq x y ≡ true) × (r ≡ s) };
}
