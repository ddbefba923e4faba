//! Entries of a run: what is written after a key, and read back by what it shares with it.
ghost use Rattle.std.specs.Prelude.{◌≡◌, ◌++◌, ◌≤◌, ℕ, List, length, true, OnOk, IfOk, IfErr};
ghost use Rattle.merkle_bytes.specs.Reading.{FindsNo};
ghost use Rattle.merkle_bytes.specs.Refusals.{IsRefusal};

use crate::error::ReadError;
use crate::key_run::KeyRun;
use crate::reader::Reader;
use std::alloc::AllocError;

/// An entry that is written after a key.
pub trait EncodeInRun {
    /// The bytes of the entry after a key with these bytes.
    ghost bytes_behind: { List ℕ → Self → List ℕ };

    /// The bytes of the last key after the entry.
    ghost last_key: { List ℕ → Self → List ℕ };

    /// Writes the entry after the bytes that are there.
    fn encode_behind(&self, run: &mut KeyRun, bytes: &mut Vec<u8>) -> Result<(), AllocError>
        ensures written { OnOk result (bytes.new.items ≡ bytes.old.items ++ bytes_behind run.old self.now) }
        ensures last { OnOk result (run.new ≡ last_key run.old self.now) };
}

/// The entry that it points to.
impl<T: EncodeInRun> EncodeInRun for &T {
    ghost bytes_behind = { λ last entry. T.bytes_behind last entry.now };

    ghost last_key = { λ last entry. T.last_key last entry.now };

    fn encode_behind(&self, run: &mut KeyRun, bytes: &mut Vec<u8>) -> Result<(), AllocError> {
        (**self).encode_behind(run, bytes)
    }
}

/// An entry that can be read back after the same key, and from no other bytes.
pub trait DecodeInRun: EncodeInRun + Eq + Drop {
    /// What an entry that is read keeps to.
    ghost is_entry: { Self → Type 0 };

    /// Reads the next entry.
    ///
    /// # Errors
    ///
    /// [`ReadError`], where no entry's bytes stand at the front, or out of memory.
    fn decode_behind(run: &mut KeyRun, reader: &mut Reader<'_>) -> Result<Self, ReadError>
        ensures read { IfOk result (λ entry. reader.old.left.now ≡ Self.bytes_behind run.old entry ++ reader.new.left.now) }
        ensures entry { IfOk result is_entry }
        ensures last { IfOk result (λ entry. run.new ≡ Self.last_key run.old entry) }
        ensures total { reader.new.total ≡ reader.old.total }
        ensures refused { IfErr result (IsRefusal reader.old.total reader.old.left.now) }
        ensures malformed { IfErr result (FindsNo (Self.bytes_behind run.old) is_entry reader.old) };

    /// An entry has at least one byte.
    ghost some: { (last : List ℕ) (x : Self) → 1 ≤ length (Self.bytes_behind last x) };

    /// Bytes that begin with those of an entry tell it, the last key after it, and where they end.
    ghost told: { (last : List ℕ) (x y : Self) (r s : List ℕ)
        → Self.bytes_behind last x ++ r ≡ Self.bytes_behind last y ++ s → (Self.eq x y ≡ true) × (Self.last_key last x ≡ Self.last_key last y) × (r ≡ s) };
}
