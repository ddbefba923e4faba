//! Bytes that came, read one part after the other.
ghost use Rattle.std.specs.Prelude.{◌≡◌, ◌≢◌, ◌++◌, ◌∷◌, ◌<◌, ◌-◌, ◌^◌, cond, [], OnOk, IfOk, IfErr, length};
ghost use Rattle.merkle_bytes.specs.Counts.{count_bytes};
ghost use Rattle.merkle_bytes.specs.Encodings.{flag_bytes, string_encoding};
ghost use Rattle.merkle_bytes.specs.Keys.{front_bytes};
ghost use Rattle.merkle_bytes.specs.Reading.{BeginsWithNoFront, FindsNo, FindsNone};
ghost use Rattle.merkle_bytes.specs.Refusals.{IsMalformed, IsRefusal};
ghost use Rattle.merkle_bytes.specs.declared.error.ReadError.TheVariants.{Unexpected};

use crate::counts::decode_count;
use crate::error::{Expected, ReadError};
use crate::fronts::decode_front;
use std::alloc::Global;

/// Bytes that came, of which those that are left are still to be read.
#[derive(Drop)]
pub struct Reader<'a> {
    alloc: Global,
    total: usize,
    left: &'a [u8],
}

impl<'a> Reader<'a> {
    /// A reader of these bytes.
    pub fn new(alloc: Global, bytes: &'a [u8]) -> Self
        ensures left { result.left.now ≡ bytes.now }
        ensures total { result.total ≡ length bytes.now }
    {
        Reader {
            alloc,
            total: bytes.len(),
            left: bytes,
        }
    }

    /// The allocator.
    pub fn alloc(&self) -> Global {
        self.alloc
    }

    /// The bytes that are left.
    pub fn left(&self) -> &'a [u8]
        ensures { result.now ≡ self.now.left.now }
    {
        self.left
    }

    /// That this does not stand where the bytes that are left begin.
    pub fn unexpected(&self, expected: Expected) -> ReadError
        ensures { result ≡ Unexpected (self.now.total - length self.now.left.now) expected }
    {
        ReadError::Unexpected {
            offset: self.total.saturating_sub(self.left.len()),
            expected,
        }
    }

    /// The next `M` bytes.
    pub fn array<const M: usize>(&mut self) -> Result<[u8; M], ReadError>
        ensures read { IfOk result (λ bytes. self.old.left.now ≡ bytes ++ self.new.left.now) }
        ensures len { IfOk result (λ bytes. length bytes ≡ M) }
        ensures total { self.new.total ≡ self.old.total }
        ensures refused { IfErr result (IsRefusal self.old.total self.old.left.now) }
        ensures malformed { IfErr result (λ error. IsMalformed error → length self.old.left.now < M) }
    {
        let Some((bytes, left)) = self.left.split_first_chunk::<M>() else {
            return Err(self.unexpected(Expected::Bytes(M as u64)));
        };
        self.left = left;
        Ok(*bytes)
    }

    /// The next bytes, this many of them.
    pub fn slice(&mut self, count: usize) -> Result<&'a [u8], ReadError>
        ensures read { IfOk result (λ bytes. self.old.left.now ≡ bytes.now ++ self.new.left.now) }
        ensures len { IfOk result (λ bytes. length bytes.now ≡ count) }
        ensures total { self.new.total ≡ self.old.total }
        ensures refused { IfErr result (IsRefusal self.old.total self.old.left.now) }
        ensures malformed { IfErr result (λ error. IsMalformed error → length self.old.left.now < count) }
    {
        let Some((bytes, left)) = self.left.split_at_checked(count) else {
            return Err(self.unexpected(Expected::Bytes(count as u64)));
        };
        self.left = left;
        Ok(bytes)
    }

    /// The next byte, 0 for false or 1 for true.
    pub fn flag(&mut self) -> Result<bool, ReadError>
        ensures read { IfOk result (λ flag. self.old.left.now ≡ cond flag 1 0 ∷ self.new.left.now) }
        ensures total { self.new.total ≡ self.old.total }
        ensures refused { IfErr result (IsRefusal self.old.total self.old.left.now) }
        ensures malformed { IfErr result (FindsNone flag_bytes self.old) }
    {
        let Some((byte, left)) = self.left.split_first() else {
            return Err(self.unexpected(Expected::Bytes(1)));
        };
        let flag = match *byte {
            0 => false,
            1 => true,
            _ => return Err(self.unexpected(Expected::Flag)),
        };
        self.left = left;
        Ok(flag)
    }

    /// The next count.
    pub fn count(&mut self) -> Result<u64, ReadError>
        ensures read { IfOk result (λ count. self.old.left.now ≡ count_bytes count ++ self.new.left.now) }
        ensures total { self.new.total ≡ self.old.total }
        ensures refused { IfErr result (IsRefusal self.old.total self.old.left.now) }
        ensures malformed { IfErr result (FindsNo count_bytes (λ count. count < 2 ^ 64) self.old) }
    {
        let Some((count, left)) = decode_count(self.left) else {
            return Err(self.unexpected(Expected::Count));
        };
        self.left = left;
        Ok(count)
    }

    /// The next two counts of a key: how many bytes it keeps of the one before it, and how many more it has.
    pub(crate) fn front(&mut self) -> Result<(u64, u64), ReadError>
        ensures read { IfOk result (λ counts. self.old.left.now ≡ front_bytes counts.0 counts.1 ++ self.new.left.now) }
        ensures total { self.new.total ≡ self.old.total }
        ensures refused { IfErr result (IsRefusal self.old.total self.old.left.now) }
        ensures malformed { IfErr result (λ error. IsMalformed error → BeginsWithNoFront self.old.left.now) }
    {
        let Some((kept, more, left)) = decode_front(self.left) else {
            return Err(self.unexpected(Expected::Front));
        };
        self.left = left;
        Ok((kept, more))
    }

    /// The bytes of the next byte string, after their number.
    pub fn byte_string(&mut self) -> Result<&'a [u8], ReadError>
        ensures read { IfOk result (λ bytes. self.old.left.now ≡ string_encoding bytes.now ++ self.new.left.now) }
        ensures total { self.new.total ≡ self.old.total }
        ensures refused { IfErr result (IsRefusal self.old.total self.old.left.now) }
        ensures malformed { IfErr result (FindsNone string_encoding self.old) }
    {
        let len = self.count()?;
        let Some((bytes, left)) = self.left.split_at_checked(len as usize) else {
            return Err(self.unexpected(Expected::Bytes(len)));
        };
        self.left = left;
        Ok(bytes)
    }

    /// Nothing: all bytes are read.
    pub fn end(&self) -> Result<(), ReadError>
        ensures ended { OnOk result (self.now.left.now ≡ []) }
        ensures refused { IfErr result (IsRefusal self.now.total self.now.left.now) }
        ensures malformed { IfErr result (λ error. IsMalformed error → self.now.left.now ≢ []) }
    {
        if self.left.is_empty() {
            Ok(())
        } else {
            Err(self.unexpected(Expected::End))
        }
    }
}
