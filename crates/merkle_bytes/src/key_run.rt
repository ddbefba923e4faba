//! Keys one after the other: each is written as what it shares with the first 255 bytes of the one before, and the bytes that it has after
//! that.
ghost use Rattle.std.specs.Prelude.{◌≡◌, ◌≢◌, ◌++◌, ◌↔◌, ℕ, List, [], OnOk, IfOk, IfErr, IsTrue};
ghost use Rattle.std.specs.Option.{option_map};
ghost use Rattle.merkle_bytes.specs.Keys.{key_behind, GoOnApart};
ghost use Rattle.merkle_bytes.specs.Reading.{FindsNo, Reads};
ghost use Rattle.merkle_bytes.specs.Refusals.{IsMalformed, IsRefusal};
ghost use Rattle.merkle_bytes.specs.Runs.{bound_key};

use crate::decode::Decode;
use crate::encode::Encode;
use crate::error::{Expected, ReadError};
use crate::fronts::{encode_front, shareable, shared_len};
use crate::reader::Reader;
use std::alloc::{AllocError, Global};
use std::marker::Model;

/// Where a run of keys is: a contract sees the bytes of the last key, of which there are none before the first.
///
/// Who writes keys and who reads them keep one each, and begin them alike.
#[derive(Drop)]
pub struct KeyRun {
    last: Vec<u8>,
    next: Vec<u8>,
}

impl Model for KeyRun {
    ghost Value = { List ℕ };

    ghost view = { λ run. run.last.items };
}

impl KeyRun {
    /// A run before its first key. It takes no memory.
    pub fn new(alloc: Global) -> Self
        ensures { result ≡ [] }
    {
        KeyRun {
            last: Vec::new(alloc),
            next: Vec::new(alloc),
        }
    }

    /// A run after a bound: its first key is written by what it shares with that, where it is there.
    ///
    /// # Errors
    ///
    /// Out of memory.
    pub fn behind<K: Encode>(alloc: Global, bound: Option<&K>) -> Result<Self, AllocError>
        ensures { IfOk result (λ run. run ≡ bound_key K.encoding [] (option_map (λ key. key.now) bound.entry)) }
    {
        let mut run = KeyRun::new(alloc);
        if let Some(key) = bound {
            key.encode(&mut run.last)?;
        }
        Ok(run)
    }

    /// Writes a key after the bytes that are there.
    ///
    /// # Errors
    ///
    /// Out of memory.
    pub fn encode<K: Encode>(&mut self, key: &K, bytes: &mut Vec<u8>) -> Result<(), AllocError>
        ensures written { OnOk result (bytes.new.items ≡ bytes.old.items ++ key_behind self.old (K.encoding key.now)) }
        ensures last { OnOk result (self.new ≡ K.encoding key.now) }
    {
        self.next.clear();
        key.encode(&mut self.next)?;
        let kept = shared_len(shareable(&self.last), &self.next);
        let (_, rest) = self.next.split_at(kept);
        encode_front(kept as u64, rest.len() as u64, bytes)?;
        bytes.extend_from_slice(rest)?;
        std::mem::swap(&mut self.last, &mut self.next);
        Ok(())
    }

    /// Reads the next key. It has at most 251 bytes more than are read, and at most 64 times as many, so the memory that it takes grows with the
    /// bytes that are read ([`laws::keys_of_a_run_are_bounded`](crate::laws::keys_of_a_run_are_bounded)).
    ///
    /// # Errors
    ///
    /// [`ReadError`], where no key stands at the front that is written by what it shares with the last one, or when out of memory.
    pub fn decode<K: Decode>(&mut self, reader: &mut Reader<'_>) -> Result<K, ReadError>
        ensures read { IfOk result (λ key. Reads reader.old (key_behind self.old (K.encoding key)) reader.new) }
        ensures value { IfOk result K.is_value }
        ensures last { IfOk result (λ key. self.new ≡ K.encoding key) }
        ensures total { reader.new.total ≡ reader.old.total }
        ensures refused { IfErr result (IsRefusal reader.old.total reader.old.left.now) }
        ensures malformed { IfErr result (FindsNo (λ key. key_behind self.old (K.encoding key)) K.is_value reader.old) }
    {
        let part = shareable(&self.last);
        let part_len = part.len() as u64;
        let (kept, more) = reader.front()?;
        if kept > part_len {
            return Err(reader.unexpected(Expected::Front));
        }
        let rest = reader.slice(more as usize)?;
        let (_, after) = part.split_at(kept as usize);
        if !go_on_apart(after, rest) {
            return Err(reader.unexpected(Expected::Front));
        }
        self.last.truncate(kept as usize);
        self.last.extend_from_slice(rest)?;
        match whole_key(reader.alloc(), &self.last) {
            Ok(key) => return Ok(key),
            Err(ReadError::Memory) => return Err(ReadError::Memory),
            Err(ReadError::Unexpected { .. }) => return Err(reader.unexpected(Expected::Key)),
        }
    }
}

/// Whether one of them ends, or their first bytes differ.
fn go_on_apart(after: &[u8], rest: &[u8]) -> bool
    ensures { IsTrue result ↔ GoOnApart after.now rest.now }
{
    match after.first() {
        None => true,
        Some(byte) => match rest.first() {
            None => true,
            Some(other) => *byte != *other,
        },
    }
}

/// The key that has these bytes and no others.
fn whole_key<K: Decode>(alloc: Global, bytes: &[u8]) -> Result<K, ReadError>
    ensures read { IfOk result (λ key. bytes.now ≡ K.encoding key) }
    ensures value { IfOk result K.is_value }
    ensures malformed { IfErr result (λ error. IsMalformed error → (key : K) → K.is_value key → bytes.now ≢ K.encoding key) }
{
    let mut reader = Reader::new(alloc, bytes);
    let key = K::decode(&mut reader)?;
    reader.end()?;
    Ok(key)
}
