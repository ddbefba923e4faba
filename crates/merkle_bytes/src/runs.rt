//! Lists whose keys are written by what each shares with the one before.
ghost use Rattle.std.specs.Prelude.{◌≡◌, OnOk, IfOk, IfErr};
ghost use Rattle.std.specs.List.{AllByRecursion};
ghost use Rattle.merkle_bytes.specs.Encodings.{AddsBytes};
ghost use Rattle.merkle_bytes.specs.Reading.{FindsNoList, Reads};
ghost use Rattle.merkle_bytes.specs.Refusals.{IsRefusal};
ghost use Rattle.merkle_bytes.specs.Runs.{run_bytes, state_behind};

use crate::counts::encode_count;
use crate::error::ReadError;
use crate::key_run::KeyRun;
use crate::reader::Reader;
use crate::run_entry::{DecodeInRun, EncodeInRun};
use std::alloc::AllocError;

/// Writes a list after the bytes that are there: how many entries it has, and the entries, each after the last key before it.
///
/// # Errors
///
/// Out of memory.
pub fn encode_run<T: EncodeInRun>(
    list: &[T],
    run: &mut KeyRun,
    bytes: &mut Vec<u8>,
) -> Result<(), AllocError>
    ensures written { OnOk result (AddsBytes bytes.old (run_bytes T.bytes_behind T.last_key run.old list.now) bytes.new) }
    ensures last { OnOk result (run.new ≡ state_behind T.bytes_behind T.last_key run.old list.now) }
{
    encode_count(list.len() as u64, bytes)?;
    'entries: for entry in list {
        entry.encode_behind(run, bytes)?;
    }
    Ok(())
}

/// Reads the next list. The memory that it takes grows with the bytes that are read, and not with the length that was promised.
///
/// # Errors
///
/// [`ReadError`], where no list's bytes stand at the front, with the place and what was expected there, or out of memory.
pub fn decode_run<T: DecodeInRun>(
    run: &mut KeyRun,
    reader: &mut Reader<'_>,
) -> Result<Vec<T>, ReadError>
    ensures read { IfOk result (λ list. Reads reader.old (run_bytes T.bytes_behind T.last_key run.old list.items) reader.new) }
    ensures entries { IfOk result (λ list. AllByRecursion T.is_entry list.items) }
    ensures last { IfOk result (λ list. run.new ≡ state_behind T.bytes_behind T.last_key run.old list.items) }
    ensures total { reader.new.total ≡ reader.old.total }
    ensures refused { IfErr result (IsRefusal reader.old.total reader.old.left.now) }
    ensures malformed { IfErr result (FindsNoList (run_bytes T.bytes_behind T.last_key run.old) T.is_entry reader.old) }
{
    let count = reader.count()?;
    let mut list = Vec::new(reader.alloc());
    'entries: for _done in 0..count {
        let next = T::decode_behind(run, reader)?;
        if list.push(next).is_err() {
            return Err(ReadError::Memory);
        }
    }
    Ok(list)
}
