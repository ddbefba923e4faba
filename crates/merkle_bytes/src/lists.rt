//! Lists as how many entries they have, and the entries.
ghost use Rattle.std.specs.Prelude.{◌≡◌, ◌++◌, OnOk, IfOk, IfErr};
ghost use Rattle.std.specs.List.{AllByRecursion};
ghost use Rattle.merkle_bytes.specs.Encodings.{list_bytes};
ghost use Rattle.merkle_bytes.specs.Reading.{FindsNoList};
ghost use Rattle.merkle_bytes.specs.Refusals.{IsRefusal};

use crate::counts::encode_count;
use crate::decode::Decode;
use crate::encode::Encode;
use crate::error::ReadError;
use crate::reader::Reader;
use std::alloc::AllocError;

/// Writes a list after the bytes that are there.
///
/// ```rust crates/examples/src/lists.rt
/// let mut bytes = Vec::new(alloc);
/// encode_list(list, &mut bytes)?;
/// Ok(bytes)
/// ```
pub fn encode_list<T: Encode>(list: &[T], bytes: &mut Vec<u8>) -> Result<(), AllocError>
    ensures { OnOk result (bytes.new.items ≡ bytes.old.items ++ list_bytes T.encoding list.now) }
{
    encode_count(list.len() as u64, bytes)?;
    'entries: for entry in list {
        entry.encode(bytes)?;
    }
    Ok(())
}

/// Reads the next list. The memory that it takes grows with the bytes that are read, and not with the length that was promised.
///
/// ```rust crates/examples/src/lists.rt
/// let mut reader = Reader::new(alloc, bytes);
/// let list = decode_list(&mut reader)?;
/// reader.end()?;
/// Ok(list)
/// ```
///
/// # Errors
///
/// [`ReadError`], where no list's bytes stand at the front, with the place and what was expected there, or out of memory.
pub fn decode_list<T: Decode>(reader: &mut Reader<'_>) -> Result<Vec<T>, ReadError>
    ensures read { IfOk result (λ list. reader.old.left.now ≡ list_bytes T.encoding list.items ++ reader.new.left.now) }
    ensures values { IfOk result (λ list. AllByRecursion T.is_value list.items) }
    ensures total { reader.new.total ≡ reader.old.total }
    ensures refused { IfErr result (IsRefusal reader.old.total reader.old.left.now) }
    ensures malformed { IfErr result (FindsNoList (list_bytes T.encoding) T.is_value reader.old) }
{
    let alloc = reader.alloc();
    let count = reader.count()?;
    let mut list = Vec::new(alloc);
    'entries: for _done in 0..count {
        let next = T::decode(reader)?;
        if list.push(next).is_err() {
            return Err(ReadError::Memory);
        }
    }
    Ok(list)
}
