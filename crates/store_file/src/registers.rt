//! What replicas and peers take registers for: bytes of a digest and of a message, and a join.
ghost use Rattle.std.specs.Prelude.{◌≡◌, ◌++◌, OnOk};
ghost use Rattle.merkle_digest.specs.Sip24.{Holds};
ghost use Rattle.store_file.specs.WireRegisters.{register_encoding, said_encoding, IsRegister, IsSaid, register_some, register_told, said_some, said_told};

use crate::register::Register;
use crate::value::Value;
use key_order::Join;
use merkle_bytes::{Decode, Encode, Expected, ReadError, Reader, encode_count};
use merkle_digest::{HashBytes, Sip24};
use std::alloc::{AllocError, Global};

/// Its time, the length of the writer's name and the name, and 0, or the mark of the value's kind and its bytes: so that unequal registers feed
/// unequal bytes.
impl HashBytes for Register {
    ghost use Rattle.store_file.specs.RegisterBytes.{register_bytes};
    ghost use Rattle.store_file.specs.RegisterLaws.{same_bytes};

    ghost fed_bytes = { register_bytes };

    ghost fed_bytes_respect_eq = { same_bytes };

    fn feed(&self, sip: &mut Sip24) {
        self.time.feed(sip);
        (self.writer.as_bytes().len() as u64).feed(sip);
        self.writer.feed(sip);
        match &self.value {
            Some(value) => {
                value.mark().feed(sip);
                sip.write(value.as_bytes());
            }
            None => 0u8.feed(sip),
        }
    }
}

/// The later of two registers. It takes the memory of a copy.
impl Join for Register {
    ghost use Rattle.std.specs.Ordering.{ord_max};
    ghost use Rattle.key_order.proofs.Greater.{greater_joining};
    ghost use Rattle.store_file.specs.contracts.register.RegisterOrd.TheImpl.Laws.{total-law, matches_eq-law};

    ghost join_of = { ord_max ⟦<Register as Ord>⟧.cmp };

    ghost joining = { greater_joining ⟦<Register as Ord>⟧.cmp total-law ⟦<Register as PartialEq>⟧.eq matches_eq-law };

    fn join(&self, _alloc: Global, other: &Self) -> Result<Self, AllocError> {
        if *other < *self {
            self.copy()
        } else {
            other.copy()
        }
    }
}

/// Writes what is said of a key: a byte 0, or the mark of the value's kind, how many bytes it has, and the bytes.
fn encode_said(said: &Option<Value>, bytes: &mut Vec<u8>) -> Result<(), AllocError>
    ensures { OnOk result (bytes.new.items ≡ bytes.old.items ++ said_encoding said.now) }
{
    let Some(value) = said else {
        return bytes.extend_from_slice(&[0]);
    };
    bytes.extend_from_slice(&[value.mark()])?;
    encode_count(value.as_bytes().len() as u64, bytes)?;
    bytes.extend_from_slice(value.as_bytes())
}

/// Its time, its writer and its value, or that it has none.
impl Encode for Register {
    ghost encoding = { register_encoding };

    fn encode(&self, bytes: &mut Vec<u8>) -> Result<(), AllocError> {
        self.time.encode(bytes)?;
        self.writer.encode(bytes)?;
        encode_said(&self.value, bytes)
    }
}

/// What is said of a key: a value, or that it was removed.
#[derive(PartialEq, Eq, Drop)]
struct Said {
    value: Option<Value>,
}

impl Encode for Said {
    ghost encoding = { λ said. said_encoding said.value };

    fn encode(&self, bytes: &mut Vec<u8>) -> Result<(), AllocError> {
        encode_said(&self.value, bytes)
    }
}

/// A value has one form: bytes with the mark of another kind than theirs are refused.
impl Decode for Said {
    ghost is_value = { λ said. IsSaid said.value };

    ghost some = { λ said. said_some said.value };

    ghost told = { λ a b r s. said_told a.value b.value r s };

    fn decode(reader: &mut Reader<'_>) -> Result<Self, ReadError> {
        let alloc = reader.alloc();
        let misplaced = reader.unexpected(Expected::Kind);
        let [mark] = reader.array::<1>()?;
        if mark == 0 {
            return Ok(Said { value: None });
        }
        let bytes = reader.byte_string()?;
        let value = Value::of(Vec::from_slice(alloc, bytes)?);
        if value.mark() != mark {
            return Err(misplaced);
        }
        Ok(Said { value: Some(value) })
    }
}

impl Decode for Register {
    ghost is_value = { IsRegister ⟦<String as Decode>⟧.is_value };

    ghost some = { register_some };

    ghost told = { register_told };

    fn decode(reader: &mut Reader<'_>) -> Result<Self, ReadError> {
        let (time, (writer, said)) = <(u64, (String, Said))>::decode(reader)?;
        Ok(Register {
            time,
            writer,
            value: said.value,
        })
    }
}
