//! Values as bytes and back, by examples that were worked out by hand, and lengths that are promised.
use crate::hex::bytes_of;
use merkle_bytes::{
    Decode, Encode, Expected, KeyRun, ReadError, Reader, decode_list, decode_run, encode_count,
    encode_list,
};
use std::alloc::Global;
use std::test::Fail;

/// The bytes of a value.
fn written<T: Encode>(alloc: Global, value: &T) -> Result<Vec<u8>, Fail> {
    let mut bytes = Vec::new(alloc);
    value.encode(&mut bytes)?;
    Ok(bytes)
}

/// Counts and their bytes: 150 and 300 are those of the document of Protocol Buffers, 624,485 that of DWARF.
const COUNTS: [(u64, &str); 9] = [
    (0, "00"),
    (127, "7f"),
    (128, "8001"),
    (150, "9601"),
    (300, "ac02"),
    (16_383, "ff7f"),
    (16_384, "808001"),
    (624_485, "e58e26"),
    (u64::MAX, "ffffffffffffffffff01"),
];

#[test]
fn counts_have_one_spelling(rt: HostRuntime) -> Result<(), Fail> {
    let alloc = rt.alloc();
    for case in &COUNTS {
        let wanted = bytes_of(alloc, case.1)?;
        let mut bytes = Vec::new(alloc);
        encode_count(case.0, &mut bytes)?;
        assert!(rt; bytes == wanted, "{}", case.0);
        let mut reader = Reader::new(alloc, &wanted);
        assert!(rt; reader.count()? == case.0);
        assert!(rt; reader.end().is_ok());
    }
    Ok(())
}

/// Keys of a run and the bytes of each after the one before it: how many bytes it keeps and how many more it has, in one byte or after
/// f0, and these.
const KEYS: [(&str, &str); 6] = [
    ("", "01 00"),
    ("ab", "03 02 6162"),
    ("ac", "21 63"),
    ("ac", "30"),
    (
        "acrobatics-at-noon",
        "f0 00 13 12 6163726f62617469 63732d61742d6e6f6f6e",
    ),
    ("acrobatics-at-noun", "f0 11 02 756e"),
];

#[test]
fn keys_are_told_by_what_they_share(rt: HostRuntime) -> Result<(), Fail> {
    let alloc = rt.alloc();
    let mut writing = KeyRun::new(alloc);
    let mut reading = KeyRun::new(alloc);
    for case in &KEYS {
        let key = String::from_str(alloc, case.0)?;
        let wanted = bytes_of(alloc, case.1)?;
        let mut bytes = Vec::new(alloc);
        writing.encode(&key, &mut bytes)?;
        assert!(rt; bytes == wanted, "{}", case.0);
        let mut reader = Reader::new(alloc, &wanted);
        let back = reading.decode::<String>(&mut reader)?;
        assert!(rt; back == key);
        assert!(rt; reader.end().is_ok());
    }
    Ok(())
}

/// Whether a value has these bytes in hex, and is read back from them up to their end.
fn has_bytes<T: Encode + Decode>(alloc: Global, value: &T, text: &str) -> Result<bool, Fail> {
    let wanted = bytes_of(alloc, text)?;
    let mut reader = Reader::new(alloc, &wanted);
    let back = T::decode(&mut reader)?;
    Ok(written(alloc, value)? == wanted && back == *value && reader.end().is_ok())
}

#[test]
fn values_have_these_bytes(rt: HostRuntime) -> Result<(), Fail> {
    let alloc = rt.alloc();
    assert!(rt; has_bytes(alloc, &200u8, "c8")?);
    assert!(rt; has_bytes(alloc, &300u16, "ac02")?);
    assert!(rt; has_bytes(alloc, &u32::MAX, "ffffffff0f")?);
    assert!(rt; has_bytes(alloc, &624_485u64, "e58e26")?);
    assert!(rt; has_bytes(alloc, &(), "00")?);
    assert!(rt; has_bytes(alloc, &None::<u8>, "00")?);
    assert!(rt; has_bytes(alloc, &Some(7u8), "0107")?);
    assert!(rt; has_bytes(alloc, &[7u8, 9], "02 0709")?);
    assert!(rt; has_bytes(alloc, &Vec::from_slice(alloc, &[7, 9, 11])?, "03 07090b")?);
    assert!(rt;
        has_bytes(
            alloc,
            &String::from_str(alloc, "\u{e9}t\u{e9}")?,
            "05 c3a974c3a9"
        )?
    );
    assert!(rt;
        has_bytes(
            alloc,
            &(String::from_str(alloc, "ab")?, 258u64),
            "02 6162 8202"
        )?
    );
    assert!(rt; has_bytes(alloc, &(7u8, (300u64, [1u8])), "07 ac02 0101")?);
    Ok(())
}

/// That this was expected after this many bytes.
fn behind(offset: usize, expected: Expected) -> Option<ReadError> {
    Some(ReadError::Unexpected { offset, expected })
}

#[test]
fn lists_are_a_count_and_entries(rt: HostRuntime) -> Result<(), Fail> {
    let alloc = rt.alloc();
    let list = [1u64, 300];
    let mut bytes = Vec::new(alloc);
    encode_list(&list, &mut bytes)?;
    assert!(rt; bytes == bytes_of(alloc, "02 01 ac02")?);
    let mut reader = Reader::new(alloc, &bytes);
    let back = decode_list::<u64>(&mut reader)?;
    assert!(rt; back.as_slice() == list.as_slice());
    assert!(rt; reader.end().is_ok());
    Ok(())
}

/// A list of 2 ^ 40 entries, of which one stands there, is refused where the bytes end. No memory is taken for those that were promised.
#[test]
fn a_promised_length_is_refused_at_the_end(rt: HostRuntime) -> Result<(), Fail> {
    let alloc = rt.alloc();
    let bytes = bytes_of(alloc, "808080808020 05")?;
    match decode_list::<u64>(&mut Reader::new(alloc, &bytes)) {
        Ok(_) => assert!(rt; false),
        Err(error) => assert!(rt; Some(error) == behind(7, Expected::Count)),
    }
    let bytes = bytes_of(alloc, "808080808020 02 0161")?;
    match decode_run::<(String, u64)>(&mut KeyRun::new(alloc), &mut Reader::new(alloc, &bytes)) {
        Ok(_) => assert!(rt; false),
        Err(error) => assert!(rt; Some(error) == behind(9, Expected::Count)),
    }
    Ok(())
}
