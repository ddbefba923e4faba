//! Questions that a peer made up, or that tell other settings, and what each is refused with. The answering side has its rows as before.
use crate::hex::bytes_of;
use crate::refusals::{Bytes, is_as_before, three};
use merkle_bytes::{Expected, ReadError};
use merkle_wire::{AnswerError, answer, refusal};
use std::alloc::Global;
use std::test::Fail;

/// Bytes in hex that are no question: what should have stood after this many bytes. A reply, a version and a kind that there is not, bytes that are
/// cut or go on, a promised length, a flag and a page format that there is not, and a key in its longer spelling.
const NO_QUESTIONS: [(&str, usize, Expected); 17] = [
    ("", 0, Expected::Bytes(2)),
    ("01", 0, Expected::Bytes(2)),
    ("0202", 0, Expected::Version),
    ("0001", 0, Expected::Version),
    ("0100", 0, Expected::Kind),
    ("0106", 0, Expected::Kind),
    ("0182 00", 2, Expected::Question),
    ("01ff", 2, Expected::Question),
    ("0104 00 00", 3, Expected::End),
    ("0104 8000", 2, Expected::Count),
    ("0104 808080808020 02 0107", 11, Expected::Front),
    ("0102 10 01 02", 4, Expected::Flag),
    ("0102 10 01 00", 5, Expected::Bytes(1)),
    ("0103 10", 3, Expected::Count),
    ("0104 01 f0 00 02 0107", 3, Expected::Front),
    ("0101 10 03 10 00", 4, Expected::PageFormat),
    ("0101 10 01 10 01 02", 7, Expected::Length),
];

/// Questions in hex for the root, with other settings than those of a default replica: its level base is 16, its page format 1, and its digests have 16
/// bytes; and the digest of a key by another hasher.
const OTHER_SETTINGS: [&str; 5] = [
    "0101 0f 01 10 00",
    "0101 10 02 10 00",
    "0101 10 01 08 00",
    "0101 10 01 20 00",
    "0101 10 01 10 01 0101 10 05050505050505050505050505050505",
];

#[test]
fn questions_that_are_refused(rt: HostRuntime) -> Result<(), Fail> {
    let alloc = rt.alloc();
    let mut peer = three(alloc)?;
    for case in &NO_QUESTIONS {
        let wanted = AnswerError::Malformed(ReadError::Unexpected {
            offset: case.1,
            expected: case.2,
        });
        let found = refused_with(alloc, &mut peer, &bytes_of(alloc, case.0)?);
        assert!(rt; found == Some(wanted), "{}", case.0);
    }
    for text in &OTHER_SETTINGS {
        let found = refused_with(alloc, &mut peer, &bytes_of(alloc, *text)?);
        assert!(rt; found == Some(AnswerError::OtherSettings), "{}", *text);
    }
    assert!(rt; is_as_before(&peer));
    assert!(rt; refusal(alloc)? == bytes_of(alloc, "01ff")?);
    Ok(())
}

/// Why the peer refuses a message, where it does.
fn refused_with(alloc: Global, peer: &mut Bytes, message: &[u8]) -> Option<AnswerError> {
    match answer(alloc, peer, message) {
        Ok(_) => None,
        Err(error) => Some(error),
    }
}
