//! Reads and writes through readers and writers of the standard library.

use crate::devices::Listed;
use mst_pair::sink::{Sink, ToWrite};
use mst_pair::source::{Failed, FromRead, Source};
use std::test::Fail;

#[test]
fn fails_after_its_reads(rt: HostRuntime) {
    let mut reader = FromRead::with_reads(b"abc".as_slice(), 2);
    let mut buf = [0];
    for byte in [b'a', b'b'] {
        assert!(rt; reader.read(&mut buf) == Ok(1));
        assert!(rt; buf == [byte]);
    }
    assert!(rt; reader.read(&mut buf) == Err(Failed));
    assert!(rt; reader.failed());
    assert!(rt; reader.into_inner() == b"c".as_slice());
}

/// What a device answers to calls for four bytes, and what a source or a sink over it answers: the same, until the first error.
const ANSWERS: [(Option<usize>, Result<usize, Failed>); 7] = [
    (Some(2), Ok(2)),
    (Some(4), Ok(4)),
    (Some(1), Ok(1)),
    (Some(3), Ok(3)),
    (None, Err(Failed)),
    (Some(2), Err(Failed)),
    (None, Err(Failed)),
];

#[test]
fn answers_an_error_only_where_its_device_does(rt: HostRuntime) {
    let answers = ANSWERS.map(|row| row.0);
    let mut reader = FromRead::new(Listed { answers: &answers });
    let mut writer = ToWrite::new(Listed { answers: &answers });
    for (_, wanted) in ANSWERS {
        assert!(rt; reader.read(&mut [0; 4]) == wanted);
        assert!(rt; writer.write(b"four") == wanted);
    }
    let mut writer = ToWrite::new(Listed {
        answers: &answers[3..],
    });
    assert!(rt; writer.flush() == Ok(()));
    assert!(rt; writer.flush() == Err(Failed));
}

#[test]
fn hands_the_writer_back(rt: HostRuntime) -> Result<(), Fail> {
    let mut writer = ToWrite::new(Vec::new(rt.alloc()));
    assert!(rt; writer.write(b"ok") == Ok(2));
    assert!(rt; writer.into_inner().as_slice() == b"ok".as_slice());
    Ok(())
}
