//! Whole runs over devices in memory.

use crate::devices::serve;
use mst_pair::run::run;
use mst_pair::sink::{Sink, ToWrite};
use mst_pair::source::{FromRead, Source};
use std::alloc::Global;
use std::fmt::Write;
use std::test::Fail;

/// Lines with a pull by each replica: a pulls from b, then b from a.
pub const PULLS: (&[u8], &[u8]) = (
    b"put a donkey 1\nput b bananas 1\nput b pl\xc3\xa1tanos 1\ndiff a\npull a\nkeys a\nsame\npull b\nsame\n",
    b"ok\nok\nok\nbananas pl\xc3\xa1tanos\nend\nbananas pl\xc3\xa1tanos\nend\njoined 2\nbananas 1\ndonkey 1\npl\xc3\xa1tanos 1\nend\ndiffer\nbananas pl\xc3\xa1tanos\nend\njoined 3\nsame\n",
);

const ROWS: [(&[u8], &[u8]); 24] = [
    (
        b"put a k 1\nkeys a\nkeys b\nhello\n",
        b"ok\nk 1\nend\nend\nbad line\n",
    ),
    // a row is taken out, and a pull may bring it back
    (
        b"put a x 1\nput b x 5\ndel a x\ndel a x\nkeys a\npull a\nkeys a\n",
        b"ok\nok\nok\nabsent\nend\nx x\nend\njoined 1\nx 5\nend\n",
    ),
    (
        b"del a\ndel c x\ndel a \ndel a x y\ndel\ndel b x\n",
        b"bad line\nbad line\nbad line\nbad line\nbad line\nabsent\n",
    ),
    // no input, and a last line without a newline
    (b"", b""),
    (b"keys a", b"end\n"),
    // wrong lines
    (
        b"put c x 1\nput a x\n\nput a  1\nturns 10\nput a x 18446744073709551616\nput a \xff 1\n",
        b"bad line\nbad line\nbad line\nbad line\nbad line\nbad line\nbad line\n",
    ),
    (
        b"put a x 1 \nput a x -1\nput a x +1\nput a x\t1\nput a \x7f 1\nkeys\nkeys c\nkeys a \nPUT a x 1\n",
        b"bad line\nbad line\nbad line\nbad line\nbad line\nbad line\nbad line\nbad line\nbad line\n",
    ),
    // a key that is there keeps the greater number
    (
        b"put a x 18446744073709551615\nput a x 5\nput a x 007\nkeys a\npages a\n",
        b"ok\nok\nok\nx 18446744073709551615\nend\nx x\nend\n",
    ),
    (
        b"put a x 5\nput a x 7\nkeys a\nkeys b\n",
        b"ok\nok\nx 7\nend\nend\n",
    ),
    // at most twenty digits
    (
        b"put a x 00000000000000000007\nkeys a\nput a x 000000000000000000007\n",
        b"ok\nx 7\nend\nbad line\n",
    ),
    // the order of the keys' bytes
    (
        b"put b b 1\nput b \xc3\xa9 2\nput b ab 3\nput b a 4\nput b Z 5\nkeys b\n",
        b"ok\nok\nok\nok\nok\nZ 5\na 4\nab 3\nb 1\n\xc3\xa9 2\nend\n",
    ),
    PULLS,
    // the same rows, whatever order they came in
    (
        b"same\nput a k 1\nsame\nput b k 1\nsame\n",
        b"same\nok\ndiffer\nok\nsame\n",
    ),
    // the page of one key, and no page
    (
        b"pages a\nput a x 7\npages a\npages b\ndiff a\ndiff b\n",
        b"end\nok\nx x\nend\nend\nend\nx x\nend\n",
    ),
    // turns of empty replicas
    (
        b"turns 2\nturns 0\nturns 10\n",
        b"joined 0\njoined 0\nend\nend\nbad line\n",
    ),
    // four turns are needed
    (
        b"put a k0001 1\nput a k0004 1\nput a k0005 1\nput b k0003 1\nput b k0007 1\nturns 4\nsame\nkeys b\n",
        b"ok\nok\nok\nok\nok\njoined 0\njoined 1\njoined 3\njoined 5\nend\nsame\nk0001 1\nk0003 1\nk0004 1\nk0005 1\nk0007 1\nend\n",
    ),
    // the root hash of no row, and a last line without a newline
    (
        b"root a\nroot b\nsame",
        b"UEnXR4Cj4H1CAqtH1M7y9A==\nUEnXR4Cj4H1CAqtH1M7y9A==\nsame\n",
    ),
    // words with wrong arguments
    (
        b"root\nroot \nroot c\nroot ab\nroot a \nroot  a\npages\npages x\ndiff a b\npull\npull A\nsame \nsame a\nsames\n",
        b"bad line\nbad line\nbad line\nbad line\nbad line\nbad line\nbad line\nbad line\nbad line\nbad line\nbad line\nbad line\nbad line\nbad line\n",
    ),
    (
        b"turns\nturns \nturns x\nturns -1\nturns 1 \nturns /\nturns :\nTurns 1\nput\nput a\nput k 1\n",
        b"bad line\nbad line\nbad line\nbad line\nbad line\nbad line\nbad line\nbad line\nbad line\nbad line\nbad line\n",
    ),
    // page formats: a replica without rows can change it, and others keep it
    (
        b"put a x 1\nformat 2\ndel a x\nformat 2\nput a x 1\nput b x 1\nsame\nformat 3\n",
        b"ok\nnot empty\nok\nok\nok\nok\nsame\nbad line\n",
    ),
    (
        b"put b x 1\nformat 1\nformat 2\ndel b x\nformat 2\nroot b\nformat 1\nroot b\n",
        b"ok\nnot empty\nnot empty\nok\nok\n9/FwCJ+cWkM577LEunsrHQ==\nok\nUEnXR4Cj4H1CAqtH1M7y9A==\n",
    ),
    (
        b"format\nformat \nformat 0\nformat 3\nformat 12\nformat 1 \nformat  1\nformat a\nformat a 1\nFormat 1\n",
        b"bad line\nbad line\nbad line\nbad line\nbad line\nbad line\nbad line\nbad line\nbad line\nbad line\n",
    ),
    // rows are taken out in format 2 as in format 1
    (
        b"format 2\nput a x 1\nput b x 5\ndel a x\ndel a x\nkeys a\npull a\nkeys a\n",
        b"ok\nok\nok\nok\nabsent\nend\nx x\nend\njoined 1\nx 5\nend\n",
    ),
    // pulls by turns in format 2
    (
        b"format 2\nput a k0001 1\nput a k0004 1\nput a k0005 1\nput b k0003 1\nput b k0007 1\nturns 4\nsame\nkeys b\n",
        b"ok\nok\nok\nok\nok\nok\njoined 0\njoined 1\njoined 3\njoined 5\nend\nsame\nk0001 1\nk0003 1\nk0004 1\nk0005 1\nk0007 1\nend\n",
    ),
];

#[test]
fn answers_each_line(rt: HostRuntime) {
    for (input, output) in ROWS {
        for piece in [1, 7, 10_000] {
            let (result, taken) = serve(rt.alloc(), input, piece, false, 1024, false);
            assert!(rt; result == Ok(()));
            assert!(rt; taken.as_slice() == output, "in pieces of {piece}");
        }
    }
}

/// The line `put a KEY 18446744073709551615` with a key of `count` bytes.
fn long_line(alloc: Global, count: usize) -> Result<Vec<u8>, Fail> {
    let mut line = Vec::from_slice(alloc, b"put a ")?;
    line.extend_from_slice(&vec![in alloc; b'k'; count]?)?;
    line.extend_from_slice(b" 18446744073709551615\n")?;
    Ok(line)
}

#[test]
fn tells_long_lines(rt: HostRuntime) -> Result<(), Fail> {
    for (count, output) in [(255, b"ok\n".as_slice()), (256, b"bad line\n".as_slice())] {
        let line = long_line(rt.alloc(), count)?;
        assert!(rt; line.len() == count + 28);
        let (result, taken) = serve(rt.alloc(), &line, 1000, false, 1024, false);
        assert!(rt; result == Ok(()));
        assert!(rt; taken.as_slice() == output, "a key of {count} bytes");
    }
    let line = vec![in rt.alloc(); b'z'; 100_000]?;
    let (result, taken) = serve(rt.alloc(), &line, 4096, false, 1024, false);
    assert!(rt; result == Ok(()));
    assert!(rt; taken.as_slice() == b"bad line\n".as_slice());
    Ok(())
}

#[test]
fn shows_many_rows_in_order(rt: HostRuntime) -> Result<(), Fail> {
    let mut input = String::new(rt.alloc());
    let mut wanted = String::new(rt.alloc());
    for number in (0..1000).rev() {
        writeln!(input, "put b {number:04} {number}")?;
        wanted.push_str("ok\n")?;
    }
    for number in 0..1000 {
        writeln!(wanted, "{number:04} {number}")?;
    }
    input.push_str("keys b\n")?;
    wanted.push_str("end\n")?;
    let mut output = Vec::new(rt.alloc());
    let mut reader = FromRead::new(input.as_bytes());
    let mut writer = ToWrite::new(&mut output);
    assert_eq!(rt; run(rt.alloc(), &mut reader, &mut writer), Ok(()));
    assert!(rt; !reader.failed() && !writer.failed());
    assert!(rt; output.as_slice() == wanted.as_bytes());
    Ok(())
}
