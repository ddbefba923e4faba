//! Runs over devices that fail.
ghost use Rattle.std.specs.Prelude.{◌≤◌};

use crate::devices::serve;
use mst_pair::run::{RunFault, run};
use mst_pair::sink::{Sink, ToWrite};
use mst_pair::source::FromRead;
use std::io::Cursor;

const INPUT: &[u8] = b"put a x 1\nkeys a\n";

const OUTPUT: &[u8] = b"ok\nx 1\nend\n";

/// How many bytes of the output are written to the first `count` bytes of the input.
fn written_after(count: usize) -> usize
    ensures { result ≤ 11 }
{
    match count {
        0..=9 => 0,
        10..=16 => 3,
        _ => 11,
    }
}

#[test]
fn stops_where_the_source_fails(rt: HostRuntime) {
    for count in 0..INPUT.len() + 1 {
        let wanted = written_after(count);
        for piece in [1, 5, 100] {
            let (result, taken) = serve(rt.alloc(), &INPUT[..count], piece, true, 1024, false);
            assert!(rt; result == Err(RunFault::Read));
            assert!(rt;
                taken.as_slice() == &OUTPUT[..wanted],
                "after {count} bytes"
            );
        }
    }
}

#[test]
fn stops_where_the_sink_fails(rt: HostRuntime) {
    for room in 0..OUTPUT.len() {
        let (result, taken) = serve(rt.alloc(), INPUT, 100, false, room, false);
        assert!(rt; result == Err(RunFault::Write));
        assert!(rt;
            taken.as_slice() == &OUTPUT[..room],
            "with room for {room} bytes"
        );
    }
    let (result, taken) = serve(rt.alloc(), INPUT, 100, false, OUTPUT.len(), true);
    assert!(rt; result == Err(RunFault::Write), "at the flush");
    assert!(rt; taken.as_slice() == OUTPUT);
    let (result, _) = serve(rt.alloc(), INPUT, 100, false, OUTPUT.len(), false);
    assert!(rt; result == Ok(()));
}

#[test]
fn takes_a_write_of_no_byte_as_a_fault(rt: HostRuntime) {
    for room in 0..OUTPUT.len() {
        let mut output = [0; 16];
        let mut reader = FromRead::new(INPUT);
        let mut writer = ToWrite::new(Cursor::new(&mut output[..room]));
        assert!(rt; run(rt.alloc(), &mut reader, &mut writer) == Err(RunFault::Write));
        assert!(rt; writer.failed());
        assert!(rt; &output[..room] == &OUTPUT[..room]);
    }
}
