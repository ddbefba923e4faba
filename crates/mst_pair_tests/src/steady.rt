//! A source and a sink over a reader and a writer that state that they never fail.
ghost use Rattle.std.specs.Prelude.{◌≡◌, ◌<◌, Some, None, IsOk, false};

use mst_pair::reader::Reader;
use mst_pair::sink::{Sink, ToWrite};
use mst_pair::source::{Failed, FromRead, Source};
use mst_pair::writer::Writer;
use std::io;
use std::io::Read;

/// Gives its bytes.
#[derive(Drop)]
struct SteadyReader<'a> {
    left: &'a [u8],
}

impl Reader for SteadyReader<'_> {
    ghost remaining = { λ reader. Some reader.left.now };

    ghost may_fail = { λ before after. ⊥ };

    fn read_once(&mut self, buf: &mut [u8]) -> io::Result<usize> {
        self.left.read(buf)
    }
}

/// Takes all bytes, and keeps none.
#[derive(Drop)]
struct SteadyWriter;

impl Writer for SteadyWriter {
    ghost contents = { λ writer. None };

    ghost may_refuse = { λ before after. ⊥ };

    ghost flush_may_fail = { λ before after. ⊥ };

    fn write_once(&mut self, bytes: &[u8]) -> io::Result<usize> {
        Ok(bytes.len())
    }

    fn hand_on(&mut self) -> io::Result<()> {
        Ok(())
    }
}

/// A source over such a reader returns no error while a read is left.
fn read(source: &mut FromRead<SteadyReader<'_>>, buf: &mut [u8]) -> Result<usize, Failed>
    requires works { ⟦<FromRead<SteadyReader<'static>> as Source>⟧.has_failed source.old ≡ false }
    requires left { 0 < ⟦<FromRead<SteadyReader<'static>> as Source>⟧.reads_left source.old }
    ensures { IsOk result }
{
    source.read(buf)
}

/// A sink over such a writer returns no error to a write.
fn write(sink: &mut ToWrite<SteadyWriter>, bytes: &[u8]) -> Result<usize, Failed>
    requires works { ⟦<ToWrite<SteadyWriter> as Sink>⟧.has_failed sink.old ≡ false }
    ensures { IsOk result }
{
    sink.write(bytes)
}

/// A sink over such a writer returns no error to a flush.
fn flush(sink: &mut ToWrite<SteadyWriter>) -> Result<(), Failed>
    requires works { ⟦<ToWrite<SteadyWriter> as Sink>⟧.has_failed sink.old ≡ false }
    ensures { IsOk result }
{
    sink.flush()
}

#[test]
fn never_fails_where_its_device_never_does(rt: HostRuntime) {
    let mut buf = [0; 4];
    let mut source = FromRead::new(SteadyReader { left: b"abc" });
    assert!(rt; read(&mut source, &mut buf) == Ok(3));
    assert!(rt; &buf[..3] == b"abc".as_slice());
    let mut sink = ToWrite::new(SteadyWriter);
    assert!(rt; write(&mut sink, b"abc") == Ok(3));
    let mut sink = ToWrite::new(SteadyWriter);
    assert!(rt; flush(&mut sink) == Ok(()));
}
