//! Devices that fail where a test says so, and runs over them.
ghost use Rattle.std.specs.Prelude.{◌≤◌, Some, IfOk, length};

use arrayvec::ArrayVec;
use mst_pair::run::{RunFault, run};
use mst_pair::sink::Sink;
use mst_pair::source::{Failed, Source};
use std::alloc::Global;
use std::io;
use std::io::{ErrorKind, Read, Write};

/// Gives the bytes of `left`, `piece` at a time, and then its end or an error.
#[derive(Drop)]
pub struct ScriptedSource<'a> {
    pub left: &'a [u8],
    pub piece: usize,
    pub fails: bool,
    pub failed: bool,
}

impl Source for ScriptedSource<'_> {
    ghost left = { λ s. Some s.left.now };

    ghost reads_left = { λ s. length s.left.now };

    ghost has_failed = { λ s. s.failed };

    fn read(&mut self, buf: &mut [u8]) -> Result<usize, Failed> {
        let count = self.left.len().min(self.piece.max(1)).min(buf.len());
        if self.fails && count == 0 {
            self.failed = true;
            return Err(Failed);
        }
        let (front, rest) = self.left.split_at(count);
        buf[..count].copy_from_slice(front);
        self.left = rest;
        Ok(count)
    }

    fn failed(&self) -> bool {
        self.failed
    }
}

/// Takes `room` bytes, one at a time, and then fails. It takes no memory.
#[derive(Drop)]
pub struct NarrowSink {
    pub taken: ArrayVec<u8, 1024>,
    pub room: usize,
    pub refuses_flush: bool,
    pub flushed: bool,
    pub failed: bool,
}

impl Sink for NarrowSink {
    ghost taken = { λ s. Some s.taken.items };

    ghost has_failed = { λ s. s.failed };

    ghost is_flushed = { λ s. s.flushed };

    fn write(&mut self, bytes: &[u8]) -> Result<usize, Failed> {
        let Some(first) = bytes.first() else {
            return Ok(0);
        };
        if self.room == 0 || self.taken.try_push(*first).is_err() {
            self.failed = true;
            return Err(Failed);
        }
        self.room -= 1;
        Ok(1)
    }

    fn flush(&mut self) -> Result<(), Failed> {
        if self.refuses_flush {
            self.failed = true;
            return Err(Failed);
        }
        self.flushed = true;
        Ok(())
    }

    fn failed(&self) -> bool {
        self.failed
    }
}

/// A device of std that answers by a list: how many bytes it moves, or an error where there is none.
#[derive(Drop)]
pub struct Listed<'a> {
    pub answers: &'a [Option<usize>],
}

impl Listed<'_> {
    /// The next answer of the list, for this many bytes; no byte where the list is over.
    fn answer(&mut self, room: usize) -> io::Result<usize>
        ensures { IfOk result (λ count. count ≤ room) }
    {
        match self.answers.split_first() {
            Some((Some(count), rest)) => {
                self.answers = rest;
                Ok((*count).min(room))
            }
            Some((None, rest)) => {
                self.answers = rest;
                Err(io::Error::from(ErrorKind::Other))
            }
            None => Ok(0),
        }
    }
}

impl Read for Listed<'_> {
    fn read(&mut self, buf: &mut [u8]) -> io::Result<usize> {
        self.answer(buf.len())
    }
}

impl Write for Listed<'_> {
    fn write(&mut self, buf: &[u8]) -> io::Result<usize> {
        self.answer(buf.len())
    }

    fn flush(&mut self) -> io::Result<()> {
        self.answer(0)?;
        Ok(())
    }
}

/// What a run over these devices answers and writes.
pub fn serve(
    alloc: Global,
    input: &[u8],
    piece: usize,
    read_fails: bool,
    room: usize,
    flush_fails: bool,
) -> (Result<(), RunFault>, ArrayVec<u8, 1024>) {
    let mut reader = ScriptedSource {
        left: input,
        piece,
        fails: read_fails,
        failed: false,
    };
    let mut writer = NarrowSink {
        taken: ArrayVec::new(),
        room,
        refuses_flush: flush_fails,
        flushed: false,
        failed: false,
    };
    let result = run(alloc, &mut reader, &mut writer);
    (result, writer.taken)
}
