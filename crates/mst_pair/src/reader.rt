//! What a source reads from.
ghost use Rattle.std.specs.Prelude.{ℕ, List, Option, OnErr, ⊤};
ghost use Rattle.std.specs.Io.{ReadsAtMost};
ghost use Rattle.std.specs.Io.KnownBytes.{ReadConsumes};

use std::io;
use std::io::Read;

/// Gives bytes, and states when it may fail.
///
/// Each reader of the standard library is one. Nothing is known of when its calls fail, so they may always.
pub trait Reader {
    /// The bytes left, where the reader tells them.
    ghost remaining: { Self → Option (List ℕ) };

    /// Whether a read from the first state may answer an error, and leave the second.
    ghost may_fail: { Self → Self → Type 0 };

    /// Reads once, as `Read::read` of the standard library.
    ///
    /// # Errors
    ///
    /// Any error. The bytes stay as they were.
    fn read_once(&mut self, buf: &mut [u8]) -> io::Result<usize>
        ensures bound { ReadsAtMost result buf.new }
        ensures bytes { ReadConsumes (remaining self.old) (remaining self.new) result buf.new }
        ensures error { OnErr result (may_fail self.old self.new) };
}

impl<R: Read> Reader for R {
    ghost remaining = { R.remaining };

    ghost may_fail = { λ before after. ⊤ };

    fn read_once(&mut self, buf: &mut [u8]) -> io::Result<usize> {
        self.read(buf)
    }
}
