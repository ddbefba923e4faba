//! What a sink writes to.
ghost use Rattle.std.specs.Prelude.{◌≡◌, ◌<◌, ℕ, List, Option, OnErr, IfOk, ⊤, length};
ghost use Rattle.std.specs.Io.{WritesAtMost};
ghost use Rattle.std.specs.Io.KnownBytes.{Keeps, WriteAppends};

use std::io;
use std::io::Write;

/// Takes bytes, and states when it may fail.
///
/// Each writer of the standard library is one. Nothing is known of when its calls fail, so they may always.
pub trait Writer {
    /// The bytes taken so far, where the writer tells them.
    ghost contents: { Self → Option (List ℕ) };

    /// Whether a write in the first state may answer an error, or take none of some bytes, and leave the second.
    ghost may_refuse: { Self → Self → Type 0 };

    /// Whether a flush in the first state may answer an error, and leave the second.
    ghost flush_may_fail: { Self → Self → Type 0 };

    /// Writes once, as `Write::write` of the standard library.
    ///
    /// # Errors
    ///
    /// Any error. The bytes taken stay as they were.
    fn write_once(&mut self, bytes: &[u8]) -> io::Result<usize>
        ensures bound { WritesAtMost result bytes.now }
        ensures bytes { WriteAppends (contents self.old) (contents self.new) result bytes.now }
        ensures error { OnErr result (may_refuse self.old self.new) }
        ensures none { IfOk result (λ n. n ≡ 0 → 0 < length bytes.now → may_refuse self.old self.new) };

    /// Hands on all that was taken.
    ///
    /// # Errors
    ///
    /// As at `write_once`.
    fn hand_on(&mut self) -> io::Result<()>
        ensures bytes { Keeps (contents self.old) (contents self.new) }
        ensures error { OnErr result (flush_may_fail self.old self.new) };
}

impl<W: Write> Writer for W {
    ghost contents = { W.contents };

    ghost may_refuse = { λ before after. ⊤ };

    ghost flush_may_fail = { λ before after. ⊤ };

    fn write_once(&mut self, bytes: &[u8]) -> io::Result<usize> {
        self.write(bytes)
    }

    fn hand_on(&mut self) -> io::Result<()> {
        self.flush()
    }
}
