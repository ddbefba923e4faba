//! What a run writes to.
ghost use Rattle.std.specs.Prelude.{◌≡◌, ℕ, ◌<◌, ◌≤◌, List, Option, Bool, true, false, OnOk, OnErr, IfOk, length, take};
ghost use Rattle.std.specs.Io.KnownBytes.{Appends, Keeps};
ghost use Rattle.mst_pair.specs.Devices.{KeepsOrHides, WritesBytes, MarksFailure, MarksFailed, WriterTakes, FailedOrRefuses, writer_inside};

use crate::source::Failed;
use crate::writer::Writer;

/// Takes bytes.
///
/// [`run`](crate::run::run) writes up to 4096 bytes at once. [`ToWrite`] makes a sink of each writer of the standard library.
pub trait Sink {
    /// The bytes taken so far, where the sink tells them.
    ghost taken: { Self → Option (List ℕ) };

    /// Whether a call ever answered an error.
    ghost has_failed: { Self → Bool };

    /// Whether what was taken is handed on.
    ghost is_flushed: { Self → Bool };

    /// Takes some bytes from the front of `bytes`, and returns how many: at most their count, and 0 only
    /// where there are none.
    ///
    /// # Errors
    ///
    /// `Failed` where the sink can't be written to. The bytes taken stay as they were, or the sink tells them no more. It marks the
    /// sink as failed, and nothing else does.
    fn write(&mut self, bytes: &[u8]) -> Result<usize, Failed>
        ensures bound { IfOk result (λ n. n ≤ length bytes.now) }
        ensures some { IfOk result (λ n. 0 < length bytes.now → 0 < n) }
        ensures bytes { IfOk result (λ n. Appends (taken self.old) (taken self.new) (take n bytes.now)) }
        ensures error { OnErr result (KeepsOrHides (taken self.old) (taken self.new)) }
        ensures failed { MarksFailure result (has_failed self.old) (has_failed self.new) };

    /// Hands on all that was taken.
    ///
    /// # Errors
    ///
    /// As at `write`.
    fn flush(&mut self) -> Result<(), Failed>
        ensures ok { OnOk result (Keeps (taken self.old) (taken self.new)) }
        ensures flushed { OnOk result (is_flushed self.new ≡ true) }
        ensures error { OnErr result (KeepsOrHides (taken self.old) (taken self.new)) }
        ensures failed { MarksFailure result (has_failed self.old) (has_failed self.new) };

    /// Whether a call ever answered an error.
    fn failed(&self) -> bool
        ensures { result ≡ has_failed self.now };
}

/// A sink over a writer: one of the standard library, or another that says when it may fail.
///
/// It tells the bytes that the writer tells. Where the writer takes none of some bytes, that is a failure. Once a call has failed, so
/// does each later one.
///
/// ```rust crates/mst_pair_tests/src/roots.rt
/// let mut writer = ToWrite::new(&mut output);
/// match run(alloc, &mut reader, &mut writer) {
/// ```
#[derive(Drop)]
pub struct ToWrite<W> {
    inner: W,
    flushed: bool,
    failed: bool,
}

impl<W: Writer> ToWrite<W> {
    /// A sink that writes to this writer and has not failed.
    pub fn new(inner: W) -> Self
        ensures inside { writer_inside result ≡ inner }
        ensures not_failed { ⟦<ToWrite<W> as Sink>⟧.has_failed result ≡ false }
        ensures told { ⟦<ToWrite<W> as Sink>⟧.taken result ≡ W.contents inner }
    {
        ToWrite {
            inner,
            flushed: false,
            failed: false,
        }
    }

    /// The writer, as the last write or flush left it.
    pub fn into_inner(self) -> W
        ensures inside { result ≡ writer_inside self }
        ensures told { W.contents result ≡ ⟦<ToWrite<W> as Sink>⟧.taken self }
    {
        self.inner
    }
}

impl<W: Writer> Sink for ToWrite<W> {
    ghost taken = { λ s. W.contents s.inner };

    ghost has_failed = { λ s. s.failed };

    ghost is_flushed = { λ s. s.flushed };

    /// Writes to the writer once, where it has not failed.
    ///
    /// # Errors
    ///
    /// `Failed` where the writer returns an error or takes none of some bytes, or a call has failed before. The writer then has what it
    /// had.
    fn write(&mut self, bytes: &[u8]) -> Result<usize, Failed>
        ensures bound { IfOk result (λ n. n ≤ length bytes.now) }
        ensures some { IfOk result (λ n. 0 < length bytes.now → 0 < n) }
        ensures bytes { IfOk result (WriterTakes W.contents self.old self.new bytes.now) }
        ensures error { OnErr result (Keeps (W.contents (writer_inside self.old)) (W.contents (writer_inside self.new))) }
        ensures failed { MarksFailed ⟦<ToWrite<W> as Sink>⟧.has_failed self.old self.new result }

        // It fails only where a call has failed before, or the writer refused the bytes.
        ensures cause { OnErr result (FailedOrRefuses ⟦<ToWrite<W> as Sink>⟧.has_failed W.may_refuse self.old self.new) }
    {
        if self.failed {
            return Err(Failed);
        }
        self.flushed = false;
        match self.inner.write_once(bytes) {
            Ok(count) if count > 0 || bytes.is_empty() => Ok(count),
            _ => {
                self.failed = true;
                Err(Failed)
            }
        }
    }

    /// Has the writer hand on what it took, where it has not failed.
    ///
    /// # Errors
    ///
    /// `Failed` where the writer returns an error, or a call has failed before. The writer then has what it had.
    fn flush(&mut self) -> Result<(), Failed>
        ensures ok { OnOk result (Keeps (W.contents (writer_inside self.old)) (W.contents (writer_inside self.new))) }
        ensures flushed { OnOk result (⟦<ToWrite<W> as Sink>⟧.is_flushed self.new ≡ true) }
        ensures error { OnErr result (Keeps (W.contents (writer_inside self.old)) (W.contents (writer_inside self.new))) }
        ensures failed { MarksFailed ⟦<ToWrite<W> as Sink>⟧.has_failed self.old self.new result }

        // It fails only where a call has failed before, or the writer's flush failed.
        ensures cause { OnErr result (FailedOrRefuses ⟦<ToWrite<W> as Sink>⟧.has_failed W.flush_may_fail self.old self.new) }
    {
        if self.failed {
            return Err(Failed);
        }
        match self.inner.hand_on() {
            Ok(()) => {
                self.flushed = true;
                Ok(())
            }
            Err(_) => {
                self.failed = true;
                Err(Failed)
            }
        }
    }

    fn failed(&self) -> bool {
        self.failed
    }
}

/// Writes all the bytes, or at an error a beginning of them.
pub(crate) fn write_all<W: Sink>(writer: &mut W, bytes: &[u8]) -> Result<(), Failed>
    ensures bytes { WritesBytes result (W.taken writer.old) (W.taken writer.new) bytes.now }
    ensures failed { MarksFailure result (W.has_failed writer.old) (W.has_failed writer.new) }
{
    let mut rest = bytes;
    'writing: while !rest.is_empty() {
        let count = writer.write(rest)?;
        rest = &rest[count..];
    }
    Ok(())
}
