//! What a run reads from.
ghost use Rattle.std.specs.Prelude.{◌≡◌, ℕ, ◌<◌, ◌≤◌, List, Option, Bool, false, OnErr, IfOk, length, take};
ghost use Rattle.std.specs.Io.KnownBytes.{Consumes, Keeps, IsAtEnd};
ghost use Rattle.mst_pair.specs.Devices.{KeepsOrHides, MarksFailure, MarksFailed, ReaderGives, reader_inside};

use crate::reader::Reader;

/// A device has failed: a source that can no longer be read, or a sink that can no longer be written to.
#[derive(Clone, Copy, Debug, PartialEq, Eq)]
pub struct Failed;

/// Gives bytes until its end.
///
/// [`run`](crate::run::run) reads up to 8192 bytes at once. [`FromRead`] makes a source of each reader of the standard library.
pub trait Source {
    /// The bytes left, where the source tells them.
    ghost left: { Self → Option (List ℕ) };

    /// A number that falls at each read that gives bytes, so that a run ends.
    ghost reads_left: { Self → ℕ };

    /// Whether a read ever answered an error.
    ghost has_failed: { Self → Bool };

    /// Moves some bytes from the front of the bytes left to the front of `buf`, and returns how many: at most
    /// the length of `buf`, and 0 for a `buf` with room only at the end.
    ///
    /// # Errors
    ///
    /// `Failed` where the source can't be read. The bytes stay as they were, or the source tells them no more. It marks the source
    /// as failed, and nothing else does.
    fn read(&mut self, buf: &mut [u8]) -> Result<usize, Failed>
        ensures bound { IfOk result (λ n. n ≤ length buf.new) }
        ensures bytes { IfOk result (λ n. Consumes (left self.old) (left self.new) (take n buf.new)) }
        ensures end { IfOk result (λ n. n ≡ 0 → 0 < length buf.new → IsAtEnd (left self.new)) }
        ensures falls { IfOk result (λ n. 0 < n → reads_left self.new < reads_left self.old) }
        ensures error { OnErr result (KeepsOrHides (left self.old) (left self.new)) }
        ensures failed { MarksFailure result (has_failed self.old) (has_failed self.new) };

    /// Whether a read ever answered an error.
    fn failed(&self) -> bool
        ensures { result ≡ has_failed self.now };
}

/// A source over a reader: one of the standard library, or another that says when it may fail.
///
/// It tells the bytes that the reader tells. Each call of `read` takes one of the reads that it was given, 18446744073709551615
/// unless stated otherwise, and after these it fails; so it does at each read once a read has failed.
///
/// ```rust crates/mst_pair_tests/src/roots.rt
/// let mut reader = FromRead::new(input.as_bytes());
/// let mut writer = ToWrite::new(&mut output);
/// match run(alloc, &mut reader, &mut writer) {
/// ```
#[derive(Drop)]
pub struct FromRead<R> {
    inner: R,
    reads_left: u64,
    failed: bool,
}

impl<R: Reader> FromRead<R> {
    /// A source that reads from this reader, has not failed and has 18446744073709551615 reads left.
    pub fn new(inner: R) -> Self
        ensures inside { reader_inside result ≡ inner }
        ensures not_failed { ⟦<FromRead<R> as Source>⟧.has_failed result ≡ false }
        ensures told { ⟦<FromRead<R> as Source>⟧.left result ≡ R.remaining inner }
        ensures reads { ⟦<FromRead<R> as Source>⟧.reads_left result ≡ u64.MAX }
    {
        FromRead::with_reads(inner, u64::MAX)
    }

    /// A source that reads from this reader, has not failed, and fails after this many reads.
    pub fn with_reads(inner: R, reads: u64) -> Self
        ensures inside { reader_inside result ≡ inner }
        ensures not_failed { ⟦<FromRead<R> as Source>⟧.has_failed result ≡ false }
        ensures told { ⟦<FromRead<R> as Source>⟧.left result ≡ R.remaining inner }
        ensures reads { ⟦<FromRead<R> as Source>⟧.reads_left result ≡ reads }
    {
        FromRead {
            inner,
            reads_left: reads,
            failed: false,
        }
    }

    /// The reader, as the last read left it.
    pub fn into_inner(self) -> R
        ensures inside { result ≡ reader_inside self }
        ensures told { R.remaining result ≡ ⟦<FromRead<R> as Source>⟧.left self }
    {
        self.inner
    }
}

impl<R: Reader> Source for FromRead<R> {
    ghost use Rattle.mst_pair.specs.Sources.{FailedOrSpent, TakesRead, LeavesFewerReads};

    ghost left = { λ s. R.remaining s.inner };

    ghost reads_left = { λ s. s.reads_left };

    ghost has_failed = { λ s. s.failed };

    /// Reads from the reader once, where it has not failed and a read is left.
    ///
    /// # Errors
    ///
    /// `Failed` where the reader returns an error, a call has failed before, or no read is left. The reader then has what it had.
    fn read(&mut self, buf: &mut [u8]) -> Result<usize, Failed>
        ensures bound { IfOk result (λ n. n ≤ length buf.new) }
        ensures bytes { IfOk result (ReaderGives R.remaining self.old self.new buf.new) }
        ensures end { IfOk result (λ n. n ≡ 0 → 0 < length buf.new → IsAtEnd (R.remaining (reader_inside self.new))) }
        ensures error { OnErr result (Keeps (R.remaining (reader_inside self.old)) (R.remaining (reader_inside self.new))) }
        ensures failed { MarksFailed ⟦<FromRead<R> as Source>⟧.has_failed self.old self.new result }

        // It fails only where a call has failed before, no read is left, or the reader's call failed.
        ensures cause { OnErr result (FailedOrSpent ⟦<FromRead<R> as Source>⟧ R.may_fail self.old self.new) }

        // Each call takes one of the reads, but where a call has failed or no read is left.
        ensures takes { TakesRead ⟦<FromRead<R> as Source>⟧ self.old self.new }
        ensures falls { IfOk result (LeavesFewerReads ⟦<FromRead<R> as Source>⟧ self.old self.new) }
    {
        if self.failed || self.reads_left == 0 {
            self.failed = true;
            return Err(Failed);
        }
        self.reads_left -= 1;
        match self.inner.read_once(buf) {
            Ok(count) => Ok(count),
            Err(_) => {
                self.failed = true;
                Err(Failed)
            }
        }
    }

    fn failed(&self) -> bool {
        self.failed
    }
}
