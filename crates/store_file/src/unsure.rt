//! A disk of which nothing is known to be clean.
ghost use Rattle.std.specs.Prelude.{◌≡◌, ◌+◌, true, false, refl};
ghost use Rattle.sqlite_disk.specs.Tally.{both_counts};

use sqlite_disk::{Disk, Tally, digest_of};
use std::io;

/// A disk that hands each call on to another, and is never clean.
///
/// A program that opens a file which it did not make can't know that the file is sound. Over this disk no clause on values says anything,
/// so that it can meet what [`open`](crate::file::open) asks of clean disks. What is proved of `open` is proved for every disk, and so for
/// one whose file is sound.
#[derive(Drop)]
pub struct Unsure<D: Disk> {
    inner: D,
    /// The reads that have failed.
    failed: u64,
    /// The reads whose bytes failed the test against a digest.
    caught: u64,
    /// The writes that found no room below the longest file.
    refused: u64,
    /// How many bytes a file may have.
    most: u64,
}

impl<D: Disk> Unsure<D> {
    ghost use Rattle.store_file.specs.Unsure.{disk_below};

    /// The same disk, of which nothing is known, and whose file may have any length.
    pub fn new(inner: D) -> Unsure<D>
        ensures { disk_below result ≡ inner }
    {
        Unsure::within(inner, u64::MAX)
    }

    /// The same, where a write past this many bytes finds no room: a process that may make no longer files is ended by the system if it tries.
    pub fn within(inner: D, most: u64) -> Unsure<D>
        ensures { disk_below result ≡ inner }
    {
        Unsure {
            inner,
            failed: 0,
            caught: 0,
            refused: 0,
            most,
        }
    }
}

impl<D: Disk> Disk for Unsure<D> {
    ghost seen = { λ u. D.Disk.seen u.inner };

    ghost may_leave = { λ u. D.Disk.may_leave u.inner };

    ghost is_usable = { λ u. D.Disk.is_usable u.inner };

    ghost faults = { λ u. D.Disk.faults u.inner + u.failed };

    ghost tally_of = { λ u. both_counts (D.Disk.tally_of u.inner) (record { caught = u.caught; refused = u.refused }) };

    ghost is_clean = { λ _. false };

    ghost key_of = { λ u. D.Disk.key_of u.inner };

    ghost is_fair = { λ _ _. true };

    ghost fair_if_clean = { λ _ _ _. refl };

    ghost seen_may_stay = { λ u. D.Disk.seen_may_stay u.inner };

    ghost is_mixing = { λ u. D.Disk.is_mixing u.inner };

    fn mixes(&self) -> bool {
        self.inner.mixes()
    }

    fn key(&self) -> u64 {
        self.inner.key()
    }

    fn tally(&self) -> Tally {
        self.inner.tally().plus(Tally {
            caught: self.caught,
            refused: self.refused,
        })
    }

    fn may_be_used(&self) -> bool {
        self.inner.may_be_used()
    }

    fn len(&mut self) -> io::Result<usize> {
        self.inner.len()
    }

    fn read_at(&mut self, at: usize, buf: &mut [u8]) -> io::Result<()> {
        let outcome = self.inner.read_at(at, buf);
        if outcome.is_err() {
            self.failed = self.failed.saturating_add(1);
        }
        outcome
    }

    // The disk below asks of a caller that it knows the digest of what is there, which nobody does here.
    fn read_checked(&mut self, key: u64, want: u64, at: usize, buf: &mut [u8]) -> io::Result<()> {
        self.read_at(at, buf)?;
        if digest_of(key, buf) != want {
            self.failed = self.failed.saturating_add(1);
            self.caught = self.caught.saturating_add(1);
            return Err(io::ErrorKind::InvalidData.into());
        }
        Ok(())
    }

    fn write_at(&mut self, at: usize, bytes: &[u8]) -> io::Result<()> {
        let end = (at as u64).saturating_add(bytes.len() as u64);
        if end > self.most {
            self.failed = self.failed.saturating_add(1);
            self.refused = self.refused.saturating_add(1);
            return Err(io::ErrorKind::StorageFull.into());
        }
        self.inner.write_at(at, bytes)
    }

    fn set_len(&mut self, len: usize) -> io::Result<()> {
        self.inner.set_len(len)
    }

    fn sync(&mut self) -> io::Result<()> {
        self.inner.sync()
    }
}
