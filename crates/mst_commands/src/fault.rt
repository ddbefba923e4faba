//! Why a command ends early.
ghost use Rattle.std.specs.Prelude.{◌≡◌};
ghost use Rattle.mst_commands.specs.Malformed.{IsCommandFailure};

use csv::ErrorKind;
use std::alloc::{AllocError, AllocFailed};
use std::{fmt, io};
use store_file::StoreFault;

/// What is said of an entry that isn't taken.
#[derive(Debug, Drop)]
pub struct Named {
    /// Its key, in one line, cut where it is long.
    pub key: String,
    /// Its time, in milliseconds since 1970.
    pub time: u64,
    /// Who wrote it, as the key.
    pub writer: String,
}

impl fmt::Display for Named {
    fn fmt<W: fmt::Write>(&self, f: &mut fmt::Formatter<W>) -> fmt::Result {
        write!(
            f,
            "{}, written by {} at {}",
            self.key, self.writer, self.time
        )
    }
}

/// Why a command ends early. The file is then as it was.
#[derive(Debug, Drop)]
pub enum Fault {
    /// There is no such file.
    NoStore,
    /// There is a file already.
    Exists,
    /// Another process has the file.
    InUse,
    /// The key is not there.
    NoKey,
    /// The key doesn't say what a write wants of it.
    Unmet,
    /// A key or a value has more than 1 MiB.
    TooLong(&'static str),
    /// The first line of an import is another than this.
    NoHeader(&'static str),
    /// A line of an import is wrong, for this reason.
    BadLine(u64, &'static str),
    /// An import of a log has an entry whose time is too far ahead of the clock.
    Future(Named),
    /// So many rows of the table are no entries.
    Damaged(usize),
    /// The store refused or failed.
    Store(StoreFault),
    /// Standard input or output failed.
    Device(io::Error),
    /// The clock or the source of randomness failed.
    System,
}

impl From<StoreFault> for Fault {
    ghost use Rattle.mst_commands.specs.declared.fault.Fault.TheVariants.{Store};

    ghost from_gives = { λ fault made. made ≡ Store fault };

    fn from(fault: StoreFault) -> Self {
        Fault::Store(fault)
    }
}

impl From<AllocError> for Fault {
    ghost use Rattle.store_file.specs.declared.fault.StoreFault.TheVariants.{Memory};
    ghost use Rattle.mst_commands.specs.declared.fault.Fault.TheVariants.{Store};

    ghost from_gives = { λ _ made. made ≡ Store Memory };

    fn from(_error: AllocError) -> Self {
        Fault::Store(StoreFault::Memory)
    }
}

impl<T: Drop> From<AllocFailed<T>> for Fault {
    ghost use Rattle.store_file.specs.declared.fault.StoreFault.TheVariants.{Memory};
    ghost use Rattle.mst_commands.specs.declared.fault.Fault.TheVariants.{Store};

    ghost from_gives = { λ _ made. made ≡ Store Memory };

    fn from(_error: AllocFailed<T>) -> Self {
        Fault::Store(StoreFault::Memory)
    }
}

impl From<io::Error> for Fault {
    ghost use Rattle.mst_commands.specs.declared.fault.Fault.TheVariants.{Device};

    ghost from_gives = { λ error made. made ≡ Device error };

    fn from(error: io::Error) -> Self {
        Fault::Device(error)
    }
}

/// Why a read or a write of CSV ended early.
pub fn csv_fault(error: &csv::Error) -> Fault
    ensures { IsCommandFailure result }
{
    match error.kind() {
        ErrorKind::OutOfMemory => Fault::Store(StoreFault::Memory),
        other => Fault::Device(device_error(other)),
    }
}

/// Why a read of the input ended early.
pub fn input_fault(error: io::Error) -> Fault
    ensures { IsCommandFailure result }
{
    if error.kind() == io::ErrorKind::OutOfMemory {
        Fault::Store(StoreFault::Memory)
    } else {
        Fault::Device(error)
    }
}

/// The error of the device from which CSV is read, or to which it is written.
fn device_error(kind: &ErrorKind) -> io::Error {
    match kind {
        ErrorKind::Io(error) => *error,
        _ => io::ErrorKind::InvalidData.into(),
    }
}

impl fmt::Display for Fault {
    fn fmt<W: fmt::Write>(&self, f: &mut fmt::Formatter<W>) -> fmt::Result {
        match self {
            Fault::NoStore => f.write_str(
                "there is no such file: mst init makes a store, and mst-clone a copy of one",
            ),
            Fault::Exists => f.write_str("the file exists already"),
            Fault::InUse => f.write_str("the file is in use by another process"),
            Fault::NoKey => f.write_str("no such key"),
            Fault::Unmet => f.write_str(
                "the key isn't as --if-absent or --if-value asks: nothing is written",
            ),
            Fault::TooLong(what) => write!(f, "{what} is longer than 1 MiB"),
            Fault::NoHeader(header) => write!(
                f,
                "the first line of the input must be {header}: nothing is imported"
            ),
            Fault::BadLine(line, why) => write!(
                f,
                "line {line} of the input: {why}: nothing is imported"
            ),
            Fault::Future(entry) => write!(
                f,
                "the input has an entry more than a day ahead of the clock (--allow-ahead takes it): {entry}: nothing is imported"
            ),
            Fault::Damaged(1) => f.write_str("the file is damaged: 1 of its rows is no entry"),
            Fault::Damaged(rows) => write!(
                f,
                "the file is damaged: {rows} of its rows are no entries"
            ),
            Fault::Store(fault) => write!(f, "{fault}"),
            Fault::Device(error) => write!(f, "standard input or output failed: {error}"),
            Fault::System => f.write_str("the clock or the source of randomness failed"),
        }
    }
}
