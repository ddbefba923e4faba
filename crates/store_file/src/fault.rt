//! Why a file isn't opened, made or closed, and why a call on a store failed.
ghost use Rattle.std.specs.Prelude.{◌≡◌};
ghost use Rattle.store_file.specs.Faults.{open_fault_of, probe_fault_of};

use sqlite_store::OpenError;
use sqlite_trees::error::StoreError;
use sqlite_wal::Error as ProbeError;
use std::alloc::AllocError;
use std::error::Error;
use std::fmt;

/// Why a file isn't opened, made or closed, and why a call on a store failed. After such a call the store is as it was.
#[derive(Clone, Copy, Debug, PartialEq, Eq)]
pub enum StoreFault {
    /// The database failed: the disk did, it or the file has no room, or the file is damaged.
    Database(StoreError),
    /// Out of memory.
    Memory,
    /// A row of the tables is neither an entry nor a note of a store.
    Malformed,
    /// The file isn't a store: it is no SQLite database, or its tables are not those of a store.
    Foreign,
    /// The file is a store in another format, which has this number.
    Format(i64),
    /// There is a database already, so that none is made.
    Exists,
    /// No later time is left for the key.
    Time,
}

/// What a refusal to open a store means.
pub fn open_fault_of(error: OpenError) -> StoreFault
    ensures { result ≡ open_fault_of error }
{
    match error {
        OpenError::OutOfMemory => StoreFault::Memory,
        OpenError::Io => StoreFault::Database(StoreError::Io),
        OpenError::Full => StoreFault::Database(StoreError::Full),
        OpenError::Refused => StoreFault::Database(StoreError::Corrupt),
    }
}

/// What it means that the first page can't be read.
pub fn probe_fault_of(error: ProbeError) -> StoreFault
    ensures { result ≡ probe_fault_of error }
{
    match error {
        ProbeError::OutOfMemory => StoreFault::Memory,
        ProbeError::Io(_) => StoreFault::Database(StoreError::Io),
        ProbeError::Full => StoreFault::Database(StoreError::Full),
        _ => StoreFault::Database(StoreError::Corrupt),
    }
}

impl From<StoreError> for StoreFault {
    ghost use Rattle.store_file.specs.Faults.{fault_of};

    ghost from_gives = { λ error fault. fault ≡ fault_of error };

    fn from(error: StoreError) -> Self {
        match error {
            StoreError::OutOfMemory => StoreFault::Memory,
            other => StoreFault::Database(other),
        }
    }
}

impl From<AllocError> for StoreFault {
    ghost use Rattle.store_file.specs.declared.fault.StoreFault.TheVariants.{Memory};

    ghost from_gives = { λ _ fault. fault ≡ Memory };

    fn from(_error: AllocError) -> Self {
        StoreFault::Memory
    }
}

impl fmt::Display for StoreFault {
    fn fmt<W: fmt::Write>(&self, f: &mut fmt::Formatter<W>) -> fmt::Result {
        match self {
            StoreFault::Database(StoreError::Io) => f.write_str("the disk failed"),
            StoreFault::Database(StoreError::Corrupt) => f.write_str("the file is damaged"),
            StoreFault::Database(StoreError::Full) => f.write_str("the disk or the file is full"),
            StoreFault::Database(error) => write!(f, "{error}"),
            StoreFault::Memory => f.write_str("out of memory"),
            StoreFault::Malformed => f.write_str(
                "the file is damaged: a row is neither an entry nor the store's note",
            ),
            StoreFault::Foreign => f.write_str("the file isn't a store"),
            StoreFault::Format(format) => write!(
                f,
                "the file is a store in format {format}, which this program can't read"
            ),
            StoreFault::Exists => f.write_str("the file has a database already"),
            StoreFault::Time => f.write_str(
                "the key has the last possible time: it can't be overwritten or removed",
            ),
        }
    }
}

impl Error for StoreFault {}
