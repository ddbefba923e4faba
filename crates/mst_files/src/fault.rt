//! Why the file of a store isn't opened, closed or made.
use mst_commands::Fault;
use sqlite_std_file::OpenError;
use std::alloc::AllocError;
use std::io::ErrorKind;
use std::{fmt, io};
use store_file::StoreFault;
use store_file::format::FORMAT;
use store_file::former::FORMER_FORMAT;

/// Why the file of a store isn't opened, closed or made, or why a command on it failed.
#[derive(Debug, Drop)]
pub enum FileFault {
    /// A command on the file failed, or the file isn't opened, closed or made as that of a store.
    Command(Fault),
    /// The operating system didn't open the file.
    Path(OpenError),
    /// The file is a store in a mode that isn't read here.
    Mode(&'static str),
}

impl From<Fault> for FileFault {
    fn from(fault: Fault) -> Self {
        FileFault::Command(fault)
    }
}

impl From<StoreFault> for FileFault {
    fn from(fault: StoreFault) -> Self {
        FileFault::Command(Fault::Store(fault))
    }
}

impl From<OpenError> for FileFault {
    fn from(error: OpenError) -> Self {
        match error {
            OpenError::Busy => FileFault::Command(Fault::InUse),
            other => FileFault::Path(other),
        }
    }
}

impl From<AllocError> for FileFault {
    fn from(_error: AllocError) -> Self {
        FileFault::Command(Fault::Store(StoreFault::Memory))
    }
}

impl From<io::Error> for FileFault {
    fn from(error: io::Error) -> Self {
        FileFault::Command(Fault::Device(error))
    }
}

impl fmt::Display for FileFault {
    fn fmt<W: fmt::Write>(&self, f: &mut fmt::Formatter<W>) -> fmt::Result {
        match self {
            FileFault::Command(Fault::Store(StoreFault::Format(FORMER_FORMAT))) => write!(
                f,
                "the file is a store in format {FORMER_FORMAT}: mst rebuild FILE brings it into format {FORMAT}"
            ),
            FileFault::Command(fault) => write!(f, "{fault}"),
            FileFault::Path(OpenError::Io(error)) if error.kind() == ErrorKind::Unsupported =>
                f.write_str("the file, or its log beside it, isn't a regular file with one name"),
            FileFault::Path(error) => write!(f, "{error}"),
            FileFault::Mode(what) => f.write_str(what),
        }
    }
}
