//! Why the program ends early.
use merkle_store::fetch_fault::FetchFault;
use merkle_store::wire::WireFault;
use mst_commands::Fault;
use mst_commands::fault::Named;
use mst_files::fault::FileFault;
use std::alloc::AllocError;
use std::{fmt, io};
use store_file::StoreFault;
use store_tree::TreeFault;

/// Why the program ends early.
#[derive(Debug, Drop)]
pub enum Failure {
    /// A command on the file failed, or the file wasn't opened, closed or made.
    File(FileFault),
    /// Nothing was fetched.
    Fetch(FetchFault),
    /// A peer sent an entry whose time is too far ahead of the clock.
    Ahead(Named),
    /// A peer sent an entry whose key, writer or value is too long.
    TooLong(Named),
    /// A peer sent more bytes than it may.
    TooMany,
    /// The file was replaced by another store while a peer was asked.
    Replaced,
    /// The tree in the file isn't that of its rows.
    Misfit,
    /// A peer didn't ask, though it had the turn.
    OneWay,
    /// Commands of a shell failed, each with its line on standard error.
    Lines(u64),
}

impl From<FileFault> for Failure {
    fn from(fault: FileFault) -> Self {
        Failure::File(fault)
    }
}

impl From<Fault> for Failure {
    fn from(fault: Fault) -> Self {
        Failure::File(FileFault::Command(fault))
    }
}

impl From<StoreFault> for Failure {
    fn from(fault: StoreFault) -> Self {
        Failure::from(Fault::Store(fault))
    }
}

impl From<TreeFault> for Failure {
    fn from(fault: TreeFault) -> Self {
        Failure::from(StoreFault::from(fault))
    }
}

impl From<AllocError> for Failure {
    fn from(_error: AllocError) -> Self {
        Failure::from(StoreFault::Memory)
    }
}

impl From<io::Error> for Failure {
    fn from(error: io::Error) -> Self {
        Failure::from(Fault::Device(error))
    }
}

impl From<WireFault> for Failure {
    fn from(fault: WireFault) -> Self {
        Failure::Fetch(FetchFault::Wire(fault))
    }
}

impl fmt::Display for Failure {
    fn fmt<W: fmt::Write>(&self, f: &mut fmt::Formatter<W>) -> fmt::Result {
        match self {
            Failure::File(fault) => write!(f, "{fault}"),
            Failure::Fetch(fault) => write!(f, "{fault}"),
            Failure::Ahead(entry) => write!(
                f,
                "the peer sent an entry more than a day ahead of the clock (--allow-ahead takes it): {entry}: nothing was joined"
            ),
            Failure::TooLong(entry) => write!(
                f,
                "the peer sent an entry whose key, writer or value is longer than 1 MiB: {entry}: nothing was joined"
            ),
            Failure::TooMany => f.write_str("the peer sent more bytes than --max-bytes allows"),
            Failure::Replaced => f.write_str(
                "the file is another store than before the peer was asked: nothing was joined",
            ),
            Failure::Misfit => f.write_str(
                "the tree in the file doesn't fit its rows: mst rebuild makes it anew",
            ),
            Failure::OneWay => f.write_str(
                "the peer didn't fetch what this copy has: mst serve needs --both for that",
            ),
            Failure::Lines(1) => f.write_str("1 command failed"),
            Failure::Lines(count) => write!(f, "{count} commands failed"),
        }
    }
}
