//! With which status the program ends.
use crate::fault::Failure;
use merkle_store::fetch_fault::FetchFault;
use merkle_store::wire::WireFault;
use merkle_wire::{AnswerError, SessionError};
use mst_commands::Fault;
use mst_files::fault::FileFault;
use sqlite_std_file::OpenError;
use sqlite_trees::error::StoreError;
use std::io::ErrorKind;
use store_file::StoreFault;

/// The key isn't there, or isn't as a write wants it.
const NO_KEY: u8 = 1;
/// The command line is wrong.
pub const USAGE: u8 = 2;
/// Another process has the file.
const IN_USE: u8 = 3;
/// The file is damaged.
const DAMAGED: u8 = 4;
/// The file isn't a store that this program reads.
const FOREIGN: u8 = 5;
/// The disk or the file is full.
const FULL: u8 = 6;
/// The connection to the peer ended, or the peer sent what isn't taken.
const PEER: u8 = 7;
/// An entry is more than a day ahead of the clock.
const AHEAD: u8 = 8;
/// Anything else.
const OTHER: u8 = 9;

/// The status for a fault of the database.
fn of_database(error: &StoreError) -> u8 {
    match error {
        StoreError::Corrupt => DAMAGED,
        StoreError::Full => FULL,
        _ => OTHER,
    }
}

/// The status for a fault of the store.
fn of_store(fault: &StoreFault) -> u8 {
    match fault {
        StoreFault::Database(error) => of_database(error),
        StoreFault::Malformed => DAMAGED,
        StoreFault::Foreign | StoreFault::Format(_) => FOREIGN,
        StoreFault::Memory | StoreFault::Exists | StoreFault::Time => OTHER,
    }
}

/// The status for a fault of a command.
fn of_command(fault: &Fault) -> u8 {
    match fault {
        Fault::NoKey | Fault::Unmet => NO_KEY,
        Fault::InUse => IN_USE,
        Fault::Future(_) => AHEAD,
        Fault::Damaged(_) => DAMAGED,
        Fault::Store(fault) => of_store(fault),
        Fault::Device(error) => of_device(error.kind()),
        _ => OTHER,
    }
}

/// The status for an error of a device.
fn of_device(kind: ErrorKind) -> u8 {
    match kind {
        ErrorKind::Unsupported => FOREIGN,
        ErrorKind::StorageFull | ErrorKind::QuotaExceeded => FULL,
        _ => OTHER,
    }
}

/// The status where the operating system didn't open the file.
fn of_path(error: &OpenError) -> u8 {
    match error {
        OpenError::Io(error) => of_device(error.kind()),
        OpenError::HotJournal => FOREIGN,
        OpenError::Busy => IN_USE,
        OpenError::OutOfMemory => OTHER,
    }
}

/// The status where a command on the file failed, or the file wasn't opened, closed or made.
fn of_file(fault: &FileFault) -> u8 {
    match fault {
        FileFault::Command(fault) => of_command(fault),
        FileFault::Path(error) => of_path(error),
        FileFault::Mode(_) => FOREIGN,
    }
}

/// The status where a peer was not served or not heard.
fn of_wire(fault: &WireFault) -> u8 {
    match fault {
        WireFault::Memory
        | WireFault::Question(AnswerError::Memory)
        | WireFault::Reply(SessionError::Memory) => OTHER,
        _ => PEER,
    }
}

/// The status where nothing was fetched.
fn of_fetch(fault: &FetchFault) -> u8 {
    match fault {
        FetchFault::Wire(fault) => of_wire(fault),
        FetchFault::Ahead(_) => AHEAD,
        FetchFault::TooLong(_) | FetchFault::TooMany => PEER,
    }
}

/// The status with which the program ends early.
pub fn status_of(failure: &Failure) -> u8 {
    match failure {
        Failure::File(fault) => of_file(fault),
        Failure::Replaced => FOREIGN,
        Failure::Misfit => DAMAGED,
        Failure::Fetch(fault) => of_fetch(fault),
        Failure::Ahead(_) => AHEAD,
        Failure::TooLong(_) | Failure::TooMany | Failure::OneWay => PEER,
        Failure::Lines(_) => OTHER,
    }
}
