//! Why a call on a table of cells failed.
ghost use Rattle.std.specs.Prelude.{◌≡◌};

use sqlite_trees::error::StoreError;
use std::alloc::{AllocError, AllocFailed};
use store_file::StoreFault;

/// Why a call on a table of cells failed. What a call wrote is then to be rolled back.
#[derive(Debug, Drop)]
pub enum TreeFault {
    /// The database failed.
    Database(StoreError),
    /// Out of memory.
    Memory,
    /// A row of the table is no cell, one of another table isn't what stands there, or the rows are the gaps of no map, of another one than that which is kept, or
    /// of one with 2^63 keys or more.
    Malformed,
}

impl From<StoreError> for TreeFault {
    ghost use Rattle.store_tree.specs.Faults.{tree_fault_of};

    ghost from_gives = { λ error fault. fault ≡ tree_fault_of error };

    fn from(error: StoreError) -> Self {
        match error {
            StoreError::OutOfMemory => TreeFault::Memory,
            other => TreeFault::Database(other),
        }
    }
}

impl From<StoreFault> for TreeFault {
    ghost use Rattle.store_tree.specs.Faults.{fault_of_log};

    ghost from_gives = { λ error fault. fault ≡ fault_of_log error };

    fn from(error: StoreFault) -> Self {
        match error {
            StoreFault::Database(error) => TreeFault::Database(error),
            StoreFault::Memory => TreeFault::Memory,
            _ => TreeFault::Malformed,
        }
    }
}

impl From<TreeFault> for StoreFault {
    ghost use Rattle.store_tree.specs.Faults.{log_fault_of};

    ghost from_gives = { λ error fault. fault ≡ log_fault_of error };

    fn from(error: TreeFault) -> Self {
        match error {
            TreeFault::Database(error) => StoreFault::Database(error),
            TreeFault::Memory => StoreFault::Memory,
            TreeFault::Malformed => StoreFault::Malformed,
        }
    }
}

impl From<AllocError> for TreeFault {
    ghost use Rattle.store_tree.specs.declared.fault.TreeFault.TheVariants.{Memory};

    ghost from_gives = { λ _ fault. fault ≡ Memory };

    fn from(_error: AllocError) -> Self {
        TreeFault::Memory
    }
}

impl<T: Drop> From<AllocFailed<T>> for TreeFault {
    ghost use Rattle.store_tree.specs.declared.fault.TreeFault.TheVariants.{Memory};

    ghost from_gives = { λ _ fault. fault ≡ Memory };

    fn from(_error: AllocFailed<T>) -> Self {
        TreeFault::Memory
    }
}
