//! Why the program ends early.

use std::alloc::{AllocError, AllocFailed};
use std::fmt;

/// Why the program ended before its work was done.
#[derive(Drop)]
pub enum Fault {
    /// The arguments are no task.
    Usage,
    /// Out of memory.
    Memory,
    /// The clock could not be read.
    Clock,
    /// Standard output did not take what was written.
    Output,
}

impl fmt::Display for Fault {
    fn fmt<W: fmt::Write>(&self, f: &mut fmt::Formatter<W>) -> fmt::Result {
        match self {
            Fault::Usage => write!(f, "the arguments are no numbers"),
            Fault::Memory => write!(f, "out of memory"),
            Fault::Clock => write!(f, "the clock failed"),
            Fault::Output => write!(f, "write failed"),
        }
    }
}

impl From<AllocError> for Fault {
    ghost use Rattle.std.specs.Prelude.{◌≡◌};
    ghost use Rattle.mst_bench.specs.declared.fault.Fault.TheVariants.{Memory};

    ghost from_gives = { λ _ fault. fault ≡ Memory };

    fn from(_error: AllocError) -> Self {
        Fault::Memory
    }
}

impl<T: Drop> From<AllocFailed<T>> for Fault {
    ghost use Rattle.std.specs.Prelude.{◌≡◌};
    ghost use Rattle.mst_bench.specs.declared.fault.Fault.TheVariants.{Memory};

    ghost from_gives = { λ _ fault. fault ≡ Memory };

    fn from(_error: AllocFailed<T>) -> Self {
        Fault::Memory
    }
}
