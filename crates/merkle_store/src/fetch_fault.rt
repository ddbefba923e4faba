//! Why nothing was fetched.
ghost use Rattle.std.specs.Prelude.{◌≡◌};

use crate::wire::WireFault;
use std::alloc::AllocError;
use std::fmt;

/// An entry of a peer that isn't taken.
#[derive(Debug, Drop)]
pub struct Untaken {
    /// Its key.
    pub key: String,
    /// Its time, in milliseconds since 1970.
    pub time: u64,
    /// Who wrote it.
    pub writer: String,
}

/// Why nothing was fetched.
#[derive(Debug, Drop)]
pub enum FetchFault {
    /// The peer was not heard.
    Wire(WireFault),
    /// The peer sent an entry whose time is too far ahead of the clock.
    Ahead(Untaken),
    /// The peer sent an entry whose key, writer or value has more than [`MOST_TEXT`](crate::fetching::MOST_TEXT).
    TooLong(Untaken),
    /// The peer sent more entries than are taken.
    TooMany,
}

impl From<AllocError> for FetchFault {
    ghost use Rattle.merkle_store.specs.declared.fetch_fault.FetchFault.TheVariants.{Wire};
    ghost use Rattle.merkle_store.specs.declared.wire.WireFault.TheVariants.{Memory};

    ghost from_gives = { λ _ made. made ≡ Wire Memory };

    fn from(_error: AllocError) -> Self {
        FetchFault::Wire(WireFault::Memory)
    }
}

impl fmt::Display for FetchFault {
    fn fmt<W: fmt::Write>(&self, f: &mut fmt::Formatter<W>) -> fmt::Result {
        match self {
            FetchFault::Wire(fault) => write!(f, "{fault}"),
            FetchFault::Ahead(_) => f.write_str(
                "the peer sent an entry more than a day ahead of the clock: nothing was joined",
            ),
            FetchFault::TooLong(_) => f.write_str(
                "the peer sent a text of more than 1 MiB: nothing was joined",
            ),
            FetchFault::TooMany => f.write_str(
                "the peer sent more entries than are taken: nothing was joined",
            ),
        }
    }
}
