//! Why a peer was not served or not heard.
ghost use Rattle.std.specs.Prelude.{◌≡◌};

use merkle_wire::{AnswerError, SessionError};
use std::alloc::{AllocError, AllocFailed};
use std::fmt;

/// Why a peer was not served or not heard.
#[derive(Debug, Drop)]
pub enum WireFault {
    /// Out of memory.
    Memory,
    /// A message is longer than it may be.
    TooLong(u64),
    /// The peer stopped in the middle of a message, or before its reply.
    Cut,
    /// The peer answers in more parts than a session may have, as one does that tells a row a reply.
    Endless,
    /// The input or the output failed.
    Device,
    /// The peer's message has no reply.
    Question(AnswerError),
    /// The peer's reply is invalid.
    Reply(SessionError),
}

impl From<AllocError> for WireFault {
    ghost use Rattle.merkle_store.specs.declared.wire.WireFault.TheVariants.{Memory};

    ghost from_gives = { λ _ fault. fault ≡ Memory };

    fn from(_error: AllocError) -> Self {
        WireFault::Memory
    }
}

impl<T: Drop> From<AllocFailed<T>> for WireFault {
    ghost use Rattle.merkle_store.specs.declared.wire.WireFault.TheVariants.{Memory};

    ghost from_gives = { λ _ fault. fault ≡ Memory };

    fn from(_error: AllocFailed<T>) -> Self {
        WireFault::Memory
    }
}

impl From<AnswerError> for WireFault {
    ghost use Rattle.merkle_store.specs.declared.wire.WireFault.TheVariants.{Question};

    ghost from_gives = { λ error fault. fault ≡ Question error };

    fn from(error: AnswerError) -> Self {
        WireFault::Question(error)
    }
}

impl From<SessionError> for WireFault {
    ghost use Rattle.merkle_store.specs.declared.wire.WireFault.TheVariants.{Reply};

    ghost from_gives = { λ error fault. fault ≡ Reply error };

    fn from(error: SessionError) -> Self {
        WireFault::Reply(error)
    }
}

impl fmt::Display for WireFault {
    fn fmt<W: fmt::Write>(&self, f: &mut fmt::Formatter<W>) -> fmt::Result {
        match self {
            WireFault::Memory => f.write_str("out of memory"),
            WireFault::TooLong(len) => write!(f, "a message of {len} bytes is too long"),
            WireFault::Cut => f.write_str("the connection ended in the middle of a session"),
            WireFault::Endless => f.write_str("the peer sent too many replies"),
            WireFault::Device => f.write_str("the connection to the peer failed"),
            WireFault::Question(error) => write!(f, "{error}"),
            WireFault::Reply(SessionError::Refused) => f.write_str(
                "the peer rejected the request: it may have another hash key",
            ),
            WireFault::Reply(error) => write!(f, "{error}"),
        }
    }
}
