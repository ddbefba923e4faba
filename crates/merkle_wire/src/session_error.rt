//! Why a catch-up over a wire ended early.
ghost use Rattle.std.specs.Prelude.{◌≡◌, Some};
ghost use Rattle.merkle_wire.specs.Faults.{session_error_text};

use crate::limits::Limit;
use merkle_bytes::ReadError;
use std::alloc::{AllocError, AllocFailed};
use std::fmt;

/// Why a catch-up over a wire ended early. Nothing is joined then.
#[derive(Clone, Copy, Debug, PartialEq, Eq, Drop)]
pub enum SessionError {
    /// Out of memory.
    Memory,
    /// The bytes are no reply.
    Malformed(ReadError),
    /// The reply is not of the kind that was asked for.
    OtherKind,
    /// The peer refused what was asked.
    Refused,
    /// The reply has nothing of what was asked for.
    NothingCame,
    /// Keys don't ascend, or leave the gap that was asked for.
    NotInGap,
    /// A page has no node, as no page of a tree has.
    NoNode,
    /// The peer has more rounds of outlines than a tree has levels.
    TooManyRounds,
    /// A row came twice.
    Twice,
    /// The peer sent more than a limit allows.
    Limit(Limit),
}

/// Why a catch-up by a tree that is kept anywhere ended early. Nothing is joined then.
#[derive(Debug, Drop)]
pub enum TakeError<E> {
    /// For a reason for which a catch-up of a replica ends.
    Session(SessionError),
    /// The tree couldn't be read.
    Tree(E),
}

impl<E: Drop> From<SessionError> for TakeError<E> {
    ghost use Rattle.merkle_wire.specs.declared.session_error.TakeError.TheVariants.{Session};

    ghost from_gives = { λ error fault. fault ≡ Session error };

    fn from(error: SessionError) -> Self {
        TakeError::Session(error)
    }
}

impl From<AllocError> for SessionError {
    ghost use Rattle.merkle_wire.specs.declared.session_error.SessionError.TheVariants.{Memory};

    ghost from_gives = { λ _ fault. fault ≡ Memory };

    fn from(_error: AllocError) -> Self {
        SessionError::Memory
    }
}

impl<T: Drop> From<AllocFailed<T>> for SessionError {
    ghost use Rattle.merkle_wire.specs.declared.session_error.SessionError.TheVariants.{Memory};

    ghost from_gives = { λ _ fault. fault ≡ Memory };

    fn from(_error: AllocFailed<T>) -> Self {
        SessionError::Memory
    }
}

impl From<ReadError> for SessionError {
    ghost use Rattle.merkle_bytes.specs.Refusals.{unread};
    ghost use Rattle.merkle_wire.specs.declared.session_error.SessionError.TheVariants.{Malformed, Memory};

    ghost from_gives = { λ error fault. fault ≡ unread Memory Malformed error };

    fn from(error: ReadError) -> Self {
        match error {
            ReadError::Memory => SessionError::Memory,
            ReadError::Unexpected { .. } => SessionError::Malformed(error),
        }
    }
}

impl fmt::Display for SessionError {
    ghost output = { λ error. Some (session_error_text error) };

    fn fmt<W: fmt::Write>(&self, f: &mut fmt::Formatter<W>) -> fmt::Result {
        match self {
            SessionError::Memory => f.write_str("out of memory"),
            SessionError::Malformed(error) => write!(f, "the reply is malformed: {error}"),
            SessionError::OtherKind => f.write_str("the reply doesn't match the question"),
            SessionError::Refused => f.write_str("the peer rejected the request"),
            SessionError::NothingCame => f.write_str("the peer sent nothing of what was asked for"),
            SessionError::NotInGap => {
                f.write_str("the peer sent keys out of order or outside the requested gap")
            }
            SessionError::NoNode => f.write_str("the peer sent a page without a node"),
            SessionError::TooManyRounds => f.write_str("the peer's tree has too many levels"),
            SessionError::Twice => f.write_str("the peer sent a row twice"),
            SessionError::Limit(limit) => write!(
                f,
                "the peer sent more {limit} than the limit allows"
            ),
        }
    }
}
