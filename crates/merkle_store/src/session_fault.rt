//! Why a session over a side that is kept anywhere ended early.
ghost use Rattle.std.specs.Prelude.{◌≡◌};

use crate::fetch_fault::FetchFault;
use crate::wire::WireFault;
use merkle_wire::{KeptError, TakeError};
use std::alloc::AllocError;

/// Why a session over a side that is kept anywhere ended early: for a reason of its own, such as a [`WireFault`], or one of where the side is kept.
#[derive(Debug, Drop)]
pub enum SessionFault<F, E> {
    /// The session ended for this.
    Session(F),
    /// The side couldn't be read.
    Side(E),
}

impl<E> From<WireFault> for SessionFault<WireFault, E> {
    ghost use Rattle.merkle_store.specs.declared.session_fault.SessionFault.TheVariants.{Session};

    ghost from_gives = { λ fault made. made ≡ Session fault };

    fn from(fault: WireFault) -> Self {
        SessionFault::Session(fault)
    }
}

impl<E> From<FetchFault> for SessionFault<FetchFault, E> {
    ghost use Rattle.merkle_store.specs.declared.session_fault.SessionFault.TheVariants.{Session};

    ghost from_gives = { λ fault made. made ≡ Session fault };

    fn from(fault: FetchFault) -> Self {
        SessionFault::Session(fault)
    }
}

impl<E> From<AllocError> for SessionFault<WireFault, E> {
    ghost use Rattle.merkle_store.specs.declared.session_fault.SessionFault.TheVariants.{Session};
    ghost use Rattle.merkle_store.specs.declared.wire.WireFault.TheVariants.{Memory};

    ghost from_gives = { λ _ made. made ≡ Session Memory };

    fn from(_error: AllocError) -> Self {
        SessionFault::Session(WireFault::Memory)
    }
}

/// The fault of a session in which a reply isn't taken.
pub(crate) fn untaken<E>(error: TakeError<E>) -> SessionFault<WireFault, E> {
    match error {
        TakeError::Session(error) => SessionFault::Session(WireFault::Reply(error)),
        TakeError::Tree(error) => SessionFault::Side(error),
    }
}

/// The fault of a session in which a message has no reply.
pub(crate) fn unanswered<E>(error: KeptError<E>) -> SessionFault<WireFault, E> {
    match error {
        KeptError::Answer(error) => SessionFault::Session(WireFault::Question(error)),
        KeptError::Kept(error) => SessionFault::Side(error),
    }
}
