//! Sides that let go of what others wait for, while their peer is waited for.
ghost use Rattle.std.specs.Prelude.{◌≡◌};

use crate::counting::Counting;
use crate::rows::EntryReplica;
use merkle_digest::SipHasher;
use merkle_wire::{AskingReplica, KeptReplica};
use std::alloc::AllocError;
use store_file::Register;

/// A side that answers, and is told when nothing is asked of it: a file that others wait for can be closed then. One in memory does nothing.
pub trait PausingSide: KeptReplica<16, String, Register, SipHasher> {
    /// Nothing is asked of the side until a message of its peer has come.
    fn pause(&mut self) -> Result<(), Self::Error>
        ensures same { Self.is_sound self.new → self.new ≡ self.old }
        ensures steady { Self.is_sound self.new → Self.is_sound self.old };
}

/// A side that asks, and is told when nothing is asked of it, as a [`PausingSide`] is.
pub trait PausingAsker: AskingReplica<16, String, Register, SipHasher> {
    /// Nothing is asked of the side until a reply of its peer has come.
    fn pause(&mut self) -> Result<(), Self::Error>
        ensures same { Self.is_sound self.new → self.new ≡ self.old }
        ensures steady { Self.is_sound self.new → Self.is_sound self.old };
}

impl PausingSide for EntryReplica {
    fn pause(&mut self) -> Result<(), AllocError> {
        Ok(())
    }
}

impl PausingAsker for EntryReplica {
    fn pause(&mut self) -> Result<(), AllocError> {
        Ok(())
    }
}

impl<S: PausingSide> PausingSide for Counting<S> {
    fn pause(&mut self) -> Result<(), S::Error> {
        self.side.pause()
    }
}
