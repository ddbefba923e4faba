//! The refusal that a side keeps as its message.
ghost use Rattle.std.specs.Prelude.{◌≡◌, ◌≢◌, ◌⊎◌};
ghost use Rattle.merkle_wire.specs.Faults.{IsUnread, AreOtherSettings};
ghost use Rattle.merkle_wire.specs.Messages.{front};
ghost use Rattle.merkle_wire.specs.declared.message.Kind.TheVariants.{Refusal};

use crate::status::OTHER_SETTINGS;
use c_values::status::{MALFORMED, MEMORY};
use merkle_wire::{AnswerError, refusal};
use std::alloc::Global;

/// Keeps the refusal of a message that has no reply, unless out of memory, and returns the status.
pub fn fail(alloc: Global, message: &mut Vec<u8>, error: AnswerError) -> u32
    ensures malformed { result ≡ 2 → IsUnread error }
    ensures others { result ≡ 6 → AreOtherSettings error }
    ensures refusal { (result ≡ 2) ⊎ (result ≡ 6) → message.new.items ≡ front Refusal }
    ensures memory { result ≡ 1 → message.new ≡ message.old }
    ensures status { (result ≡ 1) ⊎ (result ≡ 2) ⊎ (result ≡ 6) }
{
    match error {
        AnswerError::Memory => MEMORY,
        AnswerError::Malformed(_) => refuse(alloc, message, MALFORMED),
        AnswerError::OtherSettings => refuse(alloc, message, OTHER_SETTINGS),
    }
}

/// Keeps the refusal, and returns this status; or `MEMORY`, and the message is as before.
pub fn refuse(alloc: Global, message: &mut Vec<u8>, status: u32) -> u32
    ensures refusal { result ≢ 1 → (result ≡ status) × (message.new.items ≡ front Refusal) }
    ensures memory { result ≡ 1 → status ≢ 1 → message.new ≡ message.old }
    ensures status { (result ≡ 1) ⊎ (result ≡ status) }
{
    match refusal(alloc) {
        Ok(bytes) => {
            *message = bytes;
            status
        }
        Err(_) => MEMORY,
    }
}
