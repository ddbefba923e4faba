//! Calls by which two replicas talk: the answering side, and the asking side.
ghost use Rattle.std.specs.Prelude.{◌≡◌, ◌≢◌, ◌↔◌, ◌⊎◌, None, length};
ghost use Rattle.c_replicas.specs.Calls.{AsksOn, HasBegun, IsAnswered, IsCutOff, IsGivenUp, IsIdle, JoinsWhatCame, KeepsReplica};
ghost use Rattle.c_rows.specs.Ends.{MeansRefusal, Sends, SendsNothing};
ghost use Rattle.c_values.specs.Output.{IsOutput, IsShort, TellsNumber};
ghost use Rattle.c_values.specs.Handles.{Has, Changes, RefusesNone, RefusesWhere};

use crate::handle::{MstReplica, put_back, take_out};
use c_replicas::byte_replica::Taken;
use c_values::put_bytes;
use c_values::status::{ABSENT, ARGUMENT, DONE, MEMORY};
use std::alloc::Global;

/// Makes the reply to a question and keeps it as the message, and writes how many bytes it has. Where the bytes are no question or the asking side has
/// other settings, the message is the refusal that is to be sent.
///
/// `DONE`; `MEMORY`; `MALFORMED`; `OTHER_SETTINGS`; `ARGUMENT` where the handle has no replica. For `MEMORY` and `ARGUMENT`, the message and `len`
/// are as before.
#[unsafe(no_mangle)]
pub extern "C" fn mst_proved_replica_answer(
    alloc: Global,
    handle: &mut MstReplica,
    question: &[u8],
    len: &mut usize,
) -> u32
    ensures done { result ≡ 0 → Changes handle.old.held handle.new.held (IsAnswered question.now) }
    ensures refused { result ≢ 4 → Has handle.new.held (λ h. MeansRefusal result question.now h.replica.tree h.message) }
    ensures kept { result ≢ 4 → Changes handle.old.held handle.new.held (KeepsReplica result) }
    ensures len { TellsNumber (Sends result) (SendsNothing result) handle.new.held (λ h. length h.message.items) len.old len.new }
    ensures none { RefusesNone result handle.old.held handle.new.held }
    ensures status { (result ≡ 0) ⊎ (result ≡ 1) ⊎ (result ≡ 2) ⊎ (result ≡ 4) ⊎ (result ≡ 6) }
{
    let Some(mut held) = take_out(alloc, handle) else {
        return ARGUMENT;
    };
    let status = held.answer(alloc, question);
    if status != MEMORY {
        *len = held.message.len();
    }
    put_back(handle, held);
    status
}

/// Writes the message that is kept to `out`, and how many bytes it has to `needed`.
///
/// `DONE`; `SHORT` where `out` is too short, and `needed` is written and `out` as before; `ARGUMENT` where the handle has no replica. But for
/// `DONE`, `out` is as before, and but for `DONE` and `SHORT`, `needed`.
#[unsafe(no_mangle)]
pub extern "C" fn mst_proved_replica_message(
    alloc: Global,
    handle: &mut MstReplica,
    out: &mut [u8],
    needed: &mut usize,
) -> u32
    ensures done { result ≡ 0 → Has handle.old.held (λ h. IsOutput out.old out.new needed.new h.message.items) }
    ensures short { result ≡ 3 → Has handle.old.held (λ h. IsShort out.old needed.new h.message.items) }
    ensures replica { handle.new.held ≡ handle.old.held }
    ensures unchanged { result ≢ 0 → out.new ≡ out.old }
    ensures refused { result ≢ 0 → result ≢ 3 → needed.new ≡ needed.old }
    ensures argument { (result ≡ 4) ↔ (handle.old.held ≡ None) }
    ensures status { (result ≡ 0) ⊎ (result ≡ 3) ⊎ (result ≡ 4) }
{
    let Some(held) = take_out(alloc, handle) else {
        return ARGUMENT;
    };
    let status = put_bytes(held.message.as_slice(), out, needed);
    put_back(handle, held);
    status
}

/// Begins a catch-up in place of any that is under way, keeps its first message, and writes how many bytes it has.
///
/// `DONE`; `MEMORY`; `ARGUMENT` where the handle has no replica. Refused, all is as before.
#[unsafe(no_mangle)]
pub extern "C" fn mst_proved_replica_ask(
    alloc: Global,
    handle: &mut MstReplica,
    len: &mut usize,
) -> u32
    ensures begun { result ≡ 0 → Changes handle.old.held handle.new.held HasBegun }
    ensures len { result ≡ 0 → Has handle.new.held (λ h. len.new ≡ length h.message.items) }
    ensures unchanged { result ≢ 0 → handle.new.held ≡ handle.old.held }
    ensures refused { result ≢ 0 → len.new ≡ len.old }
    ensures argument { (result ≡ 4) ↔ (handle.old.held ≡ None) }
    ensures status { (result ≡ 0) ⊎ (result ≡ 1) ⊎ (result ≡ 4) }
{
    let Some(mut held) = take_out(alloc, handle) else {
        return ARGUMENT;
    };
    let begun = held.ask(alloc);
    let message_len = held.message.len();
    put_back(handle, held);
    match begun {
        Ok(()) => {
            *len = message_len;
            DONE
        }
        Err(_) => MEMORY,
    }
}

/// Gives a reply to the catch-up that is under way. It asks on by the message that is then kept, whose length is written; or it is over, the rows that
/// came are joined, the length is 0, and how many they are is written.
///
/// `DONE`; `MEMORY`, and then so many of the rows that came are joined as is written, in the order of their keys, or none; `MALFORMED` where the reply isn't
/// one to what was asked; `REFUSED` where the peer refused; `ABSENT` where no catch-up is under way; `ARGUMENT` where the handle has no replica. For
/// `MEMORY`, `MALFORMED` and `REFUSED` the catch-up is over, and no message is kept. But for `DONE`, `len` is as before, and but for `DONE` and
/// `MEMORY`, `joined`.
#[unsafe(no_mangle)]
pub extern "C" fn mst_proved_replica_take(
    alloc: Global,
    handle: &mut MstReplica,
    reply: &[u8],
    len: &mut usize,
    joined: &mut usize,
) -> u32
    ensures asks { result ≡ 0 → len.new ≢ 0 → Changes handle.old.held handle.new.held (AsksOn reply.now joined.new) }
    ensures joined { result ≡ 0 → len.new ≡ 0 → Changes handle.old.held handle.new.held (JoinsWhatCame reply.now joined.new) }
    ensures cut { result ≡ 1 → Changes handle.old.held handle.new.held (IsCutOff reply.now joined.new) }
    ensures not_joined { result ≢ 0 → result ≢ 1 → joined.new ≡ joined.old }
    ensures len { TellsNumber (result ≡ 0) (result ≢ 0) handle.new.held (λ h. length h.message.items) len.old len.new }
    ensures ended { (result ≡ 2) ⊎ (result ≡ 7) → Changes handle.old.held handle.new.held (IsGivenUp reply.now result) }
    ensures refused { RefusesWhere IsIdle result handle.old.held handle.new.held }
    ensures status { (result ≡ 0) ⊎ (result ≡ 1) ⊎ (result ≡ 2) ⊎ (result ≡ 4) ⊎ (result ≡ 5) ⊎ (result ≡ 7) }
{
    let Some(mut held) = take_out(alloc, handle) else {
        return ARGUMENT;
    };
    let taken = held.take(alloc, reply);
    let message_len = held.message.len();
    put_back(handle, held);
    match taken {
        None => ABSENT,
        Some(Taken::Asks) => {
            *len = message_len;
            *joined = 0;
            DONE
        }
        Some(Taken::Joined(count)) => {
            *len = message_len;
            *joined = count;
            DONE
        }
        Some(Taken::Cut(count)) => {
            *joined = count;
            MEMORY
        }
        Some(Taken::Failed(status)) => {
            if status == MEMORY {
                *joined = 0;
            }
            status
        }
    }
}
