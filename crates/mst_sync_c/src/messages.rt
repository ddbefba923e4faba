//! Calls by which two sides talk: the asking side, and the answering side.
ghost use Rattle.std.specs.Prelude.{◌≡◌, ◌≢◌, ◌↔◌, ◌⊎◌, None, length};
ghost use Rattle.c_sides.specs.Calls.{AsksOn, EndsBy, HasBegun, HasBrought, IsAnswered, IsAnsweredWith, IsGivenUp, IsIdle, IsNeeded};
ghost use Rattle.c_sides.specs.Calls.{KeepsOrNeeds, KeepsSide, SameList};
ghost use Rattle.c_rows.specs.Ends.{MeansRefusal, Sends, SendsNothing};
ghost use Rattle.c_values.specs.Output.{IsOutput, IsShort, TellsNumber};
ghost use Rattle.c_values.specs.Handles.{Has, Changes, RefusesNone, RefusesWhere};

use crate::handle::{MstSync, put_back, take_out};
use c_sides::byte_sync::Taken;
use c_sides::status::NEEDS_ROWS;
use c_values::put_bytes;
use c_values::status::{ABSENT, ARGUMENT, DONE, MEMORY};
use std::alloc::Global;

/// Writes the message that is kept to `out`, and how many bytes it has to `needed`.
///
/// `DONE`; `SHORT` where `out` is too short, and `needed` is written and `out` as before; `ARGUMENT` where the handle has no side. But for
/// `DONE`, `out` is as before, and but for `DONE` and `SHORT`, `needed`.
#[unsafe(no_mangle)]
pub extern "C" fn mst_proved_sync_message(
    alloc: Global,
    handle: &mut MstSync,
    out: &mut [u8],
    needed: &mut usize,
) -> u32
    ensures done { result ≡ 0 → Has handle.old.held (λ h. IsOutput out.old out.new needed.new h.message.items) }
    ensures short { result ≡ 3 → Has handle.old.held (λ h. IsShort out.old needed.new h.message.items) }
    ensures side { handle.new.held ≡ handle.old.held }
    ensures unchanged { result ≢ 0 → out.new ≡ out.old }
    ensures refused { result ≢ 0 → result ≢ 3 → needed.new ≡ needed.old }
    ensures argument { (result ≡ 4) ↔ (handle.old.held ≡ None) }
    ensures status { (result ≡ 0) ⊎ (result ≡ 3) ⊎ (result ≡ 4) }
{
    let Some(held) = take_out(alloc, handle) else {
        return ARGUMENT;
    };
    let status = put_bytes(held.message.as_slice(), out, needed);
    put_back(handle, held);
    status
}

/// Writes the list that is kept to `out`, as [`mst_proved_sync_message`] writes the message.
#[unsafe(no_mangle)]
pub extern "C" fn mst_proved_sync_list(
    alloc: Global,
    handle: &mut MstSync,
    out: &mut [u8],
    needed: &mut usize,
) -> u32
    ensures done { result ≡ 0 → Has handle.old.held (λ h. IsOutput out.old out.new needed.new h.list.items) }
    ensures short { result ≡ 3 → Has handle.old.held (λ h. IsShort out.old needed.new h.list.items) }
    ensures side { handle.new.held ≡ handle.old.held }
    ensures unchanged { result ≢ 0 → out.new ≡ out.old }
    ensures refused { result ≢ 0 → result ≢ 3 → needed.new ≡ needed.old }
    ensures argument { (result ≡ 4) ↔ (handle.old.held ≡ None) }
    ensures status { (result ≡ 0) ⊎ (result ≡ 3) ⊎ (result ≡ 4) }
{
    let Some(held) = take_out(alloc, handle) else {
        return ARGUMENT;
    };
    let status = put_bytes(held.list.as_slice(), out, needed);
    put_back(handle, held);
    status
}

/// Begins a catch-up in place of any that is under way, keeps its first message, and writes how many bytes it has.
///
/// `DONE`; `MEMORY`; `ARGUMENT` where the handle has no side. Refused, all is as before.
#[unsafe(no_mangle)]
pub extern "C" fn mst_proved_sync_ask(alloc: Global, handle: &mut MstSync, len: &mut usize) -> u32
    ensures begun { result ≡ 0 → Changes handle.old.held handle.new.held HasBegun }
    ensures len { result ≡ 0 → Has handle.new.held (λ h. len.new ≡ length h.message.items) }
    ensures unchanged { result ≢ 0 → handle.new.held ≡ handle.old.held }
    ensures refused { result ≢ 0 → len.new ≡ len.old }
    ensures argument { (result ≡ 4) ↔ (handle.old.held ≡ None) }
    ensures status { (result ≡ 0) ⊎ (result ≡ 1) ⊎ (result ≡ 4) }
{
    let Some(mut held) = take_out(alloc, handle) else {
        return ARGUMENT;
    };
    let begun = held.ask(alloc);
    let message_len = held.message.len();
    put_back(handle, held);
    match begun {
        Ok(()) => {
            *len = message_len;
            DONE
        }
        Err(_) => MEMORY,
    }
}

/// Gives a reply to the catch-up that is under way. It asks on by the message that is then kept, whose length is written; or it is over, the length is
/// 0, and the rows that came are the list that is then kept, whose length is written.
///
/// `DONE`; `MEMORY`; `MALFORMED` where the reply isn't one to what was asked; `REFUSED` where the peer refused; `ABSENT` where no catch-up is under way;
/// `ARGUMENT` where the handle has no side. For `MEMORY`, `MALFORMED` and `REFUSED` the catch-up is over, no message is kept, and the list is as before.
/// But for `DONE`, `len` and `list_len` are as before.
#[unsafe(no_mangle)]
pub extern "C" fn mst_proved_sync_take(
    alloc: Global,
    handle: &mut MstSync,
    reply: &[u8],
    len: &mut usize,
    list_len: &mut usize,
) -> u32
    ensures asks { result ≡ 0 → len.new ≢ 0 → Changes handle.old.held handle.new.held (AsksOn reply.now) }
    ensures none_yet { result ≡ 0 → len.new ≢ 0 → list_len.new ≡ 0 }
    ensures brought { result ≡ 0 → len.new ≡ 0 → Changes handle.old.held handle.new.held (HasBrought reply.now) }
    ensures len { TellsNumber (result ≡ 0) (result ≢ 0) handle.new.held (λ h. length h.message.items) len.old len.new }
    ensures list_len { TellsNumber ((result ≡ 0) × (len.new ≡ 0)) (result ≢ 0) handle.new.held (λ h. length h.list.items) list_len.old list_len.new }
    ensures ended { (result ≡ 1) ⊎ (result ≡ 2) ⊎ (result ≡ 7) → Changes handle.old.held handle.new.held (IsGivenUp reply.now result) }
    ensures refused { RefusesWhere IsIdle result handle.old.held handle.new.held }
    ensures status { (result ≡ 0) ⊎ (result ≡ 1) ⊎ (result ≡ 2) ⊎ (result ≡ 4) ⊎ (result ≡ 5) ⊎ (result ≡ 7) }
{
    let Some(mut held) = take_out(alloc, handle) else {
        return ARGUMENT;
    };
    let taken = held.take(alloc, reply);
    let message_len = held.message.len();
    let kept_len = held.list.len();
    put_back(handle, held);
    match taken {
        None => ABSENT,
        Some(Taken::Asks) => {
            *len = message_len;
            *list_len = 0;
            DONE
        }
        Some(Taken::Kept) => {
            *len = message_len;
            *list_len = kept_len;
            DONE
        }
        Some(Taken::Lost) => MEMORY,
        Some(Taken::Failed(status)) => status,
    }
}

/// Makes the reply to a question and keeps it as the message, and writes how many bytes it has. Where the reply needs rows, keeps the list of what it
/// needs, and writes how many bytes that has. Where the bytes are no question or the asking side has other settings, the message is the refusal that
/// is to be sent.
///
/// `DONE`; `NEEDS_ROWS`; `MEMORY`; `MALFORMED`; `OTHER_SETTINGS`; `ARGUMENT` where the handle has no side. But for `DONE`, `MALFORMED` and
/// `OTHER_SETTINGS`, the message and `len` are as before, and but for `NEEDS_ROWS`, the list and `list_len`.
#[unsafe(no_mangle)]
pub extern "C" fn mst_proved_sync_answer(
    alloc: Global,
    handle: &mut MstSync,
    question: &[u8],
    len: &mut usize,
    list_len: &mut usize,
) -> u32
    ensures done { result ≡ 0 → Changes handle.old.held handle.new.held (IsAnswered question.now) }
    ensures needs { result ≡ 8 → Has handle.new.held (IsNeeded question.now) }
    ensures refused { result ≢ 4 → Has handle.new.held (λ h. MeansRefusal result question.now h.tree h.message) }
    ensures kept { result ≢ 4 → Changes handle.old.held handle.new.held (KeepsOrNeeds result) }
    ensures len { TellsNumber (Sends result) (SendsNothing result) handle.new.held (λ h. length h.message.items) len.old len.new }
    ensures list_len { TellsNumber (result ≡ 8) (result ≢ 8) handle.new.held (λ h. length h.list.items) list_len.old list_len.new }
    ensures none { RefusesNone result handle.old.held handle.new.held }
    ensures status { (result ≡ 0) ⊎ (result ≡ 1) ⊎ (result ≡ 2) ⊎ (result ≡ 4) ⊎ (result ≡ 6) ⊎ (result ≡ 8) }
{
    let Some(mut held) = take_out(alloc, handle) else {
        return ARGUMENT;
    };
    let status = held.answer(alloc, question);
    let message_len = held.message.len();
    let kept_len = held.list.len();
    put_back(handle, held);
    if status == NEEDS_ROWS {
        *list_len = kept_len;
    } else if status != MEMORY {
        *len = message_len;
    }
    status
}

/// Makes the reply to a question of rows that are handed in as a list of rows in the order of their keys: all that the question asks for where `is_all`
/// isn't 0, else the first of them. It keeps the reply as the message, and writes how many bytes it has. It ends the reply with the entry that brings
/// it to `most_bytes`. Where the bytes are no question or the asking side has other settings, the message is the refusal that is to be sent.
///
/// `DONE`; `NEEDS_ROWS` where more rows are needed; `MEMORY`; `MALFORMED`; `OTHER_SETTINGS`; `ARGUMENT` where the handle has no side, where the rows are no
/// list of rows or don't ascend, or where the question asks how many rows there are. But for `DONE`, `MALFORMED` and `OTHER_SETTINGS`, the message and
/// `len` are as before. The list that is kept stays.
#[unsafe(no_mangle)]
pub extern "C" fn mst_proved_sync_answer_with(
    alloc: Global,
    handle: &mut MstSync,
    question: &[u8],
    rows: &[u8],
    is_all: u8,
    most_bytes: usize,
    len: &mut usize,
) -> u32
    ensures done { result ≡ 0 → Has handle.new.held (IsAnsweredWith question.now rows.now) }
    ensures within { result ≡ 0 → Has handle.new.held (EndsBy most_bytes question.now) }
    ensures refused { handle.old.held ≢ None → Has handle.new.held (λ h. MeansRefusal result question.now h.tree h.message) }
    ensures kept { handle.old.held ≢ None → Changes handle.old.held handle.new.held (KeepsSide result) }
    ensures list { handle.old.held ≢ None → Changes handle.old.held handle.new.held SameList }
    ensures len { TellsNumber (Sends result) (SendsNothing result) handle.new.held (λ h. length h.message.items) len.old len.new }
    ensures none { handle.old.held ≡ None → (result ≡ 4) × (handle.new.held ≡ None) }
    ensures status { (result ≡ 0) ⊎ (result ≡ 1) ⊎ (result ≡ 2) ⊎ (result ≡ 4) ⊎ (result ≡ 6) ⊎ (result ≡ 8) }
{
    let Some(mut held) = take_out(alloc, handle) else {
        return ARGUMENT;
    };
    let status = held.answer_with(alloc, question, rows, is_all != 0, most_bytes);
    let message_len = held.message.len();
    put_back(handle, held);
    if status != MEMORY && status != ARGUMENT && status != NEEDS_ROWS {
        *len = message_len;
    }
    status
}
