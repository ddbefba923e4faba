//! A sync between two machines: the three steps of a pull, with bytes between them. That such steps are a pull is the law
//! [`messages_are_a_pull`].
//!
//! What is sent is a list, by the encodings of `merkle_bytes`: of page ranges, of ranges of names, or of rows. Nothing that came is
//! trusted.
ghost use Rattle.std.specs.Prelude.{◌≡◌, ◌⊎◌, IfOk, OnOk, OnErr, Err};
ghost use Rattle.merkle_tree_theory.specs.State.{SameSettings};
ghost use Rattle.merkle_replica.specs.Contents.{side};
ghost use Rattle.examples.specs.PullMessages.{SpellsPages, SendsPageRanges, AsksByMessage, SendsRows, JoinsSpelledRows, StopsJoining, HasPulledByMessages, StopsPullByMessages, MessagesAreAPull, MessagesArePartOfAPull};
ghost use Rattle.examples.specs.Wire.{AreNoPageRanges, AreNoRanges, AreNoRows, AreUnorderedRanges, AreUnorderedRows};
ghost use Rattle.examples.specs.declared.wire.WireFault.TheVariants.{Malformed};

pub use crate::lists::rows_to_come;
use crate::lists::{
    read_page_ranges, read_ranges, read_rows, write_page_ranges, write_ranges, write_rows,
};
use crate::store::Store;
use merkle_bytes::ReadError;
use merkle_digest::SipHasher;
use merkle_replica::JoinRefused;
use merkle_replica::laws::{a_replica_has_the_tree_of_its_rows, steps_are_a_pull};
use std::alloc::{AllocError, Global};

/// Why what came was not taken.
#[derive(Clone, Copy, Debug, PartialEq, Eq)]
pub enum WireFault {
    /// Out of memory.
    Memory,
    /// The bytes are no such list, or one of ranges or rows that don't ascend.
    Malformed,
}

impl From<AllocError> for WireFault {
    ghost use Rattle.examples.specs.declared.wire.WireFault.TheVariants.{Memory};

    ghost from_gives = { λ _ fault. fault ≡ Memory };

    fn from(_error: AllocError) -> Self {
        WireFault::Memory
    }
}

impl From<ReadError> for WireFault {
    ghost use Rattle.examples.specs.Wire.{wire_fault_of};

    ghost from_gives = { λ error fault. fault ≡ wire_fault_of error };

    fn from(error: ReadError) -> Self {
        match error {
            ReadError::Memory => WireFault::Memory,
            ReadError::Unexpected { .. } => WireFault::Malformed,
        }
    }
}

/// What the peer sends first: its page ranges, each as its first name, its last name and its digest.
///
/// # Errors
///
/// Out of memory.
pub fn send_page_ranges(alloc: Global, store: &mut Store<u64>) -> Result<Vec<u8>, AllocError>
    ensures sent { IfOk result (λ bytes. SpellsPages store.new.tree bytes.items) }
    ensures message { IfOk result (λ bytes. SendsPageRanges (side store.old) bytes.items) }
    ensures rows { store.new.rows ≡ store.old.rows }
    ensures settings { SameSettings store.old.tree store.new.tree }
{
    store.hash();
    a_replica_has_the_tree_of_its_rows(store);
    match store.tree().serialise_page_ranges()? {
        Some(ranges) => write_page_ranges(alloc, &ranges),
        None => unreachable!(),
    }
}

/// What the local side answers to the page ranges that came: the ranges of names that it asks for, each as its first and its last name.
///
/// # Errors
///
/// Bytes that are no page ranges, or out of memory. The rows stay.
pub fn ask(alloc: Global, store: &mut Store<u64>, page_ranges: &[u8]) -> Result<Vec<u8>, WireFault>
    ensures asked { IfOk result (λ bytes. AsksByMessage (side store.old) page_ranges.now bytes.items) }
    ensures malformed { result ≡ Err Malformed → AreNoPageRanges page_ranges.now }
    ensures rows { store.new.rows ≡ store.old.rows }
    ensures settings { SameSettings store.old.tree store.new.tree }
{
    let theirs = read_page_ranges(alloc, page_ranges)?;
    let asked = store.ranges_to_ask_of(&theirs)?;
    let bytes = write_ranges(alloc, &asked)?;
    Ok(bytes)
}

/// What the peer sends then: its rows in the ranges that came, each as its name and its number.
///
/// # Errors
///
/// Bytes that are no ranges which ascend, or out of memory.
pub fn send_rows(alloc: Global, store: &Store<u64>, asked: &[u8]) -> Result<Vec<u8>, WireFault>
    ensures sent { IfOk result (λ bytes. SendsRows (side store.now) asked.now bytes.items) }

    // The bytes spell no ranges, or some that don't ascend.
    ensures malformed { result ≡ Err Malformed → AreNoRanges asked.now ⊎ AreUnorderedRanges asked.now }
{
    let ranges = read_ranges(alloc, asked)?;
    let Some(found) = store.rows_within(&ranges) else {
        return Err(WireFault::Malformed);
    };
    let rows: Vec<&(String, u64)> = found.collect(alloc)?;
    let bytes = write_rows(alloc, &rows)?;
    Ok(bytes)
}

/// Joins the rows that came. Whatever the bytes are, the store then holds what it held or the join of that with rows that came, so that
/// no name is lost and no number gets smaller.
///
/// # Errors
///
/// Bytes that are no rows which ascend, which leave the store as it was, or out of memory: no row was joined then or the first of
/// those that came.
pub fn join(alloc: Global, store: &mut Store<u64>, rows: &[u8]) -> Result<(), WireFault>
    ensures joined { OnOk result (JoinsSpelledRows (side store.old) rows.now store.new.rows) }

    // The bytes spell no rows, or some that don't ascend.
    ensures malformed { result ≡ Err Malformed → AreNoRows rows.now ⊎ AreUnorderedRows rows.now }

    ensures unchanged { result ≡ Err Malformed → store.new ≡ store.old }
    ensures refused { OnErr result (StopsJoining (side store.old) rows.now store.new.rows) }
    ensures settings { SameSettings store.old.tree store.new.tree }
{
    let came = read_rows(alloc, rows)?;
    match store.join_rows(came) {
        Ok(()) => Ok(()),
        Err(JoinRefused::NotAscending(_)) => Err(WireFault::Malformed),
        Err(JoinRefused::Memory(_)) => Err(WireFault::Memory),
    }
}

/// The four messages are a pull, on whatever machines they are sent and read: where one side's are of the peer as it was, and the other's of
/// the local side as it was. So coverage and convergence hold of syncs over bytes as of pulls.
pub fn messages_are_a_pull()
    ensures pull { MessagesAreAPull }

    // Where the first rows were joined, they are a part of one.
    ensures part { MessagesArePartOfAPull }
{
    steps_are_a_pull::<String, u64, SipHasher, 16>();
}

/// A sync of two stores that are both at hand, over bytes all the same: a pull.
///
/// # Errors
///
/// Those of the four steps: no row was joined, or the first in key order of those that a pull joins, and not all.
pub fn pull_over_bytes(
    alloc: Global,
    local: &mut Store<u64>,
    peer: &mut Store<u64>,
) -> Result<(), WireFault>
    ensures pulled { OnOk result (HasPulledByMessages (side local.old) (side peer.old) local.new.rows) }
    ensures refused { OnErr result (StopsPullByMessages (side local.old) (side peer.old) local.new.rows) }
    ensures peer_rows { peer.new.rows ≡ peer.old.rows }
    ensures settings { SameSettings local.old.tree local.new.tree }
    ensures peer_settings { SameSettings peer.old.tree peer.new.tree }
{
    messages_are_a_pull();
    let _ = peer.rows();
    let page_ranges = send_page_ranges(alloc, peer)?;
    let asked = ask(alloc, local, &page_ranges)?;
    let rows = send_rows(alloc, peer, &asked)?;
    join(alloc, local, &rows)
}
