//! What is said to a peer, on standard input and output, and of it, on standard error. No file is open while a peer is waited for.
use crate::fault::Failure;
use crate::shared::{SharedSide, SharedTrees};
use merkle_store::counting::Counting;
use merkle_store::fetch_fault::{FetchFault, Untaken};
use merkle_store::fetching::{Fetched, Terms, fetch};
use merkle_store::framing::{MOST_BYTES, Unwatched, Watch, send};
use merkle_store::serving::{Served, serve};
use merkle_store::session_fault::SessionFault;
use merkle_store::traffic::Traffic;
use mst_commands::clock::{latest, now};
use mst_commands::escape::{cut, escape};
use mst_commands::fault::Named;
use mst_commands::news::write_news;
use mst_words::Limits;
use std::alloc::{AllocError, Global};
use std::env;
use std::io::{IsTerminal, Read, Take, Write};
use store_file::table::Entries;

/// How many bytes come between two lines on standard error.
const LINE_BYTES: usize = 16_777_216;

/// Says on standard error, where that is a terminal, how many bytes have come.
#[derive(Drop)]
struct Lines<'a> {
    rt: &'a HostRuntime,
    is_seen: bool,
    came: usize,
    next: usize,
}

impl Watch for Lines<'_> {
    fn came(&mut self, bytes: usize) {
        self.came = self.came.saturating_add(bytes);
        if self.is_seen && self.came >= self.next {
            self.next = self.came.saturating_add(LINE_BYTES);
            let _ = eprintln!(self.rt; "mst: {} bytes have come", self.came);
        }
    }
}

/// Who says how many bytes have come.
fn lines_of(rt: &HostRuntime) -> Lines<'_> {
    Lines {
        rt,
        is_seen: rt.stderr().is_terminal(),
        came: 0,
        next: LINE_BYTES,
    }
}

/// The words for one of something, or for another number of them.
fn words_for(count: usize, one: &'static str, more: &'static str) -> &'static str {
    if count == 1 { one } else { more }
}

/// Says on standard error how many entries came, how many of them were joined, and what that took.
pub fn tell(rt: &HostRuntime, came: usize, new: usize, traffic: &Traffic) -> Result<(), Failure> {
    eprintln!(rt;
        "mst: pulled {came} {}, {new} of them new, in {} {}; {} bytes sent, {} received",
        words_for(came, "entry", "entries"),
        traffic.messages,
        words_for(traffic.messages, "round", "rounds"),
        traffic.sent,
        traffic.came
    )?;
    Ok(())
}

/// Who asks: the address that ssh tells in the environment, or else a peer.
fn peer_of(rt: &HostRuntime) -> Result<String, AllocError> {
    let Ok(connection) = env::var(rt, "SSH_CONNECTION") else {
        return String::from_str(rt.alloc(), "a peer");
    };
    match connection.as_str().split_once(' ') {
        Some((address, _)) => escape(rt.alloc(), address),
        None => escape(rt.alloc(), connection.as_str()),
    }
}

/// Says on standard error whom this side served since then, in milliseconds since 1970, how many entries it told, and what that took.
pub fn tell_served(
    rt: &HostRuntime,
    traffic: &Traffic,
    entries: u64,
    begun: u64,
) -> Result<(), Failure> {
    let millis = now(rt)?.saturating_sub(begun);
    let peer = peer_of(rt)?;
    eprintln!(rt;
        "mst: served {peer}: {entries} {} in {} {} and {millis} ms; {} bytes sent, {} received",
        words_for(entries as usize, "entry", "entries"),
        traffic.messages,
        words_for(traffic.messages, "round", "rounds"),
        traffic.sent,
        traffic.came
    )?;
    Ok(())
}

/// How many bytes a peer may send, unless another number is given: 64 GiB.
const MOST_OF_SESSION: u64 = 68_719_476_736;

/// How many bytes of a peer are read: one more than it may send, so that the end of these isn't that of its messages.
pub fn bytes_read(limits: &Limits) -> u64 {
    limits
        .max_bytes
        .unwrap_or(MOST_OF_SESSION)
        .saturating_add(1)
}

/// Answers a peer until it is this side's turn to ask, or the peer's messages end. The file has to be closed, and is closed then.
pub fn answer<S: SharedTrees, R: Read>(
    rt: &HostRuntime,
    side: &mut Counting<SharedSide<'_, S>>,
    from: &mut Take<R>,
) -> Result<Served, Failure> {
    let served = serve(
        rt.alloc(),
        side,
        MOST_BYTES,
        from,
        &mut rt.stdout(),
        &mut Unwatched,
    );
    if from.limit() == 0 {
        return Err(Failure::TooMany);
    }
    match served {
        Ok(served) => Ok(served),
        Err(SessionFault::Session(fault)) => Err(Failure::from(fault)),
        Err(SessionFault::Side(failure)) => Err(failure),
    }
}

/// What is said of an entry of a peer that isn't taken.
fn told(alloc: Global, entry: &Untaken) -> Result<Named, AllocError> {
    Ok(Named {
        key: cut(alloc, entry.key.as_str())?,
        time: entry.time,
        writer: cut(alloc, entry.writer.as_str())?,
    })
}

/// Why nothing was fetched, with the names of an entry in one line each.
fn failure_of(alloc: Global, fault: FetchFault) -> Failure {
    match fault {
        FetchFault::Ahead(entry) => match told(alloc, &entry) {
            Ok(entry) => Failure::Ahead(entry),
            Err(error) => Failure::from(error),
        },
        FetchFault::TooLong(entry) => match told(alloc, &entry) {
            Ok(entry) => Failure::TooLong(entry),
            Err(error) => Failure::from(error),
        },
        other => Failure::Fetch(other),
    }
}

/// What is taken of a peer, at this time of the clock.
fn terms_of(rt: &HostRuntime, limits: &Limits) -> Result<Terms, Failure> {
    Ok(Terms {
        most_bytes: MOST_BYTES,
        most_entries: limits.max_entries,
        latest: latest(now(rt)?, limits.ahead),
    })
}

/// What a peer has that a side lacks.
fn heard<S: SharedTrees, R: Read>(
    rt: &HostRuntime,
    side: &mut SharedSide<'_, S>,
    limits: &Limits,
    from: &mut Take<R>,
) -> Result<Fetched, Failure> {
    let terms = terms_of(rt, limits)?;
    let mut lines = lines_of(rt);
    let fetched = fetch(rt.alloc(), side, &terms, from, &mut rt.stdout(), &mut lines);
    if from.limit() == 0 {
        return Err(Failure::TooMany);
    }
    match fetched {
        Ok(fetched) => Ok(fetched),
        Err(SessionFault::Session(fault)) => Err(failure_of(rt.alloc(), fault)),
        Err(SessionFault::Side(failure)) => Err(failure),
    }
}

/// What a peer has that a side lacks. Where that fails, the file is closed; else it may be open.
pub fn ask<S: SharedTrees, R: Read>(
    rt: &HostRuntime,
    side: &mut SharedSide<'_, S>,
    limits: &Limits,
    from: &mut Take<R>,
) -> Result<Fetched, Failure> {
    let fetched = heard(rt, side, limits, from);
    if fetched.is_err() {
        let _ = side.close();
    }
    fetched
}

/// Gives the turn to ask to the peer, by a message of no bytes.
pub fn pass_turn(rt: &HostRuntime) -> Result<(), Failure> {
    send(rt.alloc(), &mut rt.stdout(), &[])?;
    Ok(())
}

/// Tells on standard error what a pull would bring, a line for each entry, once memory was found for all lines.
pub fn tell_news(rt: &HostRuntime, entries: &Entries, json: bool) -> Result<(), Failure> {
    let mut lines = Vec::new(rt.alloc());
    write_news(rt.alloc(), &mut lines, entries, json)?;
    rt.stderr().write_all(&lines)?;
    Ok(())
}
