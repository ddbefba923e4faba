//! The times of catch-ups and of pulls between replicas that differ in few rows, and what each takes over a wire.

use crate::clock::{Best, Each, now};
use crate::fault::Fault;
use crate::keys::{LOCAL_SEED, keys};
use crate::replicas::{Numbers, replica_of};
use crate::sessions::{Cost, cost_of};
use std::alloc::Global;
use std::rt::Clock;

/// The names of the columns of times, which are in microseconds.
pub const NAMES: &str =
    "rows differing way catch_up_us session_us delta_us pull_us rounds bytes delta_bytes fetched joined pull_bytes pulled";

/// The names of the columns of sessions.
pub const SESSION_NAMES: &str =
    "rows differing way messages rounds sent came delta_messages delta_sent delta_came fetched";

/// The bytes of a key of 17 bytes after its length, of a value below 128, and of a digest after its length.
const KEY: usize = 18;

const VALUE: usize = 1;

const DIGEST: usize = 17;

/// How many of this many rows differ in the lines of the table: none, 1, 10, 100, a hundredth, a tenth, and all.
fn differing_of(alloc: Global, count: usize) -> Result<Vec<usize>, Fault> {
    let mut differing = Vec::new(alloc);
    for many in [0, 1, 10, 100, count / 100, count / 10, count] {
        if many <= count {
            differing.push(many)?;
        }
    }
    differing.sort_unstable();
    differing.dedup();
    Ok(differing)
}

/// The replica of these keys with the value 2, hashed, but at each of the places the value `lower`, or no row where that is 0.
fn replica(
    alloc: Global,
    sorted: &[String],
    places: &[usize],
    lower: u64,
) -> Result<Numbers, Fault> {
    let mut rows = Vec::new(alloc);
    let mut next = 0;
    for (place, key) in sorted.iter().enumerate() {
        let mut value = 2;
        if places.get(next) == Some(&place) {
            next = next.saturating_add(1);
            value = lower;
        }
        if value > 0 {
            rows.push((key.clone()?, value))?;
        }
    }
    let mut replica = replica_of(alloc, rows)?;
    replica.hash();
    Ok(replica)
}

/// This many random places below a bound, or all of them, each once and in ascending order.
fn places(alloc: Global, many: usize, bound: usize) -> Result<Vec<usize>, Fault> {
    let mut places = Vec::new(alloc);
    if many == bound {
        for place in 0..bound {
            places.push(place)?;
        }
        return Ok(places);
    }
    let mut state = 7u64;
    for _ in 0..many {
        state = state
            .wrapping_mul(6_364_136_223_846_793_005)
            .wrapping_add(1_442_695_040_888_963_407);
        let place = (state >> 33).checked_rem(bound as u64).unwrap_or(0);
        places.push(place as usize)?;
    }
    places.sort_unstable();
    places.dedup();
    Ok(places)
}

/// The keys of a line of the table, and at which of their places rows differ: by a lower value, or are missing where that is 0.
#[derive(Clone, Copy)]
struct Case<'a> {
    sorted: &'a [String],
    places: &'a [usize],
    lower: u64,
}

impl Case<'_> {
    /// The replica with the differences.
    fn asking(&self, alloc: Global) -> Result<Numbers, Fault> {
        replica(alloc, self.sorted, self.places, self.lower)
    }

    /// The replica that it catches up with.
    fn asked(&self, alloc: Global) -> Result<Numbers, Fault> {
        replica(alloc, self.sorted, &[], self.lower)
    }

    /// The name of the way in which rows differ.
    fn way(&self) -> &'static str {
        if self.lower == 0 {
            "missing"
        } else {
            "changed"
        }
    }
}

/// How many bytes the list of the peer's page ranges has, and the rows in the ranges that a pull asks for.
fn bytes_of_pull(peer: &Numbers, pulled: usize) -> Result<usize, Fault> {
    let mut pages = 0usize;
    if let Some(ranges) = peer.tree().page_range_iter()? {
        for _ in ranges {
            pages = pages.saturating_add(1);
        }
    }
    let list = pages.saturating_mul(2 * KEY + DIGEST);
    Ok(list.saturating_add(pulled.saturating_mul(KEY + VALUE)))
}

/// Times a session, both sides of it, which joins nothing, and returns what it takes over a wire.
fn time_session<R: Clock>(
    rt: &R,
    alloc: Global,
    local: &mut Numbers,
    peer: &mut Numbers,
    by_deltas: bool,
    best: &mut Best,
) -> Result<Cost, Fault> {
    let start = now(rt)?;
    let cost = cost_of(alloc, local, peer, by_deltas);
    best.note_since(rt, start)?;
    cost
}

/// The best time of four sessions, and what the last took over a wire.
fn sessions<R: Clock>(
    rt: &R,
    alloc: Global,
    case: Case<'_>,
    peer: &mut Numbers,
    by_deltas: bool,
) -> Result<(Best, Cost), Fault> {
    let mut local = case.asking(alloc)?;
    let mut best = Best::new();
    let mut cost = time_session(rt, alloc, &mut local, peer, by_deltas, &mut best)?;
    for _ in 0..3 {
        cost = time_session(rt, alloc, &mut local, peer, by_deltas, &mut best)?;
    }
    Ok((best, cost))
}

/// How the rows of a peer are joined.
#[derive(Clone, Copy)]
enum Way {
    /// By a catch-up.
    CatchUp,
    /// By a pull.
    Pull,
}

/// Joins the rows of a peer, and returns how many were joined.
fn join(local: &mut Numbers, peer: &mut Numbers, way: Way) -> Option<usize> {
    match way {
        Way::CatchUp => Some(local.catch_up(peer).ok()?.joined),
        Way::Pull => Some(local.pull(peer).ok()?.joined),
    }
}

/// Times the joining of a peer's rows, and returns how many were joined.
fn time_join<R: Clock>(
    rt: &R,
    local: Numbers,
    peer: &mut Numbers,
    way: Way,
    best: &mut Best,
) -> Result<usize, Fault> {
    let mut local = local;
    let start = now(rt)?;
    let joined = join(&mut local, peer, way);
    best.note_since(rt, start)?;
    joined.ok_or(Fault::Memory)
}

/// The best time of three such joins, and how many rows the last joined.
fn joins<R: Clock>(
    rt: &R,
    alloc: Global,
    case: Case<'_>,
    way: Way,
    peer: &mut Numbers,
) -> Result<(Best, usize), Fault> {
    let (mut best, mut joined) = (Best::new(), 0);
    for _ in 0..3 {
        joined = time_join(rt, case.asking(alloc)?, peer, way, &mut best)?;
    }
    Ok((best, joined))
}

/// What is measured of a case: the best times, what the sessions take over a wire, and the rows and bytes of pulls.
#[derive(Drop)]
struct Measured {
    catch_up: Each,
    session: Each,
    by_deltas: Each,
    pull: Each,
    plain: Cost,
    less: Cost,
    joined: usize,
    pulled: usize,
    pull_bytes: usize,
}

/// Measures a case; times are in microseconds.
fn measure<R: Clock>(rt: &R, alloc: Global, case: Case<'_>) -> Result<Measured, Fault> {
    let mut peer = case.asked(alloc)?;
    let (session, plain) = sessions(rt, alloc, case, &mut peer, false)?;
    let (by_deltas, less) = sessions(rt, alloc, case, &mut peer, true)?;
    let (catch_up, joined) = joins(rt, alloc, case, Way::CatchUp, &mut peer)?;
    let (pull, pulled) = joins(rt, alloc, case, Way::Pull, &mut peer)?;
    let pull_bytes = bytes_of_pull(&peer, pulled)?;
    Ok(Measured {
        catch_up: catch_up.each(1000),
        session: session.each(1000),
        by_deltas: by_deltas.each(1000),
        pull: pull.each(1000),
        plain,
        less,
        joined,
        pulled,
        pull_bytes,
    })
}

/// The line of a case.
fn line(alloc: Global, case: Case<'_>, measured: &Measured) -> Result<String, Fault> {
    let (rows, differing, way) = (case.sorted.len(), case.places.len(), case.way());
    let (catch_up, session) = (&measured.catch_up, &measured.session);
    let (by_deltas, pull) = (&measured.by_deltas, &measured.pull);
    let (rounds, fetched) = (measured.plain.rounds, measured.plain.fetched);
    let (bytes, delta_bytes) = (measured.plain.bytes(), measured.less.bytes());
    let (joined, pull_bytes, pulled) = (measured.joined, measured.pull_bytes, measured.pulled);
    Ok(format!(in alloc;
        "{rows} {differing} {way} {catch_up} {session} {by_deltas} {pull} {rounds} {bytes} {delta_bytes} {fetched} {joined} {pull_bytes} {pulled}"
    )?)
}

/// The line of a case without times: how many messages and rounds a session takes, how many bytes are sent and come, and the same by deltas.
fn session_line(alloc: Global, case: Case<'_>) -> Result<String, Fault> {
    let mut peer = case.asked(alloc)?;
    let mut local = case.asking(alloc)?;
    let plain = cost_of(alloc, &mut local, &mut peer, false)?;
    let less = cost_of(alloc, &mut local, &mut peer, true)?;
    let (rows, differing, way) = (case.sorted.len(), case.places.len(), case.way());
    let (messages, rounds, fetched) = (plain.messages, plain.rounds, plain.fetched);
    let (sent, came) = (plain.sent, plain.came);
    let (delta_messages, delta_sent, delta_came) = (less.messages, less.sent, less.came);
    Ok(format!(in alloc;
        "{rows} {differing} {way} {messages} {rounds} {sent} {came} {delta_messages} {delta_sent} {delta_came} {fetched}"
    )?)
}

/// Adds the lines of as many differing rows of these keys: of changed values, and of missing rows; with times or without.
fn add_cases<R: Clock>(
    rt: &R,
    alloc: Global,
    sorted: &[String],
    differing: usize,
    is_timed: bool,
    lines: &mut Vec<String>,
) -> Result<(), Fault> {
    let places = places(alloc, differing, sorted.len())?;
    let places = places.as_slice();
    for lower in [1, 0] {
        let case = Case {
            sorted,
            places,
            lower,
        };
        let line = if is_timed {
            line(alloc, case, &measure(rt, alloc, case)?)?
        } else {
            session_line(alloc, case)?
        };
        lines.push(line)?;
    }
    Ok(())
}

/// Adds the lines of `count` rows, for each number of rows that differ two; with times or without.
pub fn add_lines<R: Clock>(
    rt: &R,
    alloc: Global,
    count: usize,
    is_timed: bool,
    lines: &mut Vec<String>,
) -> Result<(), Fault> {
    let mut sorted = keys(alloc, LOCAL_SEED, count)?;
    sorted.sort_unstable();
    for differing in differing_of(alloc, count)? {
        add_cases(rt, alloc, &sorted, differing, is_timed, lines)?;
    }
    Ok(())
}
