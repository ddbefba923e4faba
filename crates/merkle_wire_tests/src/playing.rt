//! Sessions between two replicas in memory.
use merkle_bytes::Decode;
use merkle_digest::{HashBytes, Key, SipHasher};
use merkle_replica::{Join, Replica};
use merkle_wire::{CatchingUp, Next, answer_within};
use std::alloc::Global;
use std::test::Fail;

/// A replica whose hasher is the default one.
pub type Rows<K, V> = Replica<K, V, SipHasher, 16>;

/// How many messages a session has here at most. A reply brings a row, a key or a page at least, and the replicas here have few.
const MOST_MESSAGES: usize = 10_000;

/// A session that waits for the reply to a message.
#[derive(Drop)]
struct Waiting<K, V> {
    session: CatchingUp<K, V>,
    message: Vec<u8>,
}

/// A session that begins.
fn begun<K: Key + Decode + HashBytes, V: Join + Decode + HashBytes>(
    alloc: Global,
    local: &Rows<K, V>,
) -> Result<Waiting<K, V>, Fail> {
    let (session, message) = CatchingUp::begin(alloc, local)?;
    Ok(Waiting { session, message })
}

/// The rows that a session brings from the peer, whose replies end at this many bytes.
pub fn rows_lacked<K: Key + Decode + HashBytes, V: Join + Decode + HashBytes>(
    alloc: Global,
    local: &mut Rows<K, V>,
    peer: &mut Rows<K, V>,
    most_bytes: usize,
) -> Result<Vec<(K, V)>, Fail> {
    let mut waiting = begun(alloc, local)?;
    for _ in 0..MOST_MESSAGES {
        let reply = answer_within(alloc, peer, &waiting.message, most_bytes)?;
        match waiting.session.take(local, &reply)? {
            Next::Ask(session, message) => waiting = Waiting { session, message },
            Next::Came(rows) => return Ok(rows),
        }
    }
    Err(Fail::new("no end"))
}
