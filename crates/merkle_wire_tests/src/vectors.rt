//! The sessions of docs/WIRE.md, byte by byte. tests/wire_reader reads the same bytes in the document.
use crate::hex::bytes_of;
use crate::wide::Wide;
use merkle_bytes::Decode;
use merkle_digest::{HashBytes, SipHasher};
use merkle_replica::{Join, Replica};
use merkle_search_tree::builder::Builder;
use merkle_wire::{CatchingUp, MOST_BYTES, Next, answer_within};
use std::alloc::{AllocError, Global};
use std::num::NonZeroU8;
use std::test::Fail;

/// The first session: the values are numbers, so rows come in place of digests. The messages and their replies, in turn, in hex.
const ROWS: [(&str, &str); 4] = [
    (
        "01010201100103616e7410712257a29a4167c48995447a3781179c",
        "018105012ca91787345828c627d1eecdebeb0ccb",
    ),
    (
        "010210010000",
        "018202aba30ec4cb2cce892e31b271fdb4a3b9010403646f6701edca394290766272a46eee24b011ea8f00",
    ),
    ("010310010000", "018300010403646f6705"),
    (
        "0102200100010403646f67",
        "018200040403616e740113626565021363617403226f7706",
    ),
];

/// The second session: the values have 32 bytes, so their digests come first. The messages and their replies, in turn, in hex.
const DIGESTS: [(&str, &str); 5] = [
    (
        "01010201100103616e7410712257a29a4167c48995447a3781179c",
        "018103018261e8a765db97b330df161b55c1c680",
    ),
    (
        "010210010000",
        "018202951700555ac42b0ace0648667d1f185d010403646f6701793bc2490ed0b3f14ce402acf124111a00",
    ),
    (
        "010310010000",
        "018301010403646f67c49fb67440ea29016d80b62ea84e131d",
    ),
    (
        "0102200100010403646f67",
        "018201020403616e7413636f774415f5b7fdb8b144002bc6c583e2f2d3e87458d53e8c29e8b2f803492cfb6236",
    ),
    (
        "0104020403646f6713636f77",
        "01840120050505050505050505050505050505050505050505050505050505050505050501200606060606060606060606060606060606060606060606060606060606060606",
    ),
];

/// The third session: the asking side has no row, and a reply ends at 20 bytes. The messages and their replies, in turn, in hex.
const PARTS: [(&str, &str); 3] = [
    ("010102011000", "018105012ca91787345828c627d1eecdebeb0ccb"),
    (
        "0105010000",
        "0185040403616e740113626565021363617403226f770600",
    ),
    ("010501010403636f7700", "01850113646f670501"),
];

/// A replica with level base 2, whose keys are texts.
type Animals<V> = Replica<String, V, SipHasher, 16>;

/// A replica with level base 2 and these rows.
fn animals<V: Join + HashBytes + Copy + Drop>(
    alloc: Global,
    rows: &[(&str, V)],
) -> Result<Animals<V>, AllocError> {
    let base = NonZeroU8::new(2).ok_or(AllocError)?;
    let mut replica = Replica::new(alloc, Builder::default().with_level_base(base));
    for row in rows {
        replica.put(String::from_str(alloc, row.0)?, row.1)?;
    }
    Ok(replica)
}

/// Whether bytes are these, in hex.
fn is_hex(alloc: Global, bytes: &[u8], hex: &str) -> Result<bool, Fail> {
    let wanted = bytes_of(alloc, hex)?;
    Ok(*bytes == *wanted.as_slice())
}

/// The reply of a peer to a message, or none where one of them is another than in this step.
fn reply_of<V: Join + HashBytes + Decode + Copy>(
    alloc: Global,
    peer: &mut Animals<V>,
    message: &[u8],
    most_bytes: usize,
    step: &(&str, &str),
) -> Result<Option<Vec<u8>>, Fail> {
    let reply = answer_within(alloc, peer, message, most_bytes)?;
    if is_hex(alloc, message, step.0)? && is_hex(alloc, &reply, step.1)? {
        return Ok(Some(reply));
    }
    Ok(None)
}

/// Whether a session has these messages and replies, where a reply ends at this many bytes, and brings these rows in the end.
fn plays<V: Join + HashBytes + Decode + Copy>(
    alloc: Global,
    sides: (Animals<V>, Animals<V>),
    most_bytes: usize,
    steps: &[(&str, &str)],
    brings: &[(&str, V)],
) -> Result<bool, Fail> {
    let (mut local, mut peer) = sides;
    play(alloc, &mut local, &mut peer, most_bytes, steps, brings)
}

/// The same of two sides at hand.
fn play<V: Join + HashBytes + Decode + Copy>(
    alloc: Global,
    local: &mut Animals<V>,
    peer: &mut Animals<V>,
    most_bytes: usize,
    steps: &[(&str, &str)],
    brings: &[(&str, V)],
) -> Result<bool, Fail> {
    let (session, message) = CatchingUp::begin(alloc, local)?;
    let mut session = session;
    let mut message = message;
    for step in steps {
        let Some(reply) = reply_of(alloc, peer, &message, most_bytes, step)? else {
            return Ok(false);
        };
        match session.take(local, &reply)? {
            Next::Ask(next, ask) => {
                session = next;
                message = ask;
            }
            Next::Came(rows) => return Ok(are(&rows, brings)),
        }
    }
    Ok(false)
}

/// Whether rows are these.
fn are<V: Eq>(rows: &[(String, V)], wanted: &[(&str, V)]) -> bool {
    let mut are_same = rows.len() == wanted.len();
    for (row, other) in rows.iter().zip(wanted) {
        are_same = are_same && row.0.as_str() == other.0 && row.1 == other.1;
    }
    are_same
}

/// The rows of the peer in the first session and the third.
const THEIRS: [(&str, u64); 5] = [("ant", 1), ("bee", 2), ("cat", 3), ("cow", 6), ("dog", 5)];

#[test]
fn rows_in_place_of_digests(rt: HostRuntime) -> Result<(), Fail> {
    let alloc = rt.alloc();
    let own = [("ant", 1), ("bee", 2), ("cat", 3), ("dog", 4)];
    let sides = (animals::<u64>(alloc, &own)?, animals(alloc, &THEIRS)?);
    let brings = [("cow", 6), ("dog", 5)];
    assert!(rt; plays(alloc, sides, MOST_BYTES, &ROWS, &brings)?);
    Ok(())
}

#[test]
fn digests_of_long_values(rt: HostRuntime) -> Result<(), Fail> {
    let alloc = rt.alloc();
    let own = [("ant", Wide::of(1)), ("dog", Wide::of(4))];
    let theirs = [
        ("ant", Wide::of(1)),
        ("cow", Wide::of(6)),
        ("dog", Wide::of(5)),
    ];
    let sides = (animals(alloc, &own)?, animals(alloc, &theirs)?);
    let brings = [("cow", Wide::of(6)), ("dog", Wide::of(5))];
    assert!(rt; plays(alloc, sides, MOST_BYTES, &DIGESTS, &brings)?);
    Ok(())
}

#[test]
fn all_rows_in_parts(rt: HostRuntime) -> Result<(), Fail> {
    let alloc = rt.alloc();
    let sides = (animals::<u64>(alloc, &[])?, animals(alloc, &THEIRS)?);
    assert!(rt; plays(alloc, sides, 20, &PARTS, &THEIRS)?);
    Ok(())
}
