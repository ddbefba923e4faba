//! The session by deltas of docs/WIRE.md, byte by byte. tests/wire_reader reads the same bytes in the document.
use crate::playing::{Session, Step, answer};
use crate::rows::Rows;
use merkle_search_tree::builder::Builder;
use std::alloc::{AllocError, Global};
use std::test::Fail;

/// The keys of both sides.
const ANIMALS: [&str; 17] = [
    "ant", "bat", "bee", "cat", "cow", "dog", "eel", "elk", "emu", "gnu", "hen", "jay", "owl",
    "pig", "ram", "rat", "yak",
];

/// The first message, which tells the settings.
const ROOT: [u8; 27] = [
    0x01, 0x01, 0x10, 0x01, 0x10, 0x01, 0x03, 0x61, 0x6e, 0x74, 0x10, 0x71, 0x22, 0x57, 0xa2, 0x9a,
    0x41, 0x67, 0xc4, 0x89, 0x95, 0x44, 0x7a, 0x37, 0x81, 0x17, 0x9c,
];

/// The second one, which tells checksums.
const CHECKSUMS: [u8; 17] = [
    0x01, 0x06, 0x02, 0xe4, 0xcf, 0xb9, 0x5f, 0xde, 0xfd, 0xa7, 0x6c, 0x01, 0x02, 0x10, 0x01, 0x00,
    0x00,
];

/// The reply to it, a delta.
const DELTA: [u8; 73] = [
    0x01, 0x86, 0xae, 0xe5, 0x95, 0x27, 0x5f, 0x1a, 0xa2, 0x41, 0x46, 0xc6, 0x64, 0x00, 0xb3, 0xef,
    0xf5, 0x72, 0x00, 0x33, 0x01, 0x82, 0x00, 0x11, 0x04, 0x03, 0x61, 0x6e, 0x74, 0x01, 0x13, 0x62,
    0x61, 0x74, 0x02, 0x22, 0x65, 0x65, 0x03, 0x13, 0x63, 0x61, 0x74, 0x04, 0x22, 0x6f, 0x77, 0x5a,
    0x13, 0x64, 0x6f, 0x67, 0x06, 0x13, 0x65, 0x65, 0x6c, 0x07, 0x22, 0x6c, 0x6b, 0x08, 0x22, 0x6d,
    0x75, 0x09, 0x13, 0x67, 0x6e, 0x75, 0x0a, 0x01, 0x01,
];

/// A replica in which each animal has its place as its value, counted from 1, but for the cow, which has this.
fn animals(alloc: Global, value: u64) -> Result<Rows, AllocError> {
    let mut rows = Rows::new(alloc, Builder::default());
    for (place, name) in ANIMALS.iter().enumerate() {
        let own = (place as u64).saturating_add(1);
        rows.put(
            String::from_str(alloc, name)?,
            if *name == "cow" { value } else { own },
        )?;
    }
    Ok(rows)
}

/// The session with its message and the peer's reply to that.
type Exchange = (Session, Vec<u8>, Vec<u8>);

/// The exchange after a message and its reply.
fn next_exchange(
    alloc: Global,
    exchange: Exchange,
    local: &mut Rows,
    peer: &mut Rows,
) -> Result<Exchange, Fail> {
    let (session, _, reply) = exchange;
    let Step::Ask(session, message) = session.hear(alloc, local, reply)? else {
        return Err(Fail::new("rows"));
    };
    let reply = answer(alloc, peer, &message)?;
    Ok((session, message, reply))
}

/// The first exchange.
fn first_exchange(alloc: Global, local: &Rows, peer: &mut Rows) -> Result<Exchange, Fail> {
    let (session, message) = Session::begin(alloc, local)?;
    let reply = answer(alloc, peer, &message)?;
    Ok((session, message, reply))
}

#[test]
fn the_session_has_the_bytes_of_the_document(rt: HostRuntime) -> Result<(), Fail> {
    let mut local = animals(rt.alloc(), 5)?;
    let mut peer = animals(rt.alloc(), 90)?;
    let first = first_exchange(rt.alloc(), &local, &mut peer)?;
    assert!(rt; first.1.as_slice() == ROOT.as_slice());
    let second = next_exchange(rt.alloc(), first, &mut local, &mut peer)?;
    assert!(rt; second.1.as_slice() == CHECKSUMS.as_slice());
    assert!(rt; second.2.as_slice() == DELTA.as_slice());
    Ok(())
}
