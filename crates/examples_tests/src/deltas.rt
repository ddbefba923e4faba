use examples::deltas::{carried, most_told};
use merkle_delta::{Chunks, Deltas, Heard};
use std::alloc::{AllocError, Global};
use std::test::Fail;

/// The second message of a session: it asks for the outline of everything.
const QUESTION: [u8; 6] = [1, 2, 16, 1, 0, 0];

/// How many bytes replies have here.
const BYTES: usize = 400;

/// A reply whose bytes follow no rule that a reader sees, but for one at this place.
fn reply(alloc: Global, changed: usize) -> Result<Vec<u8>, AllocError> {
    let mut bytes = Vec::new(alloc);
    let mut state: u32 = 12_345;
    for place in 0..BYTES {
        state = state.wrapping_mul(1_103_515_245).wrapping_add(12_345);
        let [_, _, byte, _] = state.to_le_bytes();
        bytes.push(if place == changed { byte ^ 1 } else { byte })?;
    }
    Ok(bytes)
}

/// Whether a plain reply is heard as it was told, and passes the audit, with this own one.
fn is_heard(alloc: Global, own: Option<Vec<u8>>, changed: usize) -> Result<bool, Fail> {
    let question = Vec::from_slice(alloc, &QUESTION)?;
    let plain = reply(alloc, changed)?;
    let (heard, is_sure) = carried(alloc, &mut Deltas::new(), own, question, plain)?;
    match heard {
        Heard::Reply(heard) => Ok(is_sure && heard == reply(alloc, changed)?),
        Heard::Again(_) => Ok(false),
    }
}

/// Places at which a reply differs from the own one; none in the last case.
const PLACES: [usize; 4] = [0, 150, 399, 400];

#[test]
fn a_reply_is_heard_as_it_was_told(rt: HostRuntime) -> Result<(), Fail> {
    let alloc = rt.alloc();
    for place in PLACES {
        assert!(rt; is_heard(alloc, None, place)?, "{place}");
        assert!(rt; is_heard(alloc, Some(Vec::new(alloc)), place)?, "{place}");
        assert!(rt;
            is_heard(alloc, Some(reply(alloc, BYTES)?), place)?,
            "{place}"
        );
    }
    Ok(())
}

#[test]
fn a_reply_tells_no_more_than_the_own_one_and_itself(rt: HostRuntime) -> Result<(), Fail> {
    let own = Chunks::cut(rt.alloc(), reply(rt.alloc(), 0)?)?;
    assert!(rt; most_told(&own, &QUESTION) == 406);
    Ok(())
}
