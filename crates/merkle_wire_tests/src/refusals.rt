//! Replies that a peer made up, and what each is refused with. The replica has its rows as before.
use crate::hex::bytes_of;
use crate::sessions::Numbers;
use merkle_bytes::{Expected, ReadError};
use merkle_replica::Replica;
use merkle_search_tree::builder::Builder;
use merkle_wire::{CatchingUp, Next, SessionError};
use std::alloc::Global;
use std::test::Fail;

/// The kind of keys here: a byte, which is written as 01 and the byte.
pub(crate) type Bytes = Numbers<[u8; 1]>;

/// A replica with the keys 1 to 3.
pub(crate) fn three(alloc: Global) -> Result<Bytes, Fail> {
    let mut replica: Bytes = Replica::new(alloc, Builder::default());
    for key in 1..4u8 {
        replica.put([key], 9)?;
    }
    Ok(replica)
}

/// Whether a replica has the keys 1 to 3 with the value 9, and no others.
pub(crate) fn is_as_before(replica: &Bytes) -> bool {
    replica.rows() == [([1u8], 9u64), ([2], 9), ([3], 9)].as_slice()
}

/// What a session comes to.
#[derive(PartialEq, Eq, Drop)]
enum Found {
    /// It asks this.
    Asks(Vec<u8>),
    /// This many rows came.
    Came(usize),
    /// It refused what came.
    Refused(SessionError),
}

/// What a session of a replica comes to by these replies in hex. A refusal that isn't of the last one is a failure of the test.
fn after(alloc: Global, local: &mut Bytes, replies: &[&str]) -> Result<Found, Fail> {
    let (session, message) = CatchingUp::begin(alloc, local)?;
    let mut session = session;
    let mut found = Found::Asks(message);
    for (place, text) in replies.iter().enumerate() {
        let is_last = place.saturating_add(1) == replies.len();
        match session.take(local, &bytes_of(alloc, *text)?) {
            Ok(Next::Ask(next, message)) => {
                session = next;
                found = Found::Asks(message);
            }
            Ok(Next::Came(rows)) if is_last => return Ok(Found::Came(rows.len())),
            Err(error) if is_last => return Ok(Found::Refused(error)),
            _ => return Err(Fail::new("the session ended before its last reply")),
        }
    }
    Ok(found)
}

/// A first reply: a peer with 5 rows, the digest of whose root page is made of 7s. The outline over the gap of all keys is asked for then.
pub const ROOT: &str = "0181 05 01 07070707070707070707070707070707";

/// A first reply by which all rows are asked for: a peer with 16 rows.
const MANY: &str = "0181 10 01 07070707070707070707070707070707";

/// An outline after `ROOT`: a page with the node 8, whose nodes are missing, and no page beside it. Its nodes are asked for then.
const EIGHT: &str = "0182 02 05050505050505050505050505050505 01 02 0108 00 00";

/// The same with a page below 8.
const BELOW: &str =
    "0182 02 05050505050505050505050505050505 01 02 0108 01 06060606060606060606060606060606 00";

/// The nodes after `EIGHT`, as digests: the value at 8 is asked for then.
const DIGEST: &str = "0183 01 01 02 0108 05050505050505050505050505050505";

/// Nodes that are none.
pub const NONE: &str = "0183 00 00";

/// Whether a session refuses the last of these replies in hex for bytes that should have stood after this many others.
fn is_malformed(
    alloc: Global,
    local: &mut Bytes,
    replies: &[&str],
    behind: (usize, Expected),
) -> Result<bool, Fail> {
    let error = SessionError::Malformed(ReadError::Unexpected {
        offset: behind.0,
        expected: behind.1,
    });
    Ok(after(alloc, local, replies)? == Found::Refused(error))
}

/// Invalid replies to the first message, and what should have stood after this many bytes: another version, a kind that there is not, cut
/// messages, a count and a flag out of form, and a byte after the end.
const NO_ROOTS: [(&str, usize, Expected); 8] = [
    ("", 0, Expected::Bytes(2)),
    ("01", 0, Expected::Bytes(2)),
    ("0281 05 00", 0, Expected::Version),
    ("0180 05 00", 0, Expected::Kind),
    ("0181", 2, Expected::Count),
    ("0181 8500 00", 2, Expected::Count),
    ("0181 05 02", 3, Expected::Flag),
    ("0181 05 00 00", 4, Expected::End),
];

/// Replies to the first message that are others than was asked for: a question, an outline, a refusal.
const OTHER_ROOTS: [(&str, SessionError); 3] = [
    ("0101 10 01 10 00", SessionError::OtherKind),
    ("0182 00 00", SessionError::OtherKind),
    ("01ff", SessionError::Refused),
];

#[test]
fn first_replies_that_are_refused(rt: HostRuntime) -> Result<(), Fail> {
    let alloc = rt.alloc();
    let mut local = three(alloc)?;
    for case in &NO_ROOTS {
        let is_so = is_malformed(alloc, &mut local, &[case.0], (case.1, case.2))?;
        assert!(rt; is_so, "{}", case.0);
    }
    for case in &OTHER_ROOTS {
        let found = after(alloc, &mut local, &[case.0])?;
        assert!(rt; found == Found::Refused(case.1), "{}", case.0);
    }
    assert!(rt; is_as_before(&local));
    Ok(())
}

/// Replies where the outline over the gap of all keys was asked for, and what should have stood after this many bytes: an outline of a kind that
/// there is not, promised lengths of 2 ^ 40, keys that keep more than there is, could keep more, or are spelled at length, bytes that are no
/// key, digests that are cut, and an outline more than was asked for.
const NO_OUTLINES: [(&str, usize, Expected); 10] = [
    ("0182 03", 3, Expected::Kind),
    ("0182 00 808080808020 02 0102 01", 13, Expected::Front),
    ("0182 01 808080808020 02 0102", 12, Expected::Front),
    (
        "0182 00 01 f0 00 808080808020 01",
        12,
        Expected::Bytes(1 << 40),
    ),
    ("0182 00 01 22 0102 01", 5, Expected::Front),
    ("0182 00 02 02 0102 01 02 0103 01", 11, Expected::Front),
    ("0182 00 01 f0 00 02 0102 01", 4, Expected::Front),
    ("0182 00 01 03 010203 01", 8, Expected::Key),
    ("0182 01 01 02 0102 05050505", 7, Expected::Bytes(16)),
    ("0182 00 00 00", 4, Expected::End),
];

/// Replies where it was asked for that are refused for what they say: nothing, another kind, a page without a node, and keys that don't ascend, or one twice,
/// in each kind of outline.
const OTHER_OUTLINES: [(&str, SessionError); 9] = [
    ("0182", SessionError::NothingCame),
    ("0181 05 00", SessionError::OtherKind),
    ("0183 00 00", SessionError::OtherKind),
    ("01ff", SessionError::Refused),
    (
        "0182 02 05050505050505050505050505050505 00 00",
        SessionError::NoNode,
    ),
    ("0182 00 02 02 0102 01 11 01 01", SessionError::NotInGap),
    ("0182 00 02 02 0102 01 20 01", SessionError::NotInGap),
    (
        "0182 01 02 02 0102 11 01 0505050505050505050505050505050505050505050505050505050505050505",
        SessionError::NotInGap,
    ),
    (
        "0182 02 05050505050505050505050505050505 02 02 0102 11 01 00 00 00",
        SessionError::NotInGap,
    ),
];

#[test]
fn outlines_that_are_refused(rt: HostRuntime) -> Result<(), Fail> {
    let alloc = rt.alloc();
    let mut local = three(alloc)?;
    for case in &NO_OUTLINES {
        let is_so = is_malformed(alloc, &mut local, &[ROOT, case.0], (case.1, case.2))?;
        assert!(rt; is_so, "{}", case.0);
    }
    for case in &OTHER_OUTLINES {
        let found = after(alloc, &mut local, &[ROOT, case.0])?;
        assert!(rt; found == Found::Refused(case.1), "{}", case.0);
    }
    assert!(rt; is_as_before(&local));
    Ok(())
}

/// Sessions of a lying peer whose last reply is no message that was due, and what should have stood after this many bytes: a page where its nodes alone were
/// asked for, values that are cut, out of form, or more than were asked for, and a flag of rows out of form.
const NO_REPLIES: [(&[&str], usize, Expected); 5] = [
    (
        &[
            ROOT,
            EIGHT,
            "0183 02 05050505050505050505050505050505 01 02 0108 00 00",
        ],
        3,
        Expected::Kind,
    ),
    (&[ROOT, EIGHT, DIGEST, "0184 02"], 2, Expected::Flag),
    (&[ROOT, EIGHT, DIGEST, "0184 01"], 3, Expected::Count),
    (&[ROOT, EIGHT, DIGEST, "0184 00 00"], 3, Expected::End),
    (&[MANY, "0185 01 02 0108 01 02"], 7, Expected::Flag),
];

/// Sessions of a lying peer whose last reply is refused for what it says: an outline in place of nodes, a key outside of the gap that was asked for on
/// either side of it, no value, rows in place of values, a part of which more is said to come and no row did, rows that were told before, and a row
/// that is told among the nodes of a page and among the rows below it.
const OTHER_REPLIES: [(&[&str], SessionError); 9] = [
    (&[ROOT, EIGHT, "0182 00 00"], SessionError::OtherKind),
    (
        &[ROOT, BELOW, NONE, "0182 00 01 02 0108 01"],
        SessionError::NotInGap,
    ),
    (
        &[ROOT, BELOW, NONE, "0182 00 01 02 0109 01"],
        SessionError::NotInGap,
    ),
    (&[ROOT, EIGHT, DIGEST, "0184"], SessionError::NothingCame),
    (
        &[ROOT, EIGHT, DIGEST, "0185 00 01"],
        SessionError::OtherKind,
    ),
    (&[MANY, "0185 00 00"], SessionError::NothingCame),
    (
        &[MANY, "0185 01 02 0108 01 00", "0185 01 20 01 01"],
        SessionError::NotInGap,
    ),
    (
        &[MANY, "0185 01 02 0108 01 00", "0185 01 11 07 01 01"],
        SessionError::NotInGap,
    ),
    (
        &[
            ROOT,
            BELOW,
            "0183 00 02 02 0107 01 11 08 01",
            "0185 01 02 0107 01 01",
        ],
        SessionError::Twice,
    ),
];

#[test]
fn later_replies_that_are_refused(rt: HostRuntime) -> Result<(), Fail> {
    let alloc = rt.alloc();
    let mut local = three(alloc)?;
    for (place, case) in NO_REPLIES.iter().enumerate() {
        let is_so = is_malformed(alloc, &mut local, case.0, (case.1, case.2))?;
        assert!(rt; is_so, "{place}");
    }
    for (place, case) in OTHER_REPLIES.iter().enumerate() {
        let found = after(alloc, &mut local, case.0)?;
        assert!(rt; found == Found::Refused(case.1), "{place}");
    }
    assert!(rt; is_as_before(&local));
    Ok(())
}

/// What a session asks after replies, so that the refusals above are of what they say: rows at the keys that were asked for are
/// told without a key, so a row at another can't be said.
#[test]
fn sessions_that_go_on(rt: HostRuntime) -> Result<(), Fail> {
    let alloc = rt.alloc();
    let mut local = three(alloc)?;
    let cases: [(&[&str], &str); 7] = [
        (&[ROOT], "0102 10 01 00 00"),
        (&[MANY], "0105 01 00 00"),
        (&[ROOT, EIGHT], "0103 10 01 00 00"),
        (&[ROOT, EIGHT, DIGEST], "0104 01 02 0108"),
        (&[ROOT, BELOW, NONE], "0102 10 01 00 01 02 0108"),
        (&[MANY, "0185 01 02 0108 01 00"], "0105 01 01 02 0108 00"),
        (
            &[ROOT, BELOW, "0183 00 02 02 0107 01 11 08 01"],
            "0105 01 00 01 02 0108",
        ),
    ];
    for case in &cases {
        let wanted = Found::Asks(bytes_of(alloc, case.1)?);
        assert!(rt; after(alloc, &mut local, case.0)? == wanted, "{}", case.1);
    }
    assert!(rt; is_as_before(&local));
    Ok(())
}
