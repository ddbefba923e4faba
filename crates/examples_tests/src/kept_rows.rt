//! Sides that have trees alone, and whose rows are on a shelf, bring rows of one another.
use examples::far_tree::{FarError, FarTree};
use examples::shelf::{Shelf, ShelfError};
use merkle_digest::SipHasher;
use merkle_search_tree::MerkleSearchTree;
use merkle_search_tree::builder::Builder;
use merkle_wire::{CatchingUp, KeptError, MOST_BYTES, Next, TakeError, answer_by};
use std::alloc::Global;
use std::test::Fail;

type Tree = MerkleSearchTree<String, u64, SipHasher, 16>;

/// A row: its key is the text of a number.
type Row = (String, u64);

/// The row of a number.
fn row_of(alloc: Global, number: u64) -> Result<Row, Fail> {
    Ok((format!(in alloc; "{number:06}")?, number % 7))
}

/// Numbers at `0..count`, but for one that is skipped.
fn numbers(alloc: Global, count: u64, skipped: u64) -> Result<Vec<Row>, Fail> {
    let mut rows = Vec::new(alloc);
    for key in 0..count {
        if key != skipped {
            rows.push(row_of(alloc, key)?)?;
        }
    }
    Ok(rows)
}

fn tree_of(alloc: Global, rows: &[Row]) -> Result<Tree, Fail> {
    let mut tree: Tree = Builder::default().build(alloc);
    for row in rows {
        match tree.upsert(row.0.clone()?, &row.1) {
            Ok(()) => {}
            Err(_) => return Err(Fail::new("memory")),
        }
    }
    Ok(tree)
}

fn shelf_of(alloc: Global, rows: &[Row]) -> Result<Shelf<String, u64>, Fail> {
    let mut copies = Vec::new(alloc);
    for row in rows {
        copies.push((row.0.clone()?, row.1))?;
    }
    match Shelf::of(alloc, copies) {
        Some(shelf) => Ok(shelf),
        None => Err(Fail::new("not ascending")),
    }
}

/// The tree and the shelf of a peer with the rows of `0..count`.
fn peer_of(alloc: Global, count: u64) -> Result<(Tree, Shelf<String, u64>), Fail> {
    let all = numbers(alloc, count, count)?;
    Ok((tree_of(alloc, &all)?, shelf_of(alloc, &all)?))
}

/// The peer's reply to a message.
fn reply_of(
    alloc: Global,
    peer: &mut Tree,
    shelf: &Shelf<String, u64>,
    message: &[u8],
) -> Result<Vec<u8>, Fail> {
    match answer_by(alloc, peer, shelf, message, MOST_BYTES) {
        Ok(reply) => Ok(reply),
        Err(_) => Err(Fail::new("no reply")),
    }
}

/// Rows that a side brings from a peer of which one has a tree and a shelf, and the bytes that the peer said.
fn brought(
    alloc: Global,
    tree: &mut Tree,
    count: u64,
    peer: &mut Tree,
    shelf: &Shelf<String, u64>,
) -> Result<(Vec<Row>, usize), Fail> {
    let (mut session, mut message) = CatchingUp::begin_of(alloc, tree)?;
    let mut bytes: usize = 0;
    for _ in 0..1000 {
        let reply = reply_of(alloc, peer, shelf, &message)?;
        bytes = bytes.saturating_add(reply.len());
        match session.take_by(tree, count, &reply)? {
            Next::Ask(next, question) => {
                session = next;
                message = question;
            }
            Next::Came(rows) => return Ok((rows, bytes)),
        }
    }
    Err(Fail::new("no end"))
}

/// The rows that a side that lacks the row of 1234 brings from a peer of 2,000 rows, and the bytes that the peer said.
fn brought_of_one(
    alloc: Global,
    peer: &mut Tree,
    shelf: &Shelf<String, u64>,
) -> Result<(Vec<Row>, usize), Fail> {
    let mut local = tree_of(alloc, &numbers(alloc, 2000, 1234)?)?;
    brought(alloc, &mut local, 1999, peer, shelf)
}

/// Whether the row of 1234 is the only one.
fn is_one(rows: &[Row]) -> bool {
    rows.len() == 1 && rows[0].0.as_str() == "001234"
}

#[test]
fn one_row_of_many_is_brought_by_trees(rt: HostRuntime) -> Result<(), Fail> {
    let (mut peer, shelf) = peer_of(rt.alloc(), 2000)?;
    let (rows, bytes) = brought_of_one(rt.alloc(), &mut peer, &shelf)?;
    assert!(rt; is_one(&rows));
    assert!(rt; bytes < 2000, "{bytes}");
    Ok(())
}

#[test]
fn values_that_are_far_are_told_by_digests(rt: HostRuntime) -> Result<(), Fail> {
    let (mut peer, mut shelf) = peer_of(rt.alloc(), 2000)?;
    shelf.put_away();
    let (rows, bytes) = brought_of_one(rt.alloc(), &mut peer, &shelf)?;
    assert!(rt; is_one(&rows));
    assert!(rt; bytes < 3000, "{bytes}");
    Ok(())
}

#[test]
fn a_closed_shelf_says_so(rt: HostRuntime) -> Result<(), Fail> {
    let alloc = rt.alloc();
    let (mut peer, mut shelf) = peer_of(alloc, 50)?;
    shelf.close();
    let local = tree_of(alloc, &[])?;
    let (_, message) = CatchingUp::<String, u64>::begin_of(alloc, &local)?;
    match answer_by(alloc, &mut peer, &shelf, &message, MOST_BYTES) {
        Err(KeptError::Kept(ShelfError::Closed)) => Ok(()),
        _ => Err(Fail::new("not closed")),
    }
}

#[test]
fn a_row_is_brought_by_a_tree_that_is_far(rt: HostRuntime) -> Result<(), Fail> {
    let alloc = rt.alloc();
    let (mut peer, shelf) = peer_of(alloc, 3)?;
    let mut local = FarTree::of(tree_of(alloc, &[])?);
    let (session, message) = CatchingUp::<String, u64>::begin_by(alloc, &mut local)?;
    let reply = reply_of(alloc, &mut peer, &shelf, &message)?;
    let Next::Ask(session, message) = session.take_by(&mut local, 0, &reply)? else {
        return Err(Fail::new("no question"));
    };
    let reply = reply_of(alloc, &mut peer, &shelf, &message)?;
    let Next::Came(rows) = session.take_by(&mut local, 0, &reply)? else {
        return Err(Fail::new("no rows"));
    };
    assert_eq!(rt; rows.len(), 3);
    Ok(())
}

#[test]
fn a_tree_out_of_reach_says_so(rt: HostRuntime) -> Result<(), Fail> {
    let alloc = rt.alloc();
    let (mut peer, shelf) = peer_of(alloc, 50)?;
    let mut local = FarTree::of(tree_of(alloc, &[])?);
    let (session, message) = CatchingUp::<String, u64>::begin_by(alloc, &mut local)?;
    let reply = reply_of(alloc, &mut peer, &shelf, &message)?;
    local.move_away();
    match session.take_by(&mut local, 0, &reply) {
        Err(TakeError::Tree(FarError::Away)) => {}
        _ => return Err(Fail::new("not away")),
    }
    match CatchingUp::<String, u64>::begin_by(alloc, &mut local) {
        Err(FarError::Away) => Ok(()),
        _ => Err(Fail::new("not away")),
    }
}

#[test]
fn a_side_with_a_tree_that_is_far_answers_within_reach_alone(rt: HostRuntime) -> Result<(), Fail> {
    let alloc = rt.alloc();
    let (mut near, shelf) = peer_of(alloc, 50)?;
    let (tree, _) = peer_of(alloc, 50)?;
    let mut far = FarTree::of(tree);
    let local = tree_of(alloc, &[])?;
    let (_, message) = CatchingUp::<String, u64>::begin_of(alloc, &local)?;
    match answer_by(alloc, &mut far, &shelf, &message, MOST_BYTES) {
        Ok(reply) => assert_eq!(rt; reply, reply_of(alloc, &mut near, &shelf, &message)?),
        Err(_) => return Err(Fail::new("no reply")),
    }
    far.move_away();
    match answer_by(alloc, &mut far, &shelf, &message, MOST_BYTES) {
        Err(KeptError::Kept(FarError::Away)) => Ok(()),
        _ => Err(Fail::new("not away")),
    }
}
