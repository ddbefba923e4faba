//! The ranges in which a local and a peer list of page ranges differ.
ghost use Rattle.std.specs.Iterator.{IsFiniteIterable};
ghost use Rattle.std.specs.Prelude.{OnErr};
ghost use Rattle.merkle_diff.specs.Answers.{IfFound, ComesOf, FirstsMayAnswer};
ghost use Rattle.merkle_diff.specs.Difference.{IsAnswer, IsByWalk};
ghost use Rattle.merkle_diff.specs.Iterable.{Gives, GivesFirst};
ghost use Rattle.merkle_diff.specs.Lookahead.{CanGoOn};
ghost use Rattle.merkle_diff.specs.Turn.{HeadsMayAnswer, LeavesBoth};

use crate::diff_range::DiffRange;
use crate::lookahead::{Lookahead, drain, look_ahead};
use crate::merge::merged;
use crate::page_range::PageRange;
use crate::reduce::cut_apart;
use crate::walk::{may_answer, walked};
use std::alloc::{AllocError, Global};

/// The ranges of keys that `local` may ask of `peer`, so that its keys become the peer's too: ascending, each with its least and its
/// greatest key, no two of which meet. The page ranges may be any, nested, equal, crossing or unordered.
///
/// ```rust crates/merkle_diff_tests/src/shown.rt
/// let local = [
///     PageRange::new(&1, &4, digest(1)),
///     PageRange::new(&1, &2, digest(2)),
///     PageRange::new(&4, &4, digest(3)),
/// ];
/// let peer = [
///     PageRange::new(&1, &5, digest(4)),
///     PageRange::new(&1, &2, digest(2)),
///     PageRange::new(&5, &5, digest(5)),
/// ];
/// let found = diff(alloc, local, peer)?;
/// assert_eq!(rt; found.len(), 1);
/// assert_eq!(rt; (*found[0].start(), *found[0].end()), (2, 5));
/// ```
///
/// Both are taken to their end, unless memory runs out. It takes one walk over both, and a sort of the ranges that the walk marks,
/// at most one for each page range of the peer. Memory is taken for these and for the page ranges of the peer that are open, at most as
/// many as are nested. [`diff_lists`](crate::diff_lists), [`diff_slices`](crate::diff_slices) and
/// [`diff_snapshots`](crate::diff_snapshots) say what is promised of lists that the caller has at hand. Who hands in an iterator whose
/// contract says what it has left (`YieldsFirstBy`) knows by the lemma `drained` of `merkle_diff::proofs::Snapshots` that this is what
/// was given.
///
/// # Errors
///
/// Out of memory. If the peer has no page range, or its first begins and ends after local's first, or is within it and not equal to it,
/// the result is empty, even if rows differ, and no memory is taken.
pub fn diff<'p, T, U, K>(
    alloc: Global,
    local: T,
    peer: U,
) -> Result<Vec<DiffRange<'p, K>>, AllocError>
where
    K: Ord + 'p,
    T: IntoIterator<Item = PageRange<'p, K>>,
    U: IntoIterator<Item = PageRange<'p, K>>,
    requires local_ends { IsFiniteIterable T.into_iter_gives T.IntoIter.can_next T.IntoIter.remaining local }
    requires peer_ends { IsFiniteIterable U.into_iter_gives U.IntoIter.can_next U.IntoIter.remaining peer }

    // The interval laws, the laws on trees and the exact walk hold of the two lists that were given.
    ensures answer { IfFound result (ComesOf
        (Gives T.into_iter_gives T.IntoIter.next_gives local) (Gives U.into_iter_gives U.IntoIter.next_gives peer) (IsAnswer K.cmp)) }

    // It is refused only where local is empty, or the first entries are such that a range may be answered.
    ensures memory { OnErr result (FirstsMayAnswer K.cmp
        (GivesFirst T.into_iter_gives T.IntoIter.next_gives local) (GivesFirst U.into_iter_gives U.IntoIter.next_gives peer)) }
{
    differences(
        alloc,
        look_ahead(local.into_iter()),
        look_ahead(peer.into_iter()),
    )
}

/// `diff` of what two queues leave.
fn differences<'p, I, J, K>(
    alloc: Global,
    locals: Lookahead<I, PageRange<'p, K>>,
    peers: Lookahead<J, PageRange<'p, K>>,
) -> Result<Vec<DiffRange<'p, K>>, AllocError>
where
    K: Ord + 'p,
    I: Iterator<Item = PageRange<'p, K>>,
    J: Iterator<Item = PageRange<'p, K>>,
    requires locals { CanGoOn I.can_next I.remaining locals }
    requires peers { CanGoOn J.can_next J.remaining peers }
    ensures ok { IfFound result (LeavesBoth I.next_gives J.next_gives locals.entry peers.entry (IsByWalk K.cmp)) }
    ensures err { OnErr result (HeadsMayAnswer K.cmp locals.entry.head peers.entry.head) }
{
    let Some(first) = &peers.head else {
        drain(locals);
        drain(peers);
        return Ok(Vec::new(alloc));
    };
    let outer = first.range();
    if !may_answer(&locals, &outer) {
        drain(locals);
        drain(peers);
        return Ok(Vec::new(alloc));
    }
    let marks = walked(alloc, outer, locals, peers)?;
    let bad = merged(marks.bad);
    let good = merged(marks.good);
    cut_apart(alloc, bad, &good)
}
