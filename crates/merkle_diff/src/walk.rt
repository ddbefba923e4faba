//! The walk over a peer's and a local list of page ranges, which marks ranges bad and good: a loop over the open ranges, the
//! innermost last.
ghost use Rattle.std.specs.Prelude.{◌≡◌, ◌↔◌, ◌≤◌, ◌∷◌, [], OnOk, IfOk, IsTrue};
ghost use Rattle.key_order.specs.Interval.{is_within};
ghost use Rattle.merkle_diff.specs.Entry.{span_of};
ghost use Rattle.merkle_diff.specs.DiffRange.{span};
ghost use Rattle.merkle_diff.specs.PageRange.{entry};
ghost use Rattle.merkle_diff.specs.Lookahead.{CanGoOn, ComesNearer, items_left};
ghost use Rattle.merkle_diff.specs.Turn.{Leads, LeadsBoth, LeavesBoth, Marked, MarksGapBefore, MarksWalk, MarksWithin};
ghost use Rattle.merkle_diff.specs.Turn.{HasWalked, TakesAgreed, TakesHolders, TakesTurn, gap_end_at, head_is, head_may_answer};
ghost use Rattle.merkle_diff.specs.Walk.{after_within, mark_of};

use crate::diff_range::DiffRange;
use crate::lookahead::{Lookahead, drain, take_head};
use crate::marks::{Marks, mark_gap};
use crate::page_range::PageRange;
use key_order::{is_below, is_upto};
use merkle_digest::PageDigest;
use std::alloc::{AllocError, Global};

/// Whether the head of the queue is within `outer`.
fn head_is_within<'p, I, K>(
    queue: &Lookahead<I, PageRange<'p, K>>,
    outer: &DiffRange<'p, K>,
) -> bool
where
    K: Ord + 'p,
    ensures { result ≡ head_is (λ r. is_within K.cmp (span_of (entry r)) (span outer.now)) queue.now.head }
{
    match &queue.head {
        Some(head) => head.range().is_within(outer),
        None => false,
    }
}

/// Whether the head of the queue holds `inner`.
fn head_holds<'p, I, K>(queue: &Lookahead<I, PageRange<'p, K>>, inner: &DiffRange<'p, K>) -> bool
where
    K: Ord + 'p,
    ensures { result ≡ head_is (λ r. is_within K.cmp (span inner.now) (span_of (entry r))) queue.now.head }
{
    match &queue.head {
        Some(head) => inner.is_within(&head.range()),
        None => false,
    }
}

/// Whether a range may be answered, by local's first entry and the peer's first range.
pub fn may_answer<'p, I, K>(
    locals: &Lookahead<I, PageRange<'p, K>>,
    outer: &DiffRange<'p, K>,
) -> bool
where
    K: Ord + 'p,
    ensures { result ≡ head_may_answer K.cmp locals.now.head (span outer.now) }
{
    match &locals.head {
        Some(head) => head.range().is_within(outer)
            || (is_below(outer.start(), head.start()) && is_below(outer.end(), head.end())),
        None => true,
    }
}

/// Takes the entries at the front that are within `outer`.
fn drop_within<'p, I, K>(queue: &mut Lookahead<I, PageRange<'p, K>>, outer: DiffRange<'p, K>)
where
    K: Ord + 'p,
    I: Iterator<Item = PageRange<'p, K>>,
    requires { CanGoOn I.can_next I.remaining queue.old }
    ensures goes { CanGoOn I.can_next I.remaining queue.new }
    ensures no_more { items_left I.remaining queue.new ≤ items_left I.remaining queue.old }
    ensures leads { Leads I.next_gives queue.old queue.new (λ qs ps. ps ≡ after_within K.cmp (span outer.entry) qs) }
{
    'front: while head_is_within(queue, &outer) {
        let _taken = take_head(queue);
    }
}

/// Takes the entries at the front that are within `outer`, and marks each bad.
fn mark_within<'p, I, K>(
    queue: &mut Lookahead<I, PageRange<'p, K>>,
    outer: DiffRange<'p, K>,
    marks: &mut Marks<'p, K>,
) -> Result<(), AllocError>
where
    K: Ord + 'p,
    I: Iterator<Item = PageRange<'p, K>>,
    requires { CanGoOn I.can_next I.remaining queue.old }
    ensures goes { OnOk result (CanGoOn I.can_next I.remaining queue.new) }
    ensures no_more { OnOk result (items_left I.remaining queue.new ≤ items_left I.remaining queue.old) }
    ensures leads { OnOk result (Leads I.next_gives queue.old queue.new (MarksWithin K.cmp outer.entry marks.old marks.new)) }
{
    'front: while head_is_within(queue, &outer) {
        let Some(taken) = take_head(queue) else {
            return Ok(());
        };
        marks.bad.push(taken.range())?;
    }
    Ok(())
}

/// Takes the entries at the front that hold `range`, and returns the digest of the last, or `first` where there is none.
fn take_holders<'p, I, K>(
    queue: &mut Lookahead<I, PageRange<'p, K>>,
    range: DiffRange<'p, K>,
    first: PageDigest,
) -> PageDigest
where
    K: Ord + 'p,
    I: Iterator<Item = PageRange<'p, K>>,
    requires { CanGoOn I.can_next I.remaining queue.old }
    ensures goes { CanGoOn I.can_next I.remaining queue.new }
    ensures leads { Leads I.next_gives queue.old queue.new (TakesHolders K.cmp (span range.entry) first result) }
{
    let mut last = first;
    'front: while head_holds(queue, &range) {
        let Some(next) = take_head(queue) else {
            break;
        };
        last = next.into_hash();
    }
    last
}

/// Whether two digests are equal.
fn is_same_digest(local: PageDigest, peer: PageDigest) -> bool
    ensures { IsTrue result ↔ (local ≡ peer) }
{
    local == peer
}

/// Where a gap ends: at the lesser of `end` and the start of the next local entry.
fn gap_end<'p, I, K>(end: &'p K, locals: &Lookahead<I, PageRange<'p, K>>) -> &'p K
where
    K: Ord + 'p,
    ensures { result.now ≡ gap_end_at K.cmp end.entry.now locals.entry.now.head }
{
    match &locals.head {
        Some(head) => {
            if is_upto(end, head.start()) {
                end
            } else {
                head.start()
            }
        }
        None => end,
    }
}

/// Marks the gap before `range`, unless the head of the queue holds it.
fn mark_between<'p, I, K>(
    from: &'p K,
    range: DiffRange<'p, K>,
    locals: &Lookahead<I, PageRange<'p, K>>,
    marks: &mut Marks<'p, K>,
) -> Result<(), AllocError>
where
    K: Ord + 'p,
    ensures { OnOk result (MarksGapBefore K.cmp from.entry.now range.entry locals.entry.now marks.old marks.new) }
{
    if head_holds(locals, &range) {
        return Ok(());
    }
    mark_gap(from, gap_end(range.end(), locals), marks)
}

/// Marks `range`: good where it agrees, and then takes the entries at the front that are within it.
fn mark_met<'p, J, K>(
    range: DiffRange<'p, K>,
    agrees: bool,
    peers: &mut Lookahead<J, PageRange<'p, K>>,
    marks: &mut Marks<'p, K>,
) -> Result<(), AllocError>
where
    K: Ord + 'p,
    J: Iterator<Item = PageRange<'p, K>>,
    requires { CanGoOn J.can_next J.remaining peers.old }
    ensures goes { OnOk result (CanGoOn J.can_next J.remaining peers.new) }
    ensures no_more { OnOk result (items_left J.remaining peers.new ≤ items_left J.remaining peers.old) }
    ensures leads { OnOk result (Leads J.next_gives peers.old peers.new (TakesAgreed K.cmp (span range.entry) agrees)) }
    ensures marked { OnOk result (Marked marks.old (mark_of agrees (span range.entry) ∷ []) marks.new) }
{
    if agrees {
        marks.good.push(range)?;
        drop_within(peers, range);
    } else {
        marks.bad.push(range)?;
    }
    Ok(())
}

/// One turn in the outer range `current`: a range to go into, or `None` where the walk of `current` ends.
fn turn<'p, I, J, K>(
    current: DiffRange<'p, K>,
    from: &'p K,
    locals: &mut Lookahead<I, PageRange<'p, K>>,
    peers: &mut Lookahead<J, PageRange<'p, K>>,
    marks: &mut Marks<'p, K>,
) -> Result<Option<DiffRange<'p, K>>, AllocError>
where
    K: Ord + 'p,
    I: Iterator<Item = PageRange<'p, K>>,
    J: Iterator<Item = PageRange<'p, K>>,
    requires locals { CanGoOn I.can_next I.remaining locals.old }
    requires peers { CanGoOn J.can_next J.remaining peers.old }
    ensures locals { OnOk result (CanGoOn I.can_next I.remaining locals.new) }
    ensures peers { OnOk result (CanGoOn J.can_next J.remaining peers.new) }
    ensures nearer { IfOk result (ComesNearer J.remaining peers.old peers.new) }
    ensures meaning { IfOk result (TakesTurn K.cmp current.entry from.entry.now marks.old marks.new
        (LeadsBoth I.next_gives J.next_gives locals.old peers.old locals.new peers.new)) }
{
    if !head_is_within(peers, &current) {
        return Ok(None);
    }
    let Some(entry) = take_head(peers) else {
        return Ok(None);
    };
    let range = entry.range();
    if !head_is_within(locals, &range) {
        mark_between(from, range, locals, marks)?;
        return Ok(None);
    }
    let Some(first) = take_head(locals) else {
        return Ok(None);
    };
    let digest = take_holders(locals, range, first.into_hash());
    let agrees = is_same_digest(digest, entry.into_hash());
    mark_met(range, agrees, peers, marks)?;
    Ok(Some(range))
}

/// The walk of `outer` from its start on.
fn walk<'p, I, J, K>(
    alloc: Global,
    outer: DiffRange<'p, K>,
    locals: &mut Lookahead<I, PageRange<'p, K>>,
    peers: &mut Lookahead<J, PageRange<'p, K>>,
    marks: &mut Marks<'p, K>,
) -> Result<(), AllocError>
where
    K: Ord + 'p,
    I: Iterator<Item = PageRange<'p, K>>,
    J: Iterator<Item = PageRange<'p, K>>,
    requires locals { CanGoOn I.can_next I.remaining locals.old }
    requires peers { CanGoOn J.can_next J.remaining peers.old }
    ensures locals { OnOk result (CanGoOn I.can_next I.remaining locals.new) }
    ensures peers { OnOk result (CanGoOn J.can_next J.remaining peers.new) }
    ensures meaning { OnOk result (LeadsBoth I.next_gives J.next_gives locals.old peers.old locals.new peers.new
        (MarksWalk K.cmp outer.entry marks.old marks.new)) }
{
    let mut open = Vec::new(alloc);
    let mut current = outer;
    let mut from = outer.start();
    'turns: loop {
        match turn(current, from, locals, peers, marks)? {
            Some(range) => {
                open.push(current)?;
                current = range;
                from = range.start();
            }
            None => {
                let Some(below) = open.pop() else {
                    return Ok(());
                };
                mark_within(peers, current, marks)?;
                from = current.end();
                current = below;
            }
        }
    }
}

/// The marks of the walk of `outer`. Both queues are then taken to their end.
pub fn walked<'p, I, J, K>(
    alloc: Global,
    outer: DiffRange<'p, K>,
    mut locals: Lookahead<I, PageRange<'p, K>>,
    mut peers: Lookahead<J, PageRange<'p, K>>,
) -> Result<Marks<'p, K>, AllocError>
where
    K: Ord + 'p,
    I: Iterator<Item = PageRange<'p, K>>,
    J: Iterator<Item = PageRange<'p, K>>,
    requires locals { CanGoOn I.can_next I.remaining locals }
    requires peers { CanGoOn J.can_next J.remaining peers }
    ensures { IfOk result (LeavesBoth I.next_gives J.next_gives locals.entry peers.entry (HasWalked K.cmp outer.entry)) }
{
    let mut marks: Marks<'p, K> = Marks {
        bad: Vec::new(alloc),
        good: Vec::new(alloc),
    };
    walk(alloc, outer, &mut locals, &mut peers, &mut marks)?;
    drain(locals);
    drain(peers);
    Ok(marks)
}
