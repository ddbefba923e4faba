//! Joining many rows in one pass: the own rows are parted at a place that moves up, those before it in their list and those from
//! it on in a second one, the last row first.

ghost use Rattle.std.specs.Prelude.{◌≡◌, ◌≤◌, ◌<◌, ◌+◌, ◌++◌, reverse, IfOk, IfErr, OnOk, OnErr};
ghost use Rattle.std.specs.Vec.{vec_len, vec_capacity};
ghost use Rattle.std.specs.List.{AllByRecursion};
ghost use Rattle.key_order.specs.Order.{Below};
ghost use Rattle.key_order.specs.Interval.{IsApart, IsOrdered};
ghost use Rattle.key_order.specs.Map.{IsMap};
ghost use Rattle.merkle_tree_theory.specs.State.{SameSettings};
ghost use Rattle.merkle_replica.specs.Contents.{IsKept};
ghost use Rattle.merkle_replica.specs.Answers.{spans_of, JoinsWithin, JoinsPartly};
ghost use Rattle.merkle_replica.specs.Puts.{IsRising, HasGathered, IsGatheredTo};
ghost use Rattle.merkle_replica.specs.Parted.{whole, parted, JoinsParted, FirstNotBelow, first_is};

use crate::seek::{count_within, first_from, seek};
use key_order::Join;
use merkle_digest::{Hasher, Key};
use merkle_search_tree::MerkleSearchTree;
use std::alloc::{AllocError, Global};
use std::cmp::Ordering;

/// How far the joining of a peer's rows came: the first `done` of the `joined` rows in the ranges are joined.
#[derive(Clone, Copy)]
pub(crate) struct Stopped {
    pub(crate) done: usize,
    pub(crate) joined: usize,
}

/// Makes room for `more` rows, and takes off the rows from the key on, the last one first. Refused, the rows stay.
fn part<K: Ord, V>(rows: &mut Vec<(K, V)>, key: &K, more: usize) -> Result<Vec<(K, V)>, AllocError>
    requires ascending { IsMap K.cmp rows.old.items }
    ensures whole { IfOk result (λ back. whole rows.new.items back.items ≡ rows.old.items) }
    ensures below { OnOk result (AllByRecursion (λ s. Below K.cmp s.0 key.now) rows.new.items) }
    ensures room { IfOk result (λ back. vec_len rows.new + vec_len back + more ≤ vec_capacity rows.new) }
    ensures unchanged { OnErr result (rows.new.items ≡ rows.old.items) }
{
    rows.reserve(more)?;
    let at = first_from(rows, key);
    let mut back = rows.split_off(at)?;
    back.reverse();
    Ok(back)
}

/// Moves all elements to another list, the last one first. It takes no memory.
fn turn_over<T>(from: &mut Vec<T>, into: &mut Vec<T>)
    requires room { vec_len from.old + vec_len into.old ≤ vec_capacity into.old }
    ensures moved { into.new.items ≡ into.old.items ++ reverse from.old.items }
{
    'turning: while let Some(element) = from.pop() {
        into.push_reserved(element);
    }
}

/// Moves the place up to the first row that isn't below the key.
fn pass<K: Ord, V>(front: &mut Vec<(K, V)>, back: &mut Vec<(K, V)>, key: &K)
    requires room { vec_len front.old + vec_len back.old ≤ vec_capacity front.old }
    requires below { AllByRecursion (λ s. Below K.cmp s.0 key.now) front.old.items }
    ensures whole { whole front.new.items back.new.items ≡ whole front.old.items back.old.items }
    ensures below { AllByRecursion (λ s. Below K.cmp s.0 key.now) front.new.items }
    ensures next { FirstNotBelow K.cmp key.now (reverse back.new.items) }
    ensures len { vec_len front.new + vec_len back.new ≡ vec_len front.old + vec_len back.old }
    ensures capacity { vec_capacity front.old ≤ vec_capacity front.new }
{
    'passing: while let Some(row) = back.pop() {
        match row.0.cmp(key) {
            Ordering::Less => front.push_reserved(row),
            _ => {
                back.push_reserved(row);
                return;
            }
        }
    }
}

/// Whether the row at the place has the key.
fn is_next<K: Ord, V>(back: &[(K, V)], key: &K) -> bool
    ensures { result ≡ first_is K.cmp key.now (reverse back.now) }
{
    match back.last() {
        Some(row) => match row.0.cmp(key) {
            Ordering::Equal => true,
            _ => false,
        },
        None => false,
    }
}

/// Joins a row, below which all rows before the place are, and leaves the place at it.
fn join_here<K, V, H, const N: usize>(
    alloc: Global,
    front: &mut Vec<(K, V)>,
    back: &mut Vec<(K, V)>,
    tree: &mut MerkleSearchTree<K, V, H, N>,
    key: K,
    value: V,
) -> Result<(), AllocError>
where
    K: Key + Drop,
    V: Join + Drop,
    H: Hasher<N, K> + Hasher<N, V>,
    requires kept { IsKept K.cmp ⟦<H as Hasher<N, V>>⟧.digest_of (parted front.old back.old tree.old) }
    requires below { AllByRecursion (λ s. Below K.cmp s.0 key) front.old.items }
    requires room { vec_len front.old + vec_len back.old < vec_capacity front.old }
    ensures kept { IsKept K.cmp ⟦<H as Hasher<N, V>>⟧.digest_of (parted front.new back.new tree.new) }
    ensures joined { OnOk result (JoinsParted K.cmp V.eq V.join_of front.old back.old (key, value) front.new back.new) }
    ensures unchanged { OnErr result (whole front.new.items back.new.items ≡ whole front.old.items back.old.items) }
    ensures below { AllByRecursion (λ s. Below K.cmp s.0 key) front.new.items }
    ensures len { vec_len front.new + vec_len back.new ≤ vec_len front.old + vec_len back.old + 1 }
    ensures capacity { vec_capacity front.old ≤ vec_capacity front.new }
    ensures settings { SameSettings tree.old tree.new }
{
    pass(front, back, &key);
    if is_next(back, &key) {
        let at = back.len() - 1;
        let stored = back[at].1.join(alloc, &value)?;
        if tree.upsert(key, &stored).is_err() {
            return Err(AllocError);
        }
        back[at].1 = stored;
        return Ok(());
    }
    // A new row waits after the place, so that the next one may have its key.
    back.reserve_exact(1)?;
    let own = key.clone()?;
    if tree.upsert(own, &value).is_err() {
        return Err(AllocError);
    }
    back.push_reserved((key, value));
    Ok(())
}

/// Takes a row over: the key cloned, and the value joined with itself.
fn take_row<K, V, H, const N: usize>(
    alloc: Global,
    front: &mut Vec<(K, V)>,
    back: &mut Vec<(K, V)>,
    tree: &mut MerkleSearchTree<K, V, H, N>,
    row: &(K, V),
) -> Result<(), AllocError>
where
    K: Key + Drop,
    V: Join + Drop,
    H: Hasher<N, K> + Hasher<N, V>,
    requires kept { IsKept K.cmp ⟦<H as Hasher<N, V>>⟧.digest_of (parted front.old back.old tree.old) }
    requires below { AllByRecursion (λ s. Below K.cmp s.0 row.now.0) front.old.items }
    requires room { vec_len front.old + vec_len back.old < vec_capacity front.old }
    ensures kept { IsKept K.cmp ⟦<H as Hasher<N, V>>⟧.digest_of (parted front.new back.new tree.new) }
    ensures joined { OnOk result (JoinsParted K.cmp V.eq V.join_of front.old back.old row.now front.new back.new) }
    ensures unchanged { OnErr result (whole front.new.items back.new.items ≡ whole front.old.items back.old.items) }
    ensures below { OnOk result (AllByRecursion (λ s. Below K.cmp s.0 row.now.0) front.new.items) }
    ensures len { vec_len front.new + vec_len back.new ≤ vec_len front.old + vec_len back.old + 1 }
    ensures capacity { vec_capacity front.old ≤ vec_capacity front.new }
    ensures settings { SameSettings tree.old tree.new }
{
    let key = row.0.clone()?;
    let value = row.1.join(alloc, &row.1)?;
    join_here(alloc, front, back, tree, key, value)
}

/// Joins the rows of `theirs` in the ranges with `rows`, of which those below the first range stay where they are.
pub(crate) fn join_all<K, V, H, const N: usize>(
    alloc: Global,
    rows: &mut Vec<(K, V)>,
    tree: &mut MerkleSearchTree<K, V, H, N>,
    theirs: &[(K, V)],
    ranges: &[(K, K)],
) -> Result<usize, Stopped>
where
    K: Key + Drop,
    V: Join + Drop,
    H: Hasher<N, K> + Hasher<N, V>,
    requires apart { IsApart K.cmp (spans_of ranges.now) }
    requires ordered { AllByRecursion (IsOrdered K.cmp) (spans_of ranges.now) }
    requires ascending { IsMap K.cmp theirs.now }
    requires kept { IsKept K.cmp ⟦<H as Hasher<N, V>>⟧.digest_of (record { rows = rows.old.items; tree = tree.old }) }
    ensures kept { IsKept K.cmp ⟦<H as Hasher<N, V>>⟧.digest_of (record { rows = rows.new.items; tree = tree.new }) }
    ensures all { IfOk result (JoinsWithin K.cmp V.eq V.join_of ranges.now theirs.now rows.old.items rows.new.items) }
    ensures stopped { IfErr result (JoinsPartly K.cmp V.eq V.join_of ranges.now theirs.now rows.old.items rows.new.items) }
    ensures settings { SameSettings tree.old tree.new }
{
    let joined = count_within(ranges, theirs);
    if joined == 0 {
        return Ok(0);
    }
    let Ok(mut back) = part(rows, &ranges[0].0, joined) else {
        return Err(Stopped { done: 0, joined });
    };
    let mut at = 0;
    let mut done = 0;
    'joining: for row in theirs {
        let (next, found) = seek(ranges, at, &row.0);
        at = next;
        if found {
            if take_row(alloc, rows, &mut back, tree, row).is_err() {
                turn_over(&mut back, rows);
                return Err(Stopped { done, joined });
            }
            done += 1;
        }
    }
    turn_over(&mut back, rows);
    Ok(done)
}

/// Joins rows that don't fall with `rows`, of which those below the first stay where they are. Refused, it returns how many of them
/// are joined.
pub(crate) fn join_owned<K, V, H, const N: usize>(
    alloc: Global,
    rows: &mut Vec<(K, V)>,
    tree: &mut MerkleSearchTree<K, V, H, N>,
    theirs: Vec<(K, V)>,
) -> Result<(), usize>
where
    K: Key + Drop,
    V: Join + Drop,
    H: Hasher<N, K> + Hasher<N, V>,
    requires rising { IsRising K.cmp theirs.items }
    requires kept { IsKept K.cmp ⟦<H as Hasher<N, V>>⟧.digest_of (record { rows = rows.old.items; tree = tree.old }) }
    ensures kept { IsKept K.cmp ⟦<H as Hasher<N, V>>⟧.digest_of (record { rows = rows.new.items; tree = tree.new }) }
    ensures all { OnOk result (HasGathered K.cmp V.eq V.join_of rows.old.items theirs.items rows.new.items) }
    ensures cut { IfErr result (IsGatheredTo K.cmp V.eq V.join_of rows.old.items theirs.items rows.new.items) }
    ensures settings { SameSettings tree.old tree.new }
{
    let joined = theirs.len();
    if joined == 0 {
        return Ok(());
    }
    let Ok(mut back) = part(rows, &theirs[0].0, joined) else {
        return Err(0);
    };
    let mut done = 0;
    'joining: for row in theirs {
        if join_here(alloc, rows, &mut back, tree, row.0, row.1).is_err() {
            turn_over(&mut back, rows);
            return Err(done);
        }
        done += 1;
    }
    turn_over(&mut back, rows);
    Ok(())
}
