//! What sessions by deltas cost, beside plain ones and all rows.
use crate::playing::{Cost, by_deltas, plainly};
use crate::rows::{Way, keys, replica};
use merkle_wire::MOST_BYTES;
use std::alloc::Global;
use std::test::Fail;

/// A session: how many rows the peer has, at every how many of them the asking side differs, and how; how many come; in how many bytes both ways
/// at most, and in how many a plain one at most.
type Case = (u64, usize, Way, usize, usize, usize);

const CASES: [Case; 9] = [
    (1000, 0, Way::Changed, 0, 62, 62),
    (1000, 1000, Way::Changed, 1, 385, 1053),
    (1000, 100, Way::Changed, 10, 2571, 7248),
    (1000, 100, Way::Missing, 10, 2975, 7248),
    (1000, 2, Way::Changed, 500, 16_586, 16_503),
    (1000, 1, Way::Changed, 1000, 16_591, 16_503),
    (1000, 4, Way::Missing, 250, 20_721, 20_247),
    (20_000, 200, Way::Changed, 100, 31_242, 90_383),
    (20_000, 200, Way::Missing, 100, 37_922, 92_910),
];

/// How many bytes a row has by itself: a text of 17 letters after its length, and a number below 128.
const ROW: usize = 19;

/// What a session of a case costs by deltas and plainly, where it brings other rows or costs more.
fn over(alloc: Global, case: Case) -> Result<Option<(Cost, Cost)>, Fail> {
    let keys = keys(alloc, case.0)?;
    let mut peer = replica(alloc, &keys, 0, Way::Changed)?;
    let mut local = replica(alloc, &keys, case.1, case.2)?;
    let (rows, cost) = by_deltas(alloc, &mut local, &mut peer, MOST_BYTES)?;
    let (plain_rows, plain) = plainly(alloc, &mut local, &mut peer, MOST_BYTES)?;
    let is_right = rows.len() == case.3 && rows == plain_rows;
    if is_right && cost.bytes() <= case.4 && plain.bytes() <= case.5 {
        return Ok(None);
    }
    Ok(Some((cost, plain)))
}

#[test]
fn sessions_by_deltas_cost_less(rt: HostRuntime) -> Result<(), Fail> {
    for case in &CASES {
        assert!(rt; over(rt.alloc(), *case)?.is_none(), "{case:?}");
    }
    Ok(())
}

/// The first session that costs more than all rows by themselves and a tenth, by deltas or plainly, of those with this many rows in which the asking
/// side differs at one row in `step`, for each of the steps.
fn dearer_than_all(
    alloc: Global,
    count: usize,
    steps: &[usize],
    way: Way,
) -> Result<Option<usize>, Fail> {
    let most = count.saturating_mul(ROW).saturating_mul(11) / 10;
    let keys = keys(alloc, count as u64)?;
    let mut peer = replica(alloc, &keys, 0, way)?;
    for step in steps {
        let mut local = replica(alloc, &keys, *step, way)?;
        let (_, cost) = by_deltas(alloc, &mut local, &mut peer, MOST_BYTES)?;
        let (_, plain) = plainly(alloc, &mut local, &mut peer, MOST_BYTES)?;
        if cost.bytes().max(plain.bytes()) > most {
            return Ok(Some(*step));
        }
    }
    Ok(None)
}

/// At every how many rows sides of 1,000 rows differ.
const STEPS: [usize; 16] = [1, 2, 3, 4, 5, 6, 7, 8, 9, 10, 11, 12, 14, 16, 18, 20];

#[test]
fn no_session_costs_more_than_all_rows_and_a_tenth(rt: HostRuntime) -> Result<(), Fail> {
    let alloc = rt.alloc();
    assert!(rt; dearer_than_all(alloc, 1000, &STEPS, Way::Changed)?.is_none());
    assert!(rt; dearer_than_all(alloc, 1000, &STEPS, Way::Missing)?.is_none());
    Ok(())
}
