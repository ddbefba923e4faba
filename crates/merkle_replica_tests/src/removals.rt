//! Removals of rows from maps of texts, by a table that was worked out by hand.

use crate::kinds::{Kind, Map, del, put};
use merkle_search_tree::builder::Builder;
use std::alloc::{AllocError, Global};
use std::test::Fail;

/// Rows by the numbers of their keys.
type Rows = &'static [(u16, u64)];

/// The rows of a map, the number of a key that is taken out, whether it is there, and the rows afterwards.
type Case = (Rows, u16, bool, Rows);

const CASES: [Case; 8] = [
    (&[], 5, false, &[]),
    (&[(5, 1)], 5, true, &[]),
    (&[(5, 1)], 4, false, &[(5, 1)]),
    (&[(5, 1)], 6, false, &[(5, 1)]),
    (&[(1, 4), (5, 1), (9, 2)], 1, true, &[(5, 1), (9, 2)]),
    (&[(1, 4), (5, 1), (9, 2)], 5, true, &[(1, 4), (9, 2)]),
    (&[(1, 4), (5, 1), (9, 2)], 9, true, &[(1, 4), (5, 1)]),
    (
        &[(1, 4), (5, 1), (9, 2)],
        7,
        false,
        &[(1, 4), (5, 1), (9, 2)],
    ),
];

/// The map of these rows.
fn map_of<K: Kind + Drop>(alloc: Global, rows: &[(u16, u64)]) -> Result<Map<K>, AllocError> {
    let mut map = Map::new(alloc, Builder::default());
    for (number, value) in rows {
        put(alloc, &mut map, *number, *value)?;
    }
    Ok(map)
}

/// Whether a map has these rows and no others.
fn has<K: Kind + Drop>(
    alloc: Global,
    map: &Map<K>,
    wanted: &[(u16, u64)],
) -> Result<bool, AllocError> {
    let mut is_right = map.rows().len() == wanted.len();
    for (row, (number, value)) in map.rows().iter().zip(wanted) {
        is_right = is_right && row.0 == K::of(alloc, *number)? && row.1 == *value;
    }
    Ok(is_right)
}

/// Whether two maps have one root hash.
fn look_the_same<K: Kind>(a: &mut Map<K>, b: &mut Map<K>) -> bool {
    a.root_hash() == b.root_hash()
}

/// Whether a key is taken out of a map, and again, as a case says, and the tree is then that of a map which never had the key.
fn goes_as_said<K: Kind + Drop>(alloc: Global, case: &Case) -> Result<bool, AllocError> {
    let (before, number, is_there, after) = *case;
    let mut map: Map<K> = map_of(alloc, before)?;
    let is_told = del(alloc, &mut map, number)? == is_there && !del(alloc, &mut map, number)?;
    let mut others: Map<K> = map_of(alloc, after)?;
    Ok(is_told && has(alloc, &map, after)? && look_the_same(&mut map, &mut others))
}

#[test]
fn a_removal_leaves_the_other_rows(rt: HostRuntime) -> Result<(), Fail> {
    for (place, case) in CASES.iter().enumerate() {
        assert!(rt; goes_as_said::<String>(rt.alloc(), case)?, "case {place}");
    }
    Ok(())
}
