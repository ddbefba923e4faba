use crate::rows::text;
use examples::set::{Names, add, unite};
use examples::store::open_rows;
use std::alloc::{AllocError, Global};
use std::test::Fail;

/// The set of one name.
fn one(alloc: Global, name: &str) -> Result<Vec<(String, ())>, AllocError> {
    let mut rows = Vec::new(alloc);
    rows.push((text(alloc, name)?, ()))?;
    Ok(rows)
}

/// Whether these are the names.
fn are_names(names: &Names, expected: &[&str]) -> bool {
    let rows = names.rows();
    rows.len() == expected.len()
        && rows
            .iter()
            .zip(expected)
            .all(|(row, other)| row.0.as_str() == *other)
}

/// The set of a name, to which another is added.
fn both(alloc: Global, name: &str, other: &str) -> Result<Names, Fail> {
    let mut names = open_rows(alloc, one(alloc, name)?)?;
    add(&mut names, text(alloc, other)?)?;
    Ok(names)
}

#[test]
fn both_hold_the_union(rt: HostRuntime) -> Result<(), Fail> {
    let alloc = rt.alloc();
    let mut a = both(alloc, "bob", "ann")?;
    let mut b = both(alloc, "bob", "cay")?;
    unite(alloc, &mut a, &mut b)?;
    assert!(rt; are_names(&a, &["ann", "bob", "cay"]));
    assert!(rt; are_names(&b, &["ann", "bob", "cay"]));
    Ok(())
}
