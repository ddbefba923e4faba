//! Texts, and rows of numbers.
use examples::store::{Store, open_rows};
use std::alloc::{AllocError, Global};
use std::test::Fail;

/// A text.
pub fn text(alloc: Global, text: &str) -> Result<String, AllocError> {
    String::from_str(alloc, text)
}

/// Rows of numbers.
pub fn numbers(alloc: Global, rows: &[(&str, u64)]) -> Result<Vec<(String, u64)>, AllocError> {
    let mut all = Vec::with_capacity(alloc, rows.len())?;
    for (name, number) in rows {
        all.push((text(alloc, name)?, *number))?;
    }
    Ok(all)
}

/// The store of rows of numbers.
pub fn opened(alloc: Global, rows: &[(&str, u64)]) -> Result<Store<u64>, Fail> {
    Ok(open_rows(alloc, numbers(alloc, rows)?)?)
}

/// Whether these are the rows.
pub fn are_rows(rows: &[(String, u64)], expected: &[(&str, u64)]) -> bool {
    rows.len() == expected.len()
        && rows.iter().zip(expected).all(|(row, other)| row.0.as_str() == other.0
            && row.1 == other.1)
}
