//! Cells as rows of the table.
ghost use Rattle.std.specs.Prelude.{◌≡◌, pos, IfOk, OnOk};
ghost use Rattle.sqlite_value.specs.Value.{owned};
ghost use Rattle.sqlite_value.specs.declared.value.Value.TheVariants.{Blob, Int};
ghost use Rattle.store_tree.specs.Outlines.{told_digest};
ghost use Rattle.store_tree.specs.Rows.{bound_bytes, cell_row, count_value, front_value, known_value, row_of_cell};

use crate::fault::TreeFault;
use crate::pairs::DIGEST_LEN;
use merkle_digest::PageDigest;
use sqlite_value::row::Row;
use sqlite_value::value::ValueRef;
use std::alloc::Global;

/// What is known of the keys in a gap.
#[derive(Clone, Copy, Drop)]
pub enum Known {
    /// Nothing is known of them.
    Unknown,
    /// There are none.
    Nothing,
    /// They stand in a page.
    Page {
        /// Its digest.
        digest: [u8; DIGEST_LEN],
        /// How many keys it has, and the pages below it.
        count: u64,
    },
}

/// A gap of a level, from a key on that level or above it to the next one.
#[derive(Drop)]
pub struct Cell {
    /// The level, from 1 on.
    pub level: u16,
    /// The key above which the gap begins, or `None` for the first gap of the level.
    pub front: Option<String>,
    /// What is known of the keys in the gap.
    pub known: Known,
}

/// The digest of what is known to be a page.
pub(crate) fn digest_in(known: &Known) -> Option<PageDigest>
    ensures { result ≡ told_digest known.now }
{
    match known {
        Known::Unknown => None,
        Known::Nothing => None,
        Known::Page { digest, .. } => Some(PageDigest::new(*digest)),
    }
}

/// A level.
fn level_in(value: ValueRef<'_>) -> Result<u16, TreeFault>
    ensures { IfOk result (λ level. owned value.entry ≡ Int (pos level)) }
{
    let ValueRef::Int(number) = value else {
        return Err(TreeFault::Malformed);
    };
    match u16::try_from(number) {
        Ok(level) => Ok(level),
        Err(_) => Err(TreeFault::Malformed),
    }
}

/// A key, in memory of its own, or none.
fn front_in(alloc: Global, value: ValueRef<'_>) -> Result<Option<String>, TreeFault>
    ensures { IfOk result (λ front. owned value.entry ≡ front_value (bound_bytes front)) }
{
    let bytes = match value {
        ValueRef::Int(0) => return Ok(None),
        ValueRef::Text(bytes) => bytes,
        _ => return Err(TreeFault::Malformed),
    };
    match str::from_utf8(bytes) {
        Ok(text) => Ok(Some(String::from_str(alloc, text)?)),
        Err(_) => Err(TreeFault::Malformed),
    }
}

/// A page of which the digest and the number of keys are known.
fn page_in(digest: &[u8], count: i64) -> Result<Known, TreeFault>
    ensures { IfOk result (λ known. (known_value known ≡ Blob digest.now) × (count_value known ≡ Int count)) }
{
    let Ok(digest) = <[u8; DIGEST_LEN]>::try_from(digest) else {
        return Err(TreeFault::Malformed);
    };
    let Ok(count) = u64::try_from(count) else {
        return Err(TreeFault::Malformed);
    };
    Ok(Known::Page { digest, count })
}

/// What is known of a gap.
fn known_in(known: ValueRef<'_>, count: ValueRef<'_>) -> Result<Known, TreeFault>
    ensures known { IfOk result (λ read. owned known.entry ≡ known_value read) }
    ensures count { IfOk result (λ read. owned count.entry ≡ count_value read) }
{
    match (known, count) {
        (ValueRef::Null, ValueRef::Null) => Ok(Known::Unknown),
        (ValueRef::Int(0), ValueRef::Int(0)) => Ok(Known::Nothing),
        (ValueRef::Blob(digest), ValueRef::Int(count)) => page_in(digest, count),
        _ => Err(TreeFault::Malformed),
    }
}

/// The cell of a row, in memory of its own.
pub(crate) fn cell_of(alloc: Global, row: &Row) -> Result<Cell, TreeFault>
    ensures { IfOk result (λ cell. row.now ≡ row_of_cell cell) }
{
    if row.len() != 4 {
        return Err(TreeFault::Malformed);
    }
    let level = level_in(row.get(0))?;
    let front = front_in(alloc, row.get(1))?;
    let known = known_in(row.get(2), row.get(3))?;
    Ok(Cell {
        level,
        front,
        known,
    })
}

/// The value of a front.
fn value_of_front(front: &Option<String>) -> ValueRef<'_>
    ensures { owned result ≡ front_value (bound_bytes front.now) }
{
    match front {
        Some(key) => ValueRef::Text(key.as_bytes()),
        None => ValueRef::Int(0),
    }
}

/// The value of what is known of a gap.
fn value_of_known(known: &Known) -> ValueRef<'_>
    ensures { owned result ≡ known_value known.now }
{
    match known {
        Known::Unknown => ValueRef::Null,
        Known::Nothing => ValueRef::Int(0),
        Known::Page { digest, .. } => ValueRef::Blob(digest),
    }
}

/// The value of how many keys are known to be in a gap.
fn value_of_count(known: &Known) -> Result<ValueRef<'_>, TreeFault>
    ensures { IfOk result (λ value. owned value ≡ count_value known.now) }
{
    match known {
        Known::Unknown => Ok(ValueRef::Null),
        Known::Nothing => Ok(ValueRef::Int(0)),
        Known::Page { count, .. } => match i64::try_from(*count) {
            Ok(number) => Ok(ValueRef::Int(number)),
            Err(_) => Err(TreeFault::Malformed),
        },
    }
}

/// Makes a row that of a cell.
pub(crate) fn fill(
    row: &mut Row,
    level: u16,
    front: &Option<String>,
    known: &Known,
) -> Result<(), TreeFault>
    ensures { OnOk result (row.new ≡ cell_row level (bound_bytes front.now) known.now) }
{
    row.clear();
    row.push(ValueRef::Int(i64::from(level)))?;
    row.push(value_of_front(front))?;
    row.push(value_of_known(known))?;
    row.push(value_of_count(known)?)?;
    Ok(())
}
