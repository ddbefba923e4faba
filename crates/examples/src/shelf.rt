//! Rows on a shelf that may be closed.
ghost use Rattle.std.specs.Prelude.{◌≡◌, IfSome};
ghost use Rattle.key_order.specs.Places.{FindsRow};

use merkle_bytes::Encode;
use merkle_digest::Key;
use merkle_wire::{KeptRows, OwnedGap, rows_ascend, tell_part};
use std::alloc::{AllocError, Global};
use std::cmp::Ordering;
use std::marker::Model;

/// Rows in ascending key order, on a shelf that may be closed: none can be looked up then.
pub struct Shelf<K: Ord, V> {
    alloc: Global,
    rows: Vec<(K, V)>,
    is_open: bool,
    is_near: bool,
}

impl<K: Ord + Drop, V: Drop> Drop for Shelf<K, V> {
    fn drop(self) {
        let Shelf {
            alloc: _,
            rows: _,
            is_open: _,
            is_near: _,
        } = self;
    }
}

impl<K: Ord, V> Model for Shelf<K, V> {
    ghost use Rattle.std.specs.Prelude.{List};
    ghost use Rattle.key_order.specs.Map.{IsMap};

    ghost Value = { List (K × V) };

    ghost view = { λ shelf. shelf.rows.items };

    ghost invariant = { λ shelf. IsMap K.cmp shelf.rows.items };
}

/// Why a row isn't told.
#[derive(Clone, Copy, Debug, PartialEq, Eq, Drop)]
pub enum ShelfError {
    /// Out of memory.
    Memory,
    /// The shelf is closed.
    Closed,
}

impl From<AllocError> for ShelfError {
    fn from(_error: AllocError) -> Self {
        ShelfError::Memory
    }
}

impl<K: Ord + Drop, V: Drop> Shelf<K, V> {
    /// A shelf with these rows, where they ascend strictly by key.
    pub fn of(alloc: Global, rows: Vec<(K, V)>) -> Option<Self>
        ensures { IfSome result (λ shelf. shelf ≡ rows.items) }
    {
        if !rows_ascend(&rows) {
            return None;
        }
        Some(Shelf {
            alloc,
            rows,
            is_open: true,
            is_near: true,
        })
    }

    /// Closes it.
    pub fn close(&mut self)
        ensures { self.new ≡ self.old }
    {
        self.is_open = false;
    }

    /// Puts it far away: values are looked up only where they are asked for by their keys.
    pub fn put_away(&mut self)
        ensures { self.new ≡ self.old }
    {
        self.is_near = false;
    }
}

impl<K: Key + Encode, V: Encode> KeptRows<K, V> for Shelf<K, V> {
    type Error = ShelfError;

    ghost rows = { λ shelf. shelf };

    fn are_at_hand(&self) -> bool {
        self.is_near
    }

    fn count(&self) -> Result<u64, ShelfError> {
        if !self.is_open {
            return Err(ShelfError::Closed);
        }
        Ok(self.rows.len() as u64)
    }

    fn add_value(&self, key: &K, bytes: &mut Vec<u8>) -> Result<bool, ShelfError> {
        if !self.is_open {
            return Err(ShelfError::Closed);
        }
        match find(&self.rows, key) {
            None => Ok(false),
            Some(row) => {
                row.1.encode(bytes)?;
                Ok(true)
            }
        }
    }

    fn add_part(
        &self,
        most_bytes: usize,
        gap: &OwnedGap<K>,
        bytes: &mut Vec<u8>,
    ) -> Result<(), ShelfError> {
        if !self.is_open {
            return Err(ShelfError::Closed);
        }
        tell_part(self.alloc, &self.rows, most_bytes, gap, bytes)?;
        Ok(())
    }
}

/// The row at a key, where there is one.
fn find<'a, K: Ord, V>(rows: &'a [(K, V)], key: &K) -> Option<&'a (K, V)>
    ensures { FindsRow K.cmp key.now rows.now result }
{
    'rows: for row in rows {
        match row.0.cmp(key) {
            Ordering::Less => {}
            Ordering::Equal => return Some(row),
            Ordering::Greater => {}
        }
    }
    None
}
