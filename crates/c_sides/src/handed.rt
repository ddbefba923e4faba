//! Rows that were handed in for a question.
ghost use Rattle.std.specs.Prelude.{◌≡◌, IfOk};
ghost use Rattle.c_rows.specs.Values.{by_bytes_all};
ghost use Rattle.c_values.specs.Keys.{key_cmp};
ghost use Rattle.c_values.specs.Lists.{row_list};
ghost use Rattle.key_order.specs.Map.{IsMap};
ghost use Rattle.c_sides.specs.declared.handed.HandedError.TheVariants.{Memory};

use c_rows::{ByteValue, decode_rows};
use c_values::ListError;
use merkle_bytes::Encode;
use merkle_digest::SipHasher;
use merkle_replica::Replica;
use merkle_search_tree::LoadRefused;
use merkle_search_tree::builder::Builder;
use merkle_wire::{KeptRows, OwnedGap, tell_part};
use std::alloc::{AllocError, Global};

/// Rows that were handed in: all rows that a question asks for, or the first of them.
#[derive(Drop)]
pub struct Handed {
    pub rows: Replica<Vec<u8>, ByteValue, SipHasher, 16>,
    is_all: bool,
}

/// Why the rows that were handed in don't tell what a question asks for.
#[derive(Clone, Copy, Debug, PartialEq, Eq, Drop)]
pub enum HandedError {
    /// Out of memory.
    Memory,
    /// More rows are needed.
    Rows,
    /// It asks how many rows there are.
    Count,
}

impl From<AllocError> for HandedError {
    ghost from_gives = { λ _ fault. fault ≡ Memory };

    fn from(_error: AllocError) -> Self {
        HandedError::Memory
    }
}

impl Handed {
    /// The rows that a list spells, which ascend: all that are needed, or the first of them.
    pub fn of_list(alloc: Global, list: &[u8], is_all: bool) -> Result<Handed, ListError>
        ensures spelled { IfOk result (λ handed. list.now ≡ row_list (by_bytes_all handed.rows.rows)) }
        ensures ascending { IfOk result (λ handed. IsMap key_cmp handed.rows.rows) }
    {
        let rows = decode_rows(alloc, list)?;
        match Replica::from_rows(alloc, Builder::default(), rows) {
            Ok(rows) => {
                let _ = rows.rows(); // (they ascend)
                Ok(Handed { rows, is_all })
            }
            Err(refused) => Err(error_of(refused.why)),
        }
    }

    /// Whether what was told of a gap at the end of these bytes holds of all rows in it: they were all handed in, or one above the gap was, or the
    /// bytes say that more are after.
    fn is_told(&self, gap: &OwnedGap<Vec<u8>>, bytes: &[u8]) -> bool {
        self.is_all || is_cut(bytes) || self.goes_beyond(gap)
    }

    /// Whether a row at or above the upper bound of a gap was handed in.
    fn goes_beyond(&self, gap: &OwnedGap<Vec<u8>>) -> bool {
        let Some(bound) = &gap.before else {
            return false;
        };
        match self.rows.rows().last() {
            Some(row) => !(row.0 < *bound),
            None => false,
        }
    }
}

/// Why rows that were handed in were not taken.
fn error_of(why: LoadRefused) -> ListError {
    match why {
        LoadRefused::Memory => ListError::Memory,
        LoadRefused::NotAscending(_) => ListError::Malformed,
    }
}

/// Whether the bytes end with the flag that more rows are after.
fn is_cut(bytes: &[u8]) -> bool {
    match bytes.last() {
        Some(flag) => *flag == 0,
        None => false,
    }
}

/// Pages are told by digests: of their rows only those are at hand that were asked for.
impl KeptRows<Vec<u8>, ByteValue> for Handed {
    type Error = HandedError;

    ghost rows = { λ handed. handed.rows.rows };

    fn are_at_hand(&self) -> bool {
        false
    }

    fn count(&self) -> Result<u64, HandedError> {
        Err(HandedError::Count)
    }

    fn add_value(&self, key: &Vec<u8>, bytes: &mut Vec<u8>) -> Result<bool, HandedError> {
        match self.rows.row_at(key) {
            Some(row) => {
                row.1.encode(bytes)?;
                Ok(true)
            }
            None => {
                if self.is_all {
                    return Ok(false);
                }
                Err(HandedError::Rows)
            }
        }
    }

    fn add_part(
        &self,
        most_bytes: usize,
        gap: &OwnedGap<Vec<u8>>,
        bytes: &mut Vec<u8>,
    ) -> Result<(), HandedError> {
        tell_part(self.rows.alloc(), self.rows.rows(), most_bytes, gap, bytes)?;
        if self.is_told(gap, bytes.as_slice()) {
            return Ok(());
        }
        Err(HandedError::Rows)
    }
}
