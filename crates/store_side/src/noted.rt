//! The rows of a file that contracts speak of.
ghost use Rattle.std.specs.Borrow.{ftrue};
ghost use Rattle.store_rows.specs.Digests.{TextRows};
ghost use Rattle.store_side.specs.FileTrees.{IsFile, IsFileOf};

use merkle_wire::{KeptRows, OwnedGap};
use sqlite_trees::store::Store;
use std::alloc::AllocError;
use std::marker::Model;
use store_file::Register;
use store_rows::LatestDigests;

/// The rows of a file, for contracts alone: it takes no bytes.
#[derive(Drop)]
pub(crate) struct Noted {
    pub(crate) ghost rows: { TextRows },
}

impl Model for Noted {
    ghost also_owns = { λ _. ftrue };
}

/// The rows of a file.
pub(crate) fn note<S: Store>(_digests: &LatestDigests, _trees: &S) -> Noted
    requires file { IsFile S.Store _digests.now _trees.now }
    ensures noted { IsFileOf _digests.now result.rows S.Store _trees.now }
{
    Noted {}
}

/// None of them is at hand, so pages are told by digests. No question for rows is answered by it.
impl KeptRows<String, Register> for Noted {
    type Error = AllocError;

    ghost rows = { λ noted. noted.rows };

    fn are_at_hand(&self) -> bool {
        false
    }

    fn count(&self) -> Result<u64, AllocError> {
        Err(AllocError)
    }

    fn add_value(&self, _key: &String, _bytes: &mut Vec<u8>) -> Result<bool, AllocError> {
        Err(AllocError)
    }

    fn add_part(
        &self,
        _most_bytes: usize,
        _gap: &OwnedGap<String>,
        _bytes: &mut Vec<u8>,
    ) -> Result<(), AllocError> {
        Err(AllocError)
    }
}
