//! A side that counts the rows that it tells a peer.
ghost use Rattle.std.specs.Prelude.{◌≡◌};

use merkle_bytes::{Encode, Reader};
use merkle_digest::{Key, PageDigest};
use merkle_replica::{Join, RowHasher};
use merkle_wire::{KeptReplica, KeptSide, OwnedGap, Settings, Telling};
use std::alloc::Global;
use std::marker::Model;

/// The byte before the rows of a page that is told by its rows.
const BY_ROWS: u8 = 0;

/// A side that answers as another does, and counts the rows that it tells, whether the peer has them or not.
#[derive(Drop)]
pub struct Counting<S> {
    alloc: Global,
    pub(crate) side: S,
    rows: u64,
}

impl<S> Model for Counting<S> {
    ghost Value = { S };

    ghost coded = { S.code };

    ghost view = { λ counting. counting.side };
}

impl<S> Counting<S> {
    /// The side, which has told nothing.
    pub fn new(alloc: Global, side: S) -> Self
        ensures { result ≡ side }
    {
        Counting {
            alloc,
            side,
            rows: 0,
        }
    }

    /// The side.
    pub fn side(&self) -> &S
        ensures { result.now ≡ self.now }
    {
        &self.side
    }

    /// The side, and how many rows it has told.
    pub fn into_parts(self) -> (S, u64)
        ensures { result.0 ≡ self }
    {
        let Counting { side, rows, .. } = self;
        (side, rows)
    }

    /// Counts the rows whose number stands in bytes from this place on.
    fn count_at(&mut self, bytes: &[u8], at: usize)
        ensures { self.new ≡ self.old }
    {
        if let Some(told) = bytes.get(at..) {
            let rows = Reader::new(self.alloc, told).count().unwrap_or(0);
            self.rows = self.rows.saturating_add(rows);
        }
    }
}

impl<
    const N: usize,
    K: Key + Encode,
    V: Join + Encode,
    H: RowHasher<N, K, V>,
    S: KeptSide<N, K, V, H, R>,
    R,
> KeptSide<N, K, V, H, R> for Counting<S> {
    type Error = S::Error;

    ghost contents = { S.contents };

    ghost is_sound = { S.is_sound };

    fn has_settings(&self, beside: &R, settings: &Settings<K>) -> bool {
        self.side.has_settings(beside, settings)
    }

    fn hash(&mut self, beside: &R) -> Result<(), S::Error> {
        self.side.hash(beside)
    }

    fn count(&mut self, beside: &R) -> Result<u64, S::Error> {
        self.side.count(beside)
    }

    fn root_digest(&mut self, beside: &R) -> Result<Option<PageDigest>, S::Error> {
        self.side.root_digest(beside)
    }

    fn tell_page(
        &mut self,
        alloc: Global,
        beside: &R,
        telling: Telling,
        gap: &OwnedGap<K>,
        bytes: &mut Vec<u8>,
    ) -> Result<(), S::Error> {
        let begun = bytes.len();
        self.side.tell_page(alloc, beside, telling, gap, bytes)?;
        if bytes.get(begun) == Some(&BY_ROWS) {
            self.count_at(bytes, begun.saturating_add(1));
        }
        Ok(())
    }

    fn add_value(&mut self, beside: &R, key: &K, bytes: &mut Vec<u8>) -> Result<bool, S::Error> {
        let is_there = self.side.add_value(beside, key, bytes)?;
        if is_there {
            self.rows = self.rows.saturating_add(1);
        }
        Ok(is_there)
    }

    fn add_part(
        &mut self,
        beside: &R,
        most_bytes: usize,
        gap: &OwnedGap<K>,
        bytes: &mut Vec<u8>,
    ) -> Result<(), S::Error> {
        let begun = bytes.len();
        self.side.add_part(beside, most_bytes, gap, bytes)?;
        self.count_at(bytes, begun);
        Ok(())
    }
}

impl<
    const N: usize,
    K: Key + Encode,
    V: Join + Encode,
    H: RowHasher<N, K, V>,
    S: KeptReplica<N, K, V, H>,
> KeptReplica<N, K, V, H> for Counting<S> {
    fn has_its_tree(&self) {
        self.side.has_its_tree();
    }
}
