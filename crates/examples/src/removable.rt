//! Values that can be removed: a value of its own with a `bool`, of which the later stays by its derived order.
ghost use Rattle.std.specs.Prelude.{◌≡◌, true, OnOk, OnErr};
ghost use Rattle.merkle_digest.specs.Sip24.{Holds};
ghost use Rattle.merkle_tree_theory.specs.State.{SameSettings};
ghost use Rattle.merkle_replica.specs.Puts.{HasPut};

use crate::store::Store;
use merkle_digest::{HashBytes, Sip24, SipHasher};
use merkle_replica::{Join, RowHasher};
use std::alloc::{AllocError, Global};

/// What was written last: at this time, whether that was a removal, and the value. Of two the one with the greater time is the later; at
/// one time it is the removal, and else the greater value.
#[derive(Clone, Copy, Debug, PartialEq, Eq, PartialOrd, Ord)]
pub struct Removable {
    pub time: u64,
    pub removed: bool,
    pub value: u64,
}

/// The time in eight bytes, 1 for a removal or 0, and the value in eight bytes.
impl HashBytes for Removable {
    ghost use Rattle.examples.specs.Removable.{removable_bytes};
    ghost use Rattle.examples.specs.RemovableLaws.{same_removable_bytes};

    ghost fed_bytes = { removable_bytes };

    ghost fed_bytes_respect_eq = { same_removable_bytes };

    fn feed(&self, sip: &mut Sip24) {
        self.time.feed(sip);
        self.removed.feed(sip);
        self.value.feed(sip);
    }
}

/// The later of the two. It takes no memory.
impl Join for Removable {
    ghost use Rattle.std.specs.Ordering.{ord_max};
    ghost use Rattle.key_order.proofs.Greater.{greater_joining};
    ghost use Rattle.examples.specs.contracts.removable.RemovableOrd.TheImpl.Laws.{total-law, matches_eq-law};

    ghost join_of = { ord_max ⟦<Removable as Ord>⟧.cmp };

    ghost joining = { greater_joining ⟦<Removable as Ord>⟧.cmp total-law ⟦<Removable as PartialEq>⟧.eq matches_eq-law };

    fn join(&self, _alloc: Global, other: &Self) -> Result<Self, AllocError> {
        Ok((*self).max(*other))
    }
}

/// Removes a name at a time: it is joined with a removal, which stays where nothing was written at a later time. So a removal reaches
/// each peer, as `Replica::del` doesn't.
///
/// # Errors
///
/// Out of memory: the store is as it was.
pub fn remove(store: &mut Store<Removable>, name: String, time: u64) -> Result<(), AllocError>
    ensures joined { OnOk result (HasPut ⟦<SipHasher as RowHasher<16, String, Removable>>⟧.laws store.old
        (name, record { time = time; removed = true; value = 0 }) store.new) }
    ensures unchanged { OnErr result (store.new ≡ store.old) }
    ensures settings { SameSettings store.old.tree store.new.tree }
{
    store.put(
        name,
        Removable {
            time,
            removed: true,
            value: 0,
        },
    )
}
