//! Replicas that are kept anywhere: sides with the tree of their own rows, which answer, and those that ask.
ghost use Rattle.std.specs.Prelude.{◌≡◌};
ghost use Rattle.merkle_replica.specs.Contents.{Contents, IsTreeOfSide, side};
ghost use Rattle.merkle_wire.specs.ItsRows.{AreDigestsOf, side_of};

use crate::catching_up::CatchingUp;
use crate::kept_side::KeptSide;
use crate::kept_tree::KeptTree;
use merkle_bytes::{Decode, Encode};
use merkle_digest::Key;
use merkle_replica::{Join, Replica, RowHasher};
use merkle_search_tree::laws::every_tree_is_sound;
use std::alloc::AllocError;

/// A side that answers, with its rows and the tree of their digests, wherever they are kept: [`Replica`] is one in memory.
pub trait KeptReplica<
    const N: usize,
    K: Key + Encode,
    V: Join + Encode,
    H: RowHasher<N, K, V>,
>: KeptSide<N, K, V, H, ()> {
    /// The tree is that of the digests of the rows. The call has no effect.
    fn has_its_tree(&self)
        ensures { IsTreeOfSide H.laws (side (Self.contents self.now tt)) (Self.contents self.now tt).tree.root };
}

/// A side that asks by the digests of its rows, wherever they are kept, and can tell what it would reply itself: [`Replica`] is one in memory.
///
/// What is asked of it changes nothing of what it keeps. What a call says of that, it says if the side is sound after it (`is_sound`).
pub trait AskingReplica<
    const N: usize,
    K: Key + Decode,
    V: Join + Decode,
    H: RowHasher<N, K, V>,
>: KeptTree<N, K, V, H> {
    /// The rows, in ascending key order, and the tree.
    ghost whole: { Self → Contents K V H };

    /// The digests by which it asks are those of the rows, under the settings of the tree. The call has no effect.
    fn asks_by_its_rows(&self)
        ensures digests { AreDigestsOf H.laws (Self.kept self.now).digests (whole self.now).rows }
        ensures settings { side_of (Self.kept self.now).digests (whole self.now).rows ≡ side (whole self.now) };

    /// About how many rows there are.
    fn row_count(&mut self) -> Result<u64, Self::Error>
        ensures kept { Self.is_sound self.new → Self.kept self.new ≡ Self.kept self.old }
        ensures steady { Self.is_sound self.new → Self.is_sound self.old };

    /// What the side itself would reply to the question of a catch-up, as [`CatchingUp::own_reply_by`] says.
    fn own_reply_to(
        &mut self,
        session: &CatchingUp<K, V>,
        with_rows: bool,
    ) -> Result<Option<Vec<u8>>, Self::Error>
        ensures kept { Self.is_sound self.new → Self.kept self.new ≡ Self.kept self.old }
        ensures steady { Self.is_sound self.new → Self.is_sound self.old };
}

/// A replica in memory.
impl<
    const N: usize,
    K: Key + Encode + Drop,
    V: Join + Encode + Drop,
    H: RowHasher<N, K, V>,
> KeptReplica<N, K, V, H> for Replica<K, V, H, N> {
    fn has_its_tree(&self) {
        every_tree_is_sound(self.tree());
    }
}

/// A replica in memory.
impl<
    const N: usize,
    K: Key + Decode + Drop,
    V: Join + Decode + Drop,
    H: RowHasher<N, K, V>,
> AskingReplica<N, K, V, H> for Replica<K, V, H, N> {
    ghost whole = { λ replica. replica };

    fn asks_by_its_rows(&self) {
        let _ = self.tree();
    }

    fn row_count(&mut self) -> Result<u64, AllocError> {
        Ok(self.rows().len() as u64)
    }

    fn own_reply_to(
        &mut self,
        session: &CatchingUp<K, V>,
        with_rows: bool,
    ) -> Result<Option<Vec<u8>>, AllocError> {
        session.own_reply_by(self, &(), with_rows)
    }
}
