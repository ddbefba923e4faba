//! An exchange of messages between two sides whose rows are kept elsewhere.
ghost use Rattle.std.specs.Prelude.{◌≡◌, IfOk};
ghost use Rattle.examples.specs.Exchanging.{IsExchangeOf};
ghost use Rattle.merkle_tree_theory.specs.State.{SameSettings, map_of};
ghost use Rattle.merkle_wire.specs.Questions.{question_bytes};
ghost use Rattle.merkle_wire.specs.ItsRows.{digests_of, side_of, AreDigestsOf};

use merkle_bytes::Decode;
use merkle_digest::Key;
use merkle_replica::{Join, RowHasher};
use merkle_search_tree::MerkleSearchTree;
use merkle_search_tree::laws::every_tree_is_sound;
use merkle_wire::{
    CatchingUp, KeptError, KeptRows, KeptTree, MOST_BYTES, Next, TakeError, answer_by,
};
use std::alloc::Global;

/// Why an exchange came to nothing.
#[derive(Drop)]
pub enum ExchangeError<E, F> {
    /// The peer has no reply.
    Answer(KeptError<E>),
    /// Its reply was refused, or the tree of the other side couldn't be read.
    Take(TakeError<F>),
}

/// The peer answers a message by its tree and its rows, and the other side takes the reply by its tree, wherever that is kept. It is an exchange of a
/// session, as [`merkle_wire::laws`] speak of them, whatever the rows of the side that takes it.
pub fn exchange_by_trees<
    K: Key + Decode,
    V: Join + Decode,
    H: RowHasher<N, K, V>,
    R: KeptRows<K, V>,
    T: KeptTree<N, K, V, H>,
    const N: usize,
>(
    alloc: Global,
    local: &mut T,
    count: u64,
    peer: &mut MerkleSearchTree<K, V, H, N>,
    rows: &R,
    session: CatchingUp<K, V>,
    message: &[u8],
) -> Result<Next<K, V>, ExchangeError<R::Error, T::Error>>
    requires asks { message.now ≡ question_bytes K.encoding session.asked }
    requires digests { AreDigestsOf H.laws (digests_of peer.old) (R.rows rows.now) }
    ensures exchanged { T.is_sound local.new → IfOk result (IsExchangeOf H.laws N K.encoding V.encoding (T.kept local.old)
        (side_of (digests_of peer.old) (R.rows rows.now)) session) }
    ensures kept { T.is_sound local.new → T.kept local.new ≡ T.kept local.old }
    ensures steady { T.is_sound local.new → T.is_sound local.old }
    ensures peer_map { map_of peer.new ≡ map_of peer.old }
    ensures peer_settings { SameSettings peer.old peer.new }
{
    let reply = match answer_by(alloc, peer, rows, message, MOST_BYTES) {
        Ok(reply) => reply,
        Err(error) => return Err(ExchangeError::Answer(error)),
    };
    every_tree_is_sound(peer);
    match session.take_by(local, count, &reply) {
        Ok(next) => Ok(next),
        Err(error) => Err(ExchangeError::Take(error)),
    }
}
