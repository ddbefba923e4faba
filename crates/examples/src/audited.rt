//! Catch-ups that are known to leave the join, with no premise: it is decided first whether digests are faithful in the two replicas.
ghost use Rattle.std.specs.Prelude.{◌≡◌, IfErr, IfOk};
ghost use Rattle.merkle_tree_theory.specs.State.{SameSettings};
ghost use Rattle.examples.specs.Audited.{IsTrueOfAJoin, StopsAudited};

use merkle_audit::{are_faithful, is_faithful_session};
use merkle_bytes::Decode;
use merkle_digest::Key;
use merkle_replica::{CatchUpError, Join, Replica, RowHasher};
use merkle_wire::{MessagesError, catch_up_by_messages};
use std::alloc::Global;

/// Why an audited catch-up ended early.
#[derive(Clone, Copy, Debug, PartialEq, Eq, Drop)]
pub enum AuditedError {
    /// Out of memory in the audit. Nothing is joined.
    Audit,
    /// The catch-up ended early.
    CatchUp(MessagesError),
}

/// Catches up with a peer by messages, and returns whether the rows are known to be the join of both sides' rows then: where digests are
/// faithful before. It looks at all rows and pages of both for that.
///
/// # Errors
///
/// [`AuditedError`]
pub fn catch_up_audited<K: Key + Decode, V: Join + Decode, H: RowHasher<N, K, V>, const N: usize>(
    alloc: Global,
    replica: &mut Replica<K, V, H, N>,
    peer: &mut Replica<K, V, H, N>,
) -> Result<bool, AuditedError>
    ensures join { IfOk result (IsTrueOfAJoin H.laws replica.old peer.old replica.new) }
    ensures refused { IfErr result (StopsAudited H.laws replica.old peer.old replica.new) }
    ensures peer_rows { peer.new.rows ≡ peer.old.rows }
    ensures settings { SameSettings replica.old.tree replica.new.tree }
{
    let Ok(is_faithful) = is_faithful_session(alloc, replica, peer) else {
        return Err(AuditedError::Audit);
    };
    match catch_up_by_messages(alloc, replica, peer) {
        Ok(_) => Ok(is_faithful),
        Err(error) => Err(AuditedError::CatchUp(error)),
    }
}

/// The same of a catch-up with a peer at hand.
///
/// # Errors
///
/// [`CatchUpError`]: its `Memory` also if memory runs out in the audit.
pub fn catch_up_at_hand_audited<
    K: Key + Drop,
    V: Join + Drop,
    H: RowHasher<N, K, V>,
    const N: usize,
>(replica: &mut Replica<K, V, H, N>, peer: &mut Replica<K, V, H, N>) -> Result<bool, CatchUpError>
    ensures join { IfOk result (IsTrueOfAJoin H.laws replica.old peer.old replica.new) }
    ensures peer_rows { peer.new.rows ≡ peer.old.rows }
    ensures settings { SameSettings replica.old.tree replica.new.tree }
{
    let Ok(is_faithful) = are_faithful(replica, peer) else {
        return Err(CatchUpError::Memory);
    };
    replica.catch_up(peer)?;
    Ok(is_faithful)
}
