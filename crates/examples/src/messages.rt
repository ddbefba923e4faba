//! Gossip through messages: a hub takes the news of the others, one after the other, and then each of them takes its news.
ghost use Rattle.std.specs.Prelude.{◌≡◌, OnOk, IfErr, length, map};
ghost use Rattle.std.specs.List.{AllByRecursion};
ghost use Rattle.key_order.specs.Map.{IsMap};
ghost use Rattle.merkle_replica.specs.Contents.{side};
ghost use Rattle.examples.specs.GossipMessages.{AllGather, AllSpread, IsGossipJoined, StopsGathering, StopsSpreading, StopsGossipByMessages};

use merkle_bytes::Decode;
use merkle_digest::Key;
use merkle_replica::laws::gossip_joins_what_came;
use merkle_replica::{Join, Replica, RowHasher};
use merkle_wire::{MessagesError, catch_up_by_messages};
use std::alloc::Global;

/// Where sessions stopped.
#[derive(Clone, Copy, Debug, PartialEq, Eq)]
pub struct Stopped {
    /// How many sessions were made before.
    pub done: usize,
    /// Why the next one ended early.
    pub fault: MessagesError,
}

/// Why gossip stopped.
#[derive(Clone, Copy, Debug, PartialEq, Eq)]
pub enum GossipError {
    /// In a session by the hub.
    Gathering(Stopped),
    /// In a session with the hub, after all by the hub.
    Spreading(Stopped),
}

/// Brings replicas to one map by messages: the hub catches up with each of the others, and then each of the others with the hub. While digests
/// are faithful in what is met before each session, all then hold the join of all their maps.
///
/// # Errors
///
/// [`GossipError`]: the sessions that were made until then stay.
pub fn gossip_by_messages<K: Key + Decode, V: Join + Decode, H: RowHasher<N, K, V>, const N: usize>(
    alloc: Global,
    hub: &mut Replica<K, V, H, N>,
    others: &mut [Replica<K, V, H, N>],
) -> Result<(), GossipError>
    ensures join { OnOk result (IsGossipJoined H.laws hub.old others.old hub.new others.new) }
    ensures stopped { IfErr result (StopsGossipByMessages H.laws hub.old others.old hub.new others.new) }
    ensures len { length others.new ≡ length others.old }
{
    gossip_joins_what_came::<K, V, H, N>();
    let _ = hub.rows();
    if let Err(stopped) = gather(alloc, hub, others) {
        return Err(GossipError::Gathering(stopped));
    }
    match spread(alloc, hub, others) {
        Ok(()) => Ok(()),
        Err(stopped) => Err(GossipError::Spreading(stopped)),
    }
}

/// The hub catches up with each of the others.
fn gather<K: Key + Decode, V: Join + Decode, H: RowHasher<N, K, V>, const N: usize>(
    alloc: Global,
    hub: &mut Replica<K, V, H, N>,
    others: &mut [Replica<K, V, H, N>],
) -> Result<(), Stopped>
    ensures sessions { OnOk result (AllGather H.laws hub.old others.old hub.new others.new) }
    ensures ascending { OnOk result (AllByRecursion (λ s. IsMap K.cmp s.rows) (map side others.old)) }
    ensures stopped { IfErr result (StopsGathering H.laws hub.old others.old hub.new others.new) }
    ensures len { length others.new ≡ length others.old }
{
    'gathering: for i in 0..others.len() {
        let _ = others[i].rows();
        match catch_up_by_messages(alloc, hub, &mut others[i]) {
            Ok(_) => {}
            Err(fault) => return Err(Stopped { done: i, fault }),
        }
    }
    Ok(())
}

/// Each of the others catches up with the hub.
fn spread<K: Key + Decode, V: Join + Decode, H: RowHasher<N, K, V>, const N: usize>(
    alloc: Global,
    hub: &mut Replica<K, V, H, N>,
    others: &mut [Replica<K, V, H, N>],
) -> Result<(), Stopped>
    ensures sessions { OnOk result (AllSpread H.laws hub.old others.old hub.new others.new) }
    ensures stopped { IfErr result (StopsSpreading H.laws hub.old others.old hub.new others.new) }
    ensures len { length others.new ≡ length others.old }
{
    'spreading: for i in 0..others.len() {
        match catch_up_by_messages(alloc, &mut others[i], hub) {
            Ok(_) => {}
            Err(fault) => return Err(Stopped { done: i, fault }),
        }
    }
    Ok(())
}
