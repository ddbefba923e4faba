//! Catch-ups among any number of replicas, by which all come to hold the join of their maps.
ghost use Rattle.std.specs.Prelude.{◌≡◌, OnOk, IfErr, length};
ghost use Rattle.key_order.specs.Order.{Same};
ghost use Rattle.merkle_replica.specs.Gossip.{AllCatchUp, StopsCatchUps};

use crate::catch_up::CatchUpError;
use crate::replica::Replica;
use crate::row_hasher::RowHasher;
use key_order::Join;
use merkle_digest::Key;

/// Why catch-ups of all stopped: out of memory.
#[derive(Clone, Copy, Debug, PartialEq, Eq)]
pub enum CatchUpAllError {
    /// In a catch-up by the hub.
    Gathering {
        /// How many catch-ups by the hub were made before.
        done: usize,
        /// What came in place of the next one.
        fault: CatchUpError,
    },
    /// In a catch-up with the hub.
    Spreading {
        /// How many catch-ups with the hub were made before, after all by the hub.
        done: usize,
        /// What came in place of the next one.
        fault: CatchUpError,
    },
}

/// Brings any number of replicas to one map: the hub catches up with each of the others, and then each of the others with the hub. All
/// then hold the join of all their maps, while digests are faithful in what is met before each catch-up. It costs what two catch-ups for
/// each of the others do, and takes no memory of its own. That holds of any hashers, level bases and page formats; but only replicas that
/// digest alike spare each other what they share.
///
/// Other orders of catch-ups serve too, as long as the news of each can come to each
/// ([`gossip_joins_what_came`](crate::laws::gossip_joins_what_came)).
///
/// ```rust crates/merkle_replica_tests/src/hubs.rt
/// catch_up_all(hub, others).is_ok()
/// ```
///
/// # Errors
///
/// [`CatchUpAllError`] if memory runs out: the catch-ups that were made until then stay.
pub fn catch_up_all<K: Key + Drop, V: Join + Drop, H: RowHasher<N, K, V>, const N: usize>(
    hub: &mut Replica<K, V, H, N>,
    others: &mut [Replica<K, V, H, N>],
) -> Result<(), CatchUpAllError>

    // The hub caught up with each of the others, and then each of them with the hub. While digests are faithful in what is met before each
    // catch-up, all then hold the join of all maps.
    ensures join { OnOk result (AllCatchUp H.laws hub.old others.old hub.new others.new) }

    // Stopped, the first of these catch-ups were made, and then stands what the fault says.
    ensures stopped { IfErr result (StopsCatchUps H.laws hub.old others.old hub.new others.new) }
    ensures len { length others.new ≡ length others.old }
{
    hub.rows_ascend();
    'gathering: for i in 0..others.len() {
        others[i].rows_ascend();
        match hub.catch_up(&mut others[i]) {
            Ok(_) => {}
            Err(fault) => return Err(CatchUpAllError::Gathering { done: i, fault }),
        }
    }
    'spreading: for i in 0..others.len() {
        match others[i].catch_up(hub) {
            Ok(_) => {}
            Err(fault) => return Err(CatchUpAllError::Spreading { done: i, fault }),
        }
    }
    Ok(())
}
