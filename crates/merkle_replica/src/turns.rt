//! Pulls by turns, by which two replicas come to hold the join of their maps.
ghost use Rattle.std.specs.Prelude.{◌≡◌, ◌<◌, IfOk, IfErr, length};
ghost use Rattle.merkle_tree_theory.specs.State.{SameSettings};
ghost use Rattle.merkle_replica.specs.ByTurns.{IsTurn, IsTurnRefused, HavePulledByTurns, StopInTurns};

use crate::pull::{PullError, Pulled};
use crate::replica::Replica;
use crate::row_hasher::RowHasher;
use key_order::Join;
use merkle_digest::Key;
use merkle_search_tree::laws::page_ranges_of_a_map;
use std::alloc::Global;

/// Why pulls by turns stopped: out of memory.
#[derive(Debug, Drop)]
pub struct TurnsError<K> {
    /// The pulls that were made, in order.
    pub finished: Vec<Pulled<K>>,
    /// What came in place of the next one.
    pub fault: PullError<K>,
}

/// One turn: a pull by `a`, or one by `b`.
fn turn<K: Key + Drop, V: Join + Drop, H: RowHasher<N, K, V>, const N: usize>(
    a: &mut Replica<K, V, H, N>,
    b: &mut Replica<K, V, H, N>,
    a_pulls: bool,
) -> Result<Pulled<K>, PullError<K>>
    ensures done { IfOk result (IsTurn H.laws a_pulls a.old b.old a.new b.new) }
    ensures refused { IfErr result (IsTurnRefused H.laws a_pulls a.old b.old a.new b.new) }
    ensures a_settings { SameSettings a.old.tree a.new.tree }
    ensures b_settings { SameSettings b.old.tree b.new.tree }
{
    if a_pulls {
        return a.pull(b);
    }
    b.pull(a)
}

/// Makes `n` pulls by turns, the first of them by `a`, and returns what they did. It costs what `n` pulls do
/// ([`Replica::pull`](crate::Replica::pull)), of which those after the fourth bring nothing new while digests don't collide. The memory
/// for the list of answers is taken first.
///
/// Four pulls or more leave both replicas with the join of their maps, while no digests collide: with fewer, a row of one replica
/// can be missing in the other. That holds of any two hashers, level bases and page formats; but only replicas that digest alike spare
/// each other what they share.
///
/// ```rust crates/examples/src/sync.rt
/// pull_by_turns(alloc, a, b, 4)?;
/// Ok(())
/// ```
///
/// # Errors
///
/// [`TurnsError`] if memory runs out: the pulls that were made, and what came in place of the next one. Where the list of answers
/// is refused, no pull is made, and the fault is [`PullError::Memory`].
pub fn pull_by_turns<K: Key + Drop, V: Join + Drop, H: RowHasher<N, K, V>, const N: usize>(
    alloc: Global,
    a: &mut Replica<K, V, H, N>,
    b: &mut Replica<K, V, H, N>,
    n: usize,
) -> Result<Vec<Pulled<K>>, TurnsError<K>>
    ensures length { IfOk result (λ pulled. length pulled.items ≡ n) }

    // The pulls by turns were made, and, convergence: where digests are faithful in the sides that were met, four turns or more leave
    // both with the join of their maps, whatever their hashers, level bases and page formats.
    ensures turns { IfOk result (HavePulledByTurns H.laws a.old b.old a.new b.new n) }

    // Stopped, it has made the pulls of `finished`, and then stands what the fault says.
    ensures stopped { IfErr result (StopInTurns H.laws a.old b.old a.new b.new) }
    ensures fewer { IfErr result (λ error. length error.finished.items < n) }

    ensures a_settings { SameSettings a.old.tree a.new.tree }
    ensures b_settings { SameSettings b.old.tree b.new.tree }
{
    a.rows_ascend();
    b.rows_ascend();
    page_ranges_of_a_map::<K, H, N>();
    let Ok(mut all) = Vec::with_capacity(alloc, n) else {
        return Err(TurnsError {
            finished: Vec::new(alloc),
            fault: PullError::Memory,
        });
    };
    let mut a_pulls = true;
    'turning: for _turn in 0..n {
        match turn(a, b, a_pulls) {
            Ok(pulled) => all.push_reserved(pulled),
            Err(fault) => {
                return Err(TurnsError {
                    finished: all,
                    fault,
                });
            }
        }
        a_pulls = !a_pulls;
    }
    Ok(all)
}
