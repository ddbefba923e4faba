//! Catch-ups in both directions, by which two replicas come to hold the join of their maps.
ghost use Rattle.std.specs.Prelude.{◌≡◌, IfOk, IfErr, OnOk};
ghost use Rattle.merkle_tree_theory.specs.State.{SameSettings};
ghost use Rattle.merkle_replica.specs.CatchUp.{HaveCaughtUp, StopCatchingUp};
ghost use Rattle.merkle_replica.specs.Faithfully.{ConvergeWhileFaithful};

use crate::catch_up::{CatchUpError, CaughtUp};
use crate::replica::Replica;
use crate::row_hasher::RowHasher;
use key_order::Join;
use merkle_digest::Key;

/// Why catch-ups in both directions stopped: out of memory.
#[derive(Clone, Copy, Debug, PartialEq, Eq)]
pub enum CatchUpsError {
    /// In the first one.
    First(CatchUpError),
    /// In the second one, after this first one.
    Second(CaughtUp, CatchUpError),
}

/// `a` catches up with `b`, and then `b` with `a`. Both then hold the join of their maps, while digests are faithful in what is met
/// before each of the two. It costs what the two cost ([`Replica::catch_up`]). That holds of any two hashers, level bases and page
/// formats; but only replicas that digest alike spare each other what they share.
///
/// ```rust crates/examples/src/meeting.rt
/// catch_up_both(a, b)?;
/// Ok(())
/// ```
///
/// # Errors
///
/// [`CatchUpsError`] if memory runs out: then stands what the fault says.
pub fn catch_up_both<K: Key + Drop, V: Join + Drop, H: RowHasher<N, K, V>, const N: usize>(
    a: &mut Replica<K, V, H, N>,
    b: &mut Replica<K, V, H, N>,
) -> Result<(CaughtUp, CaughtUp), CatchUpsError>
    ensures done { IfOk result (HaveCaughtUp H.laws a.old b.old a.new b.new) }

    // While digests are faithful before each of them, both then hold the join.
    ensures join { OnOk result (ConvergeWhileFaithful H.laws a.old b.old a.new b.new) }

    ensures refused { IfErr result (StopCatchingUp H.laws a.old b.old a.new b.new) }

    ensures a_settings { SameSettings a.old.tree a.new.tree }
    ensures b_settings { SameSettings b.old.tree b.new.tree }
{
    let first = match a.catch_up(b) {
        Ok(first) => first,
        Err(fault) => return Err(CatchUpsError::First(fault)),
    };
    match b.catch_up(a) {
        Ok(second) => Ok((first, second)),
        Err(fault) => Err(CatchUpsError::Second(first, fault)),
    }
}
