//! How two replicas come together.
ghost use Rattle.std.specs.Prelude.{◌≡◌, IfOk, IfErr, Some};
ghost use Rattle.key_order.specs.Order.{Same};
ghost use Rattle.merkle_tree_theory.specs.State.{SameSettings};
ghost use Rattle.main_theorem.specs.Course.{ComeTogether, IsExchangeDone, IsRunStopped};
ghost use Rattle.main_theorem.specs.Refusals.{run_text};

use merkle_digest::Key;
use merkle_replica::{
    CatchUpsError, CaughtUp, Join, Pulled, Replica, RowHasher, TurnsError, catch_up_both,
    pull_by_turns,
};
use std::alloc::Global;
use std::error::Error;
use std::fmt;

/// How two replicas are to come together.
#[derive(Clone, Copy, Debug, PartialEq, Eq)]
pub enum Exchange {
    /// Not at all.
    Apart,
    /// By this many pulls by turns.
    ByTurns(usize),
    /// By one catch-up each way.
    ByCatchUps,
}

/// What an exchange did.
#[derive(Debug, Drop)]
pub enum Exchanged<K> {
    /// Nothing.
    Nothing,
    /// The pulls by turns.
    Pulled(Vec<Pulled<K>>),
    /// The catch-up of the first replica, and then that of the second.
    CaughtUp(CaughtUp, CaughtUp),
}

/// Why there is no run to the end: out of memory. Both replicas are given up.
#[derive(Debug, Drop)]
pub enum RunRefused<K> {
    /// Before the exchange: for the clone of the hasher, for the answers, or for the copy of a tree.
    Before,
    /// In the pulls by turns.
    InTurns(TurnsError<K>),
    /// In a catch-up.
    InCatchUps(CatchUpsError),
}

/// Says where memory ran out.
impl<K> fmt::Display for RunRefused<K> {
    ghost output = { λ refused. Some (run_text refused) };

    fn fmt<W: fmt::Write>(&self, f: &mut fmt::Formatter<W>) -> fmt::Result {
        match self {
            RunRefused::Before => write!(f, "memory was refused before the exchange"),
            RunRefused::InTurns(error) => error.fmt(f),
            RunRefused::InCatchUps(error) => error.fmt(f),
        }
    }
}

impl<K: fmt::Debug + Drop> Error for RunRefused<K> {}

/// Brings two replicas together.
pub(crate) fn come_together<K: Key + Drop, V: Join + Drop, H: RowHasher<N, K, V>, const N: usize>(
    alloc: Global,
    a: &mut Replica<K, V, H, N>,
    b: &mut Replica<K, V, H, N>,
    exchange: Exchange,
) -> Result<Exchanged<K>, RunRefused<K>>
    ensures done { IfOk result (λ exchanged. IsExchangeDone exchange exchanged) }
    ensures converges { IfOk result (ComeTogether H.laws exchange a.old b.old a.new b.new) }
    ensures stopped { IfErr result (λ refused. IsRunStopped exchange refused) }
    ensures a_settings { SameSettings a.old.tree a.new.tree }
    ensures b_settings { SameSettings b.old.tree b.new.tree }
{
    match exchange {
        Exchange::Apart => Ok(Exchanged::Nothing),
        Exchange::ByTurns(n) => match pull_by_turns(alloc, a, b, n) {
            Ok(pulled) => Ok(Exchanged::Pulled(pulled)),
            Err(error) => Err(RunRefused::InTurns(error)),
        },
        Exchange::ByCatchUps => match catch_up_both(a, b) {
            Ok((first, second)) => Ok(Exchanged::CaughtUp(first, second)),
            Err(error) => Err(RunRefused::InCatchUps(error)),
        },
    }
}
