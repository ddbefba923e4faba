//! What errors say.

ghost use Rattle.std.specs.Prelude.{Some};
ghost use Rattle.merkle_search_tree.specs.Loading.{refusal_text};
ghost use Rattle.merkle_replica.specs.Faults.{cut_text, pull_text, turns_text, join_text, catch_up_text};
ghost use Rattle.merkle_replica.specs.Faults.{catch_ups_text, catch_up_all_text};

use crate::both_ways::CatchUpsError;
use crate::catch_up::CatchUpError;
use crate::gossip::CatchUpAllError;
use crate::pull::PullError;
use crate::puts::PutsCut;
use crate::replica::RowsRefused;
use crate::steps::JoinRefused;
use crate::turns::TurnsError;
use std::error::Error;
use std::fmt;

/// Says that memory ran out, and how many rows were joined before.
impl<K> fmt::Display for PullError<K> {
    ghost output = { λ error. Some (pull_text error) };

    fn fmt<W: fmt::Write>(&self, f: &mut fmt::Formatter<W>) -> fmt::Result {
        match self {
            PullError::Memory => write!(f, "memory was refused before a row was joined"),
            PullError::Partly { pulled, done } => {
                write!(
                    f,
                    "memory was refused after {done} of {} rows",
                    pulled.joined
                )
            }
        }
    }
}

impl<K: fmt::Debug + Drop> Error for PullError<K> {}

/// Says how many pulls were made before the one that was refused, and what that one says.
impl<K> fmt::Display for TurnsError<K> {
    ghost output = { λ error. Some (turns_text error) };

    fn fmt<W: fmt::Write>(&self, f: &mut fmt::Formatter<W>) -> fmt::Result {
        write!(f, "after {} pulls {}", self.finished.len(), self.fault)
    }
}

impl<K: fmt::Debug + Drop> Error for TurnsError<K> {}

/// Says that memory ran out, or which row doesn't ascend.
impl<K, V> fmt::Display for RowsRefused<K, V> {
    ghost output = { λ refused. Some (refusal_text refused.why) };

    fn fmt<W: fmt::Write>(&self, f: &mut fmt::Formatter<W>) -> fmt::Result {
        self.why.fmt(f)
    }
}

impl<K: fmt::Debug + Drop, V: fmt::Debug + Drop> Error for RowsRefused<K, V> {}

/// Says that memory ran out, and how many rows were put before.
impl fmt::Display for PutsCut {
    ghost output = { λ cut. Some (cut_text cut.done) };

    fn fmt<W: fmt::Write>(&self, f: &mut fmt::Formatter<W>) -> fmt::Result {
        write!(f, "memory was refused after {} rows", self.done)
    }
}

impl Error for PutsCut {}

/// Says that the rows don't ascend, or how many were joined before memory ran out.
impl<K, V> fmt::Display for JoinRefused<K, V> {
    ghost output = { λ refused. Some (join_text refused) };

    fn fmt<W: fmt::Write>(&self, f: &mut fmt::Formatter<W>) -> fmt::Result {
        match self {
            JoinRefused::NotAscending(_) => write!(
                f,
                "a key isn't above the one before it, and no row was joined"
            ),
            JoinRefused::Memory(done) => write!(f, "memory was refused after {done} rows"),
        }
    }
}

impl<K: fmt::Debug + Drop, V: fmt::Debug + Drop> Error for JoinRefused<K, V> {}

/// Says that memory ran out, and how many rows were joined before.
impl fmt::Display for CatchUpError {
    ghost output = { λ error. Some (catch_up_text error) };

    fn fmt<W: fmt::Write>(&self, f: &mut fmt::Formatter<W>) -> fmt::Result {
        match self {
            CatchUpError::Memory => write!(f, "memory was refused before a row was joined"),
            CatchUpError::Partly { done, lacked } => {
                write!(f, "memory was refused after {done} of {lacked} rows")
            }
        }
    }
}

impl Error for CatchUpError {}

/// Says which catch-up was refused, and what that one says.
impl fmt::Display for CatchUpsError {
    ghost output = { λ error. Some (catch_ups_text error) };

    fn fmt<W: fmt::Write>(&self, f: &mut fmt::Formatter<W>) -> fmt::Result {
        match self {
            CatchUpsError::First(fault) => write!(f, "in the first catch-up {fault}"),
            CatchUpsError::Second(_, fault) => write!(f, "in the second catch-up {fault}"),
        }
    }
}

impl Error for CatchUpsError {}

/// Says which catch-up was refused, how many of its kind were made before, and what that one says.
impl fmt::Display for CatchUpAllError {
    ghost output = { λ error. Some (catch_up_all_text error) };

    fn fmt<W: fmt::Write>(&self, f: &mut fmt::Formatter<W>) -> fmt::Result {
        match self {
            CatchUpAllError::Gathering { done, fault } => {
                write!(f, "after {done} catch-ups by the hub ")?;
                fault.fmt(f)
            }
            CatchUpAllError::Spreading { done, fault } => {
                write!(f, "after {done} catch-ups with the hub ")?;
                fault.fmt(f)
            }
        }
    }
}

impl Error for CatchUpAllError {}
