//! The best of several rounds.

ghost use Rattle.std.specs.Prelude.{◌≡◌, ◌^◌, ◌-◌, ◌*◌, ◌/◌, ℕ, min, max};
ghost use Rattle.mst_bench.specs.Times.{rounds_of};

use crate::fault::Fault;
use std::fmt;
use std::marker::Model;
use std::rt::Clock;
use std::time::{Duration, Instant};

/// The time now.
pub fn now<R: Clock>(rt: &R) -> Result<Instant, Fault> {
    Instant::now(rt).map_err(|_| Fault::Clock)
}

/// The least time of several rounds, in nanoseconds, which a contract sees as a number.
#[derive(Drop)]
pub struct Best {
    nanoseconds: u64,
}

impl Model for Best {
    ghost Value = { ℕ };

    ghost view = { λ best. best.nanoseconds };
}

impl Best {
    /// The best of no rounds: the greatest time there is.
    pub fn new() -> Self
        ensures { result ≡ 2 ^ 64 - 1 }
    {
        Best {
            nanoseconds: u64::MAX,
        }
    }

    /// Notes the time of a round.
    fn note(&mut self, nanoseconds: u64)
        ensures { self.new ≡ min self.old nanoseconds }
    {
        if nanoseconds < self.nanoseconds {
            self.nanoseconds = nanoseconds;
        }
    }

    /// Notes the time of a round that began at `start` and ends now.
    pub fn note_since<R: Clock>(&mut self, rt: &R, start: Instant) -> Result<(), Fault> {
        let time = start.elapsed(rt).map_err(|_| Fault::Clock)?;
        self.note(nanoseconds(time));
        Ok(())
    }

    /// The best time for each of `count` things.
    pub fn each(&self, count: usize) -> Each
        ensures { result ≡ self.now * 100 / max count 1 }
    {
        Each {
            hundredths: u128::from(self.nanoseconds) * 100 / (at_least_one(count) as u128),
        }
    }
}

/// The nanoseconds of the time, or the greatest number there is where they are more.
fn nanoseconds(time: Duration) -> u64 {
    u64::try_from(time.as_nanos()).unwrap_or(u64::MAX)
}

/// Nanoseconds with two digits after the point, which a contract sees as a number of hundredths.
#[derive(Drop)]
pub struct Each {
    hundredths: u128,
}

impl Model for Each {
    ghost Value = { ℕ };

    ghost view = { λ each. each.hundredths };
}

impl fmt::Display for Each {
    fn fmt<W: fmt::Write>(&self, f: &mut fmt::Formatter<W>) -> fmt::Result {
        let whole = self.hundredths / 100;
        let rest = self.hundredths % 100;
        write!(f, "{whole}.{rest:02}")
    }
}

/// The count, but at least 1.
fn at_least_one(count: usize) -> usize
    ensures { result ≡ max count 1 }
{
    if count == 0 { 1 } else { count }
}

/// How many rounds are made of `count` things: 400,000 things in all, but at least 3 rounds and at most 200.
pub fn rounds(count: usize) -> usize
    ensures { result ≡ rounds_of count }
{
    let rounds = 400_000 / at_least_one(count);
    if rounds < 3 {
        3
    } else if rounds > 200 {
        200
    } else {
        rounds
    }
}
