//! The time of writes.
ghost use Rattle.std.specs.Prelude.{◌≡◌, ◌+◌, min, if◌then◌else◌};

use crate::fault::Fault;
use std::time::{SystemTime, UNIX_EPOCH};

/// How far ahead of the clock, in milliseconds, the time of an entry of another copy may be: a day.
pub const AHEAD: u64 = 86_400_000;

/// Milliseconds since 1970.
pub fn now(rt: &HostRuntime) -> Result<u64, Fault> {
    let Ok(time) = SystemTime::now(rt) else {
        return Err(Fault::System);
    };
    match time.duration_since(UNIX_EPOCH) {
        Ok(since) => match u64::try_from(since.as_millis()) {
            Ok(milliseconds) => Ok(milliseconds),
            Err(_) => Err(Fault::System),
        },
        Err(_) => Err(Fault::System),
    }
}

/// The latest time that an entry of another copy may have: a day ahead of the clock, unless any is taken.
pub fn latest(now: u64, any: bool) -> u64
    ensures { result ≡ (if any then u64.MAX else min (now + AHEAD) u64.MAX) }
{
    if any {
        u64::MAX
    } else {
        now.saturating_add(AHEAD)
    }
}
