//! The statuses that calls on messages answer, as C sees them.
ghost use Rattle.std.specs.Prelude.{◌≡◌, ◌⊎◌};
ghost use Rattle.c_rows.specs.Ends.{early_status};

use c_values::status::{MALFORMED, MEMORY};
use merkle_wire::SessionError;

/// The peer that asks has other settings.
pub const OTHER_SETTINGS: u32 = 6;
/// The peer refused what was asked.
pub const REFUSED: u32 = 7;

/// The status of a catch-up that ended early: `MEMORY`, `REFUSED` where the peer refused what was asked, and else `MALFORMED`.
pub fn status_of(error: &SessionError) -> u32
    ensures early { (result ≡ 1) ⊎ (result ≡ 2) ⊎ (result ≡ 7) }
    ensures status { result ≡ early_status error.now }
{
    match error {
        SessionError::Memory => MEMORY,
        SessionError::Refused => REFUSED,
        _ => MALFORMED,
    }
}
