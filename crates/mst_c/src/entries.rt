//! Calls that go through the entries of a list, where they lie.

ghost use Rattle.std.specs.Prelude.{◌≡◌, ◌≢◌, ◌↔◌, ◌⊎◌, ◌<◌, length, true, false};
ghost use Rattle.c_trees.specs.Spots.{HasFront, HasNoEntryAt, IsAfterLast, IsEntryAt, IsReadable};

use c_trees::entries::{MstSpot, next};

/// Writes where the parts of the range at `at` lie, and moves `at` after it. An `at` of 0 is the first one, and there the whole
/// list is read once to see that it is one of page ranges or of key ranges.
///
/// `DONE`; `MALFORMED` where a mark and a number don't stand in front, where `at` is 0 and the whole is no list, or where `at` is within
/// the list and no entry of the mark's kind begins there; `ABSENT` after the last entry; `ARGUMENT` where `at` is beyond the end. Where it isn't `DONE`, `at` and
/// `spot` are as before.
#[unsafe(no_mangle)]
pub extern "C" fn mst_proved_ranges_next(list: &[u8], at: &mut usize, spot: &mut MstSpot) -> u32
    ensures entry { result ≡ 0 → IsEntryAt false list.now at.old at.new spot.new }
    ensures readable { result ≢ 2 → IsReadable false list.now at.old }
    ensures malformed { result ≡ 2 → HasNoEntryAt false list.now at.old }
    ensures argument { HasFront false list.now → (result ≡ 4) ↔ (length list.now < at.old) }
    ensures absent { result ≡ 5 → IsAfterLast list.now at.old }
    ensures at_end { HasFront false list.now → at.old ≡ length list.now → result ≡ 5 }
    ensures unchanged { result ≢ 0 → (at.new ≡ at.old) × (spot.new ≡ spot.old) }
    ensures status { (result ≡ 0) ⊎ (result ≡ 2) ⊎ (result ≡ 4) ⊎ (result ≡ 5) }
{
    next(false, list, at, spot)
}

/// The same of a list of rows or of digests.
#[unsafe(no_mangle)]
pub extern "C" fn mst_proved_rows_next(list: &[u8], at: &mut usize, spot: &mut MstSpot) -> u32
    ensures entry { result ≡ 0 → IsEntryAt true list.now at.old at.new spot.new }
    ensures readable { result ≢ 2 → IsReadable true list.now at.old }
    ensures malformed { result ≡ 2 → HasNoEntryAt true list.now at.old }
    ensures argument { HasFront true list.now → (result ≡ 4) ↔ (length list.now < at.old) }
    ensures absent { result ≡ 5 → IsAfterLast list.now at.old }
    ensures at_end { HasFront true list.now → at.old ≡ length list.now → result ≡ 5 }
    ensures unchanged { result ≢ 0 → (at.new ≡ at.old) × (spot.new ≡ spot.old) }
    ensures status { (result ≡ 0) ⊎ (result ≡ 2) ⊎ (result ≡ 4) ⊎ (result ≡ 5) }
{
    next(true, list, at, spot)
}
