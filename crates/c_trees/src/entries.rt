//! The entries of a list of ranges or of rows, one after the other, where they lie.

ghost use Rattle.std.specs.Prelude.{◌≡◌, ◌≢◌, ◌↔◌, true, false, ◌&&◌, None, ◌<◌, ◌+◌, ◌-◌, ◌^◌, ◌⊎◌, ◌++◌};
ghost use Rattle.std.specs.Prelude.{IfSome, if◌then◌else◌, length, nat_eq};
ghost use Rattle.c_trees.specs.Spots.{AreEntries, BeginsWithEntry, BeginsWithNoEntry, BeginsWithNoTwo, BeginsWithTwo, HasFront};
ghost use Rattle.c_trees.specs.Spots.{HasNoEntryAt, HasNoMark, HasSecond, IsAfterLast, IsEntryAt, IsReadable, gap_len, list_mark};
ghost use Rattle.c_values.specs.Lists.{number_bytes};

use crate::reading::keyed_of;
use crate::wire::{DIGESTS, KEY_RANGES, PAGE_RANGES};
use c_values::status::{ABSENT, ARGUMENT, DONE, MALFORMED};
use c_values::{ROWS, body_of, pair_of};

/// Where the parts of an entry lie in its list: places in bytes from the front of the list, and lengths in bytes. The place of a string
/// is after its length.
#[repr(C)]
#[derive(Drop)]
pub struct MstSpot {
    /// The first key of a range, or the key of a row.
    pub first_at: usize,
    pub first_len: usize,
    /// The last key of a range, or the value of a row, which is the digest in a list of digests.
    pub last_at: usize,
    pub last_len: usize,
    /// Where the 16 bytes of the digest begin, in a list of page ranges; else 0.
    pub digest_at: usize,
}

/// The mark of a list of rows or of ranges, with digests or without.
fn mark(rows: bool, digests: bool) -> [u8; 4]
    ensures { result ≡ list_mark rows digests }
{
    if rows {
        if digests { DIGESTS } else { ROWS }
    } else if digests {
        PAGE_RANGES
    } else {
        KEY_RANGES
    }
}

/// Whether the entries of the list have digests, how many there are, and their bytes; `None` where it has no such front.
fn front_of(rows: bool, list: &[u8]) -> Option<(bool, u64, &[u8])>
    ensures front { IfSome result (λ r. list.now ≡ list_mark rows r.0 ++ (number_bytes r.1 ++ r.2.now)) }
    ensures none { result ≡ None → HasNoMark rows list.now }
{
    match body_of(&mark(rows, true), list) {
        Some((count, body)) => Some((true, count, body)),
        None => {
            let (count, body) = body_of(&mark(rows, false), list)?;
            Some((false, count, body))
        }
    }
}

/// The two parts at the front, the second a digest where that is asked, and the bytes after them.
fn two_of(plain: bool, bytes: &[u8]) -> Option<(&[u8], &[u8], &[u8])>
    ensures two { IfSome result (λ r. BeginsWithTwo plain bytes.now (r.0.now, r.1.now) r.2.now) }
    ensures none { result ≡ None → BeginsWithNoTwo plain bytes.now }
{
    if plain {
        let (key, digest, rest) = keyed_of(bytes)?;
        Some((key, digest, rest))
    } else {
        pair_of(bytes)
    }
}

/// The two parts of the entry at the front, and the bytes after the entry.
fn entry_of(plain: bool, hashed: bool, bytes: &[u8]) -> Option<(&[u8], &[u8], &[u8])>
    ensures entry { IfSome result (λ r. BeginsWithEntry plain hashed bytes.now (r.0.now, r.1.now) r.2.now) }
    ensures none { result ≡ None → BeginsWithNoEntry plain hashed bytes.now }
{
    let (first, last, rest) = two_of(plain, bytes)?;
    if hashed {
        let (_, rest) = rest.split_first_chunk::<16>()?;
        Some((first, last, rest))
    } else {
        Some((first, last, rest))
    }
}

/// Whether the bytes are this many entries.
pub fn is_list(plain: bool, hashed: bool, count: u64, body: &[u8]) -> bool
    ensures { (result ≡ true) ↔ AreEntries plain hashed count body.now }
{
    let mut rest = body;
    'entries: for _done in 0..count {
        match entry_of(plain, hashed, rest) {
            Some((_, _, behind)) => rest = behind,
            None => return false,
        }
    }
    rest.is_empty()
}

/// Where an entry begins: at `at`, or at the first one where that is 0.
fn start_of(at: usize, list: &[u8], body: &[u8]) -> usize
    ensures { result ≡ (if nat_eq at 0 then length list.now - length body.now else at) }
{
    if at == 0 {
        list.len().saturating_sub(body.len())
    } else {
        at
    }
}

/// Where the parts of an entry lie that begins at `start`.
fn spot_of(plain: bool, hashed: bool, start: usize, first: &[u8], last: &[u8]) -> MstSpot
    requires { start + length first.now + gap_len plain + length last.now + 8 < 2 ^ 64 }
    ensures first { (result.first_at ≡ start + 8) × (result.first_len ≡ length first.now) }
    ensures last { HasSecond plain last.now result }
    ensures hash { result.digest_at ≡ (if hashed then result.last_at + result.last_len else 0) }
{
    let first_at = start + 8;
    let gap = if plain { 0 } else { 8 };
    let last_at = first_at + first.len() + gap;
    let digest_at = if hashed { last_at + last.len() } else { 0 };
    MstSpot {
        first_at,
        first_len: first.len(),
        last_at,
        last_len: last.len(),
        digest_at,
    }
}

/// Goes to the next entry of a list of rows or of ranges: writes where its parts lie, and moves `at` after it. An `at` of 0 is the first one, and
/// there the whole list is read once to see that it is one.
///
/// `DONE`; `MALFORMED` where a mark and a number don't stand in front, where `at` is 0 and the whole is no list, or where `at` is within the list and no
/// entry of the mark's kind begins there; `ABSENT` after the last entry; `ARGUMENT` where `at` is beyond the end. Where it isn't `DONE`, `at` and `spot` are
/// as before. It takes no memory.
pub fn next(rows: bool, list: &[u8], at: &mut usize, spot: &mut MstSpot) -> u32
    ensures entry { result ≡ 0 → IsEntryAt rows list.now at.old at.new spot.new }
    ensures readable { result ≢ 2 → IsReadable rows list.now at.old }
    ensures malformed { result ≡ 2 → HasNoEntryAt rows list.now at.old }
    ensures argument { HasFront rows list.now → (result ≡ 4) ↔ (length list.now < at.old) }
    ensures absent { result ≡ 5 → IsAfterLast list.now at.old }
    ensures at_end { HasFront rows list.now → at.old ≡ length list.now → result ≡ 5 }
    ensures unchanged { result ≢ 0 → (at.new ≡ at.old) × (spot.new ≡ spot.old) }
    ensures status { (result ≡ 0) ⊎ (result ≡ 2) ⊎ (result ≡ 4) ⊎ (result ≡ 5) }
{
    let Some((digests, count, body)) = front_of(rows, list) else {
        return MALFORMED;
    };
    let plain = rows & digests;
    let hashed = !rows & digests;
    if *at == 0 && !is_list(plain, hashed, count, body) {
        return MALFORMED;
    }
    let start = start_of(*at, list, body);
    let Some((_, rest)) = list.split_at_checked(start) else {
        return ARGUMENT;
    };
    if rest.is_empty() {
        return ABSENT;
    }
    let Some((first, last, behind)) = entry_of(plain, hashed, rest) else {
        return MALFORMED;
    };
    *spot = spot_of(plain, hashed, start, first, last);
    *at = list.len().saturating_sub(behind.len());
    DONE
}
