//! Laws over the definitions alone. Each function has no effect and takes no memory.
ghost use Rattle.std.specs.Prelude.{◌≡◌, ◌≤◌, ◌+◌, ◌*◌, ℕ, List, length, true};
ghost use Rattle.std.specs.List.{AllZip};
ghost use Rattle.merkle_bytes.specs.Counts.{count_bytes};
ghost use Rattle.merkle_bytes.specs.Encodings.{list_bytes};
ghost use Rattle.merkle_bytes.specs.Keys.{key_behind};
ghost use Rattle.merkle_bytes.specs.Reading.{BytesTell};
ghost use Rattle.merkle_bytes.specs.Runs.{KeysHaveAtMost};

use crate::decode::Decode;
use crate::encode::Encode;

/// Bytes that begin with those of a list tell its entries, up to `==`, and where it ends: two lists with the same bytes have equal entries, place
/// by place.
pub fn bytes_tell_lists<T: Decode>()
    ensures { BytesTell (list_bytes T.encoding) (AllZip (λ x y. T.eq x y ≡ true)) }
{}

/// Bytes that begin with those of a count tell it, and where it ends: a count has one spelling.
pub fn bytes_tell_counts()
    ensures { BytesTell count_bytes (λ m n. m ≡ n) }
{}

/// A key has at most 251 bytes more than stand for it after another, and at most 64 times as many. So the keys of rows have at most 64 times the
/// bytes of the rows: a key keeps at most 255 bytes of the one before, and where it keeps 128 or more the counts before its rest have four bytes.
pub fn keys_of_a_run_are_bounded<K: Encode, V: Encode>()
    ensures more { (last key : List ℕ) → length key ≤ 251 + length (key_behind last key) }
    ensures times { (last key : List ℕ) → length key ≤ 64 * length (key_behind last key) }
    ensures rows { (last : List ℕ) (rows : List (K × V)) → KeysHaveAtMost 64 K.encoding V.encoding last rows }
{}
