//! The keys that are wanted of a peer, in order, and copies of its rows at them.
ghost use Rattle.std.specs.Prelude.{◌≡◌, ◌<◌, true, length, IfOk};
ghost use Rattle.std.specs.List.{AllByRecursion};
ghost use Rattle.key_order.specs.Map.{IsPresent, get};
ghost use Rattle.merkle_replica.specs.CatchUp.{AreCopies, IsAboveLast, IsCopyAt, IsOnceEach, NoneFalls};
ghost use Rattle.merkle_replica.specs.Descent.{keys_of};

use crate::replica::Replica;
use key_order::{Join, is_below};
use merkle_digest::{Hasher, Key};
use std::alloc::{AllocError, Global};
use std::cmp::Ordering;

/// The keys in ascending order, each of equal ones once.
pub(crate) fn in_order<'a, K: Ord>(
    alloc: Global,
    keys: Vec<&'a K>,
) -> Result<Vec<&'a K>, AllocError>
    ensures { IfOk result (λ once. IsOnceEach K.cmp (keys_of keys.entry.items) (keys_of once.items)) }
{
    let mut sorted = keys;
    sorted.sort_by(
        |a: &&K, b: &&K| -> Ordering
            ensures { result ≡ K.cmp a.now.now b.now.now }
        { (**a).cmp(*b) },
    )?;
    once_each(alloc, &sorted)
}

/// Of keys that don't fall each of equal ones once.
fn once_each<'a, K: Ord>(alloc: Global, sorted: &[&'a K]) -> Result<Vec<&'a K>, AllocError>
    requires { NoneFalls K.cmp (keys_of sorted.now) }
    ensures { IfOk result (λ once. IsOnceEach K.cmp (keys_of sorted.now) (keys_of once.items)) }
{
    let mut once = Vec::with_capacity(alloc, sorted.len())?;
    'keys: for i in 0..sorted.len() {
        if begins_anew(sorted, i) {
            once.push(sorted[i])?;
        }
    }
    Ok(once)
}

/// Whether the key at the place is above the one before it, or there is none before it.
fn begins_anew<K: Ord>(sorted: &[&K], i: usize) -> bool
    requires { i < length sorted.now }
    ensures above { IsAboveLast K.cmp sorted.now i result }
    ensures first { i ≡ 0 → result ≡ true }
{
    i == 0 || is_below(sorted[i - 1], sorted[i])
}

impl<K: Key + Drop, V: Join + Drop, H: Hasher<N, K> + Hasher<N, V>, const N: usize> Replica<
    K,
    V,
    H,
    N,
> {
    /// Copies of the rows at these keys: each key cloned, and each value joined with itself.
    pub(crate) fn copies_at(&self, keys: &[&K]) -> Result<Vec<(K, V)>, AllocError>
        requires there { AllByRecursion (λ k. IsPresent (get K.cmp self.now.rows k)) (keys_of keys.now) }
        ensures { IfOk result (λ copies. AreCopies K.cmp V.eq self.now.rows (keys_of keys.now) copies.items) }
    {
        let mut copies = Vec::with_capacity(self.alloc, keys.len())?;
        'keys: for key in keys {
            copies.push(self.copy_at(*key)?)?;
        }
        Ok(copies)
    }

    /// A copy of the row at a key that is there.
    fn copy_at(&self, key: &K) -> Result<(K, V), AllocError>
        requires there { IsPresent (get K.cmp self.now.rows key.now) }
        ensures { IfOk result (IsCopyAt K.cmp V.eq self.now.rows key.now) }
    {
        let row = match self.row_at(key) {
            Some(row) => row,
            None => unreachable!(),
        };
        let own = row.0.clone()?;
        let value = row.1.join(self.alloc, &row.1)?;
        Ok((own, value))
    }
}
