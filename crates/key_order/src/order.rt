//! Comparisons of keys.
ghost use Rattle.std.specs.Prelude.{◌≡◌};
ghost use Rattle.key_order.specs.Order.{upto, below};

/// Whether `a` is at most `b`. It takes one comparison.
pub fn is_upto<K: Ord>(a: &K, b: &K) -> bool
    ensures { result ≡ upto K.cmp a.now b.now }
{
    a <= b
}

/// Whether `a` is below `b`. It takes one comparison.
pub fn is_below<K: Ord>(a: &K, b: &K) -> bool
    ensures { result ≡ below K.cmp a.now b.now }
{
    a < b
}
