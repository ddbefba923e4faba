//! Gaps between keys, by which peers name pages.

ghost use Rattle.std.specs.Prelude.{◌≡◌};
ghost use Rattle.merkle_tree_theory.specs.Gap.{everywhere};
ghost use Rattle.merkle_search_tree.specs.Items.{lent_gap};

/// A gap: the keys above one key and below another. Where one of the two is absent, the gap has no bound on that side.
#[derive(Drop)]
pub struct Gap<'a, K> {
    /// The keys of the gap are above this one.
    pub after: Option<&'a K>,
    /// The keys of the gap are below this one.
    pub before: Option<&'a K>,
}

impl<'a, K> Gap<'a, K> {
    /// The gap that has all keys.
    pub fn everywhere() -> Self
        ensures { lent_gap result ≡ everywhere }
    {
        Gap {
            after: None,
            before: None,
        }
    }

    /// The same gap.
    pub fn copied(&self) -> Gap<'a, K>
        ensures { lent_gap result ≡ lent_gap self.now }
    {
        Gap {
            after: self.after,
            before: self.before,
        }
    }
}
