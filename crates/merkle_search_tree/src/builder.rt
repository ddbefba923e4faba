//! A tree's hasher, level base and page format, chosen before the tree is made.

ghost use Rattle.std.specs.Prelude.{◌≡◌, IfOk, IsOk};
ghost use Rattle.std.specs.Int.NonZero.{non_zero_u8_get};
ghost use Rattle.merkle_digest.specs.SipHash.{zero_key};
ghost use Rattle.merkle_tree_theory.specs.State.{IsNew};
ghost use Rattle.merkle_tree_theory.specs.declared.page_format.PageFormat.TheVariants.{V1};

use crate::tree::MerkleSearchTree;
use merkle_digest::{Hasher, KeyBytes, SipHasher, default_level_base};
pub use merkle_tree_theory::PageFormat;
use std::alloc::{AllocError, Global};
use std::marker::Model;
use std::num::NonZeroU8;

/// Makes trees with a hasher, a level base and a page format. A contract sees the three.
///
/// ```rust crates/merkle_search_tree_kind_tests/src/doc_lines.rt
/// let tree: Tree = Builder::default()
///     .with_level_base(base)
///     .with_page_format(PageFormat::V2)
///     .build(alloc);
/// ```
#[derive(Drop)]
pub struct Builder<H> {
    pub(crate) hasher: H,
    pub(crate) level_base: NonZeroU8,
    pub(crate) page_format: PageFormat,
}

impl<H> Model for Builder<H> {
    ghost use Rattle.std.specs.Int.NonZero.{non_zero_u8_get};
    ghost use Rattle.merkle_tree_theory.specs.Settings.{Settings, settings_code};

    ghost Value = { Settings H };

    ghost coded = { settings_code H.code };

    ghost view = { λ a. record { hasher = a.hasher; base = non_zero_u8_get a.level_base; format = a.page_format } };
}

/// The default hasher, SipHash under the zero key, level base 16, and format 1.
impl Default for Builder<SipHasher> {
    ghost is_default = { λ builder. (builder.hasher ≡ zero_key) × (builder.base ≡ 16) × (builder.format ≡ V1) };

    fn default() -> Self {
        Builder {
            hasher: SipHasher::default(),
            level_base: default_level_base(),
            page_format: PageFormat::V1,
        }
    }
}

impl<H: Clone> Builder<H> {
    /// A builder with a clone of the hasher, and the same level base and page format.
    ///
    /// # Errors
    ///
    /// `AllocError` where the clone of the hasher is refused memory; nothing else takes any.
    pub fn try_clone(&self) -> Result<Self, AllocError>
        ensures hasher { IfOk result (λ copy. H.is_clone self.now.hasher copy.hasher) }
        ensures base { IfOk result (λ copy. copy.base ≡ self.now.base) }
        ensures format { IfOk result (λ copy. copy.format ≡ self.now.format) }
        ensures succeeds { H.is_infallible self.now.hasher → IsOk result }
    {
        Ok(Builder {
            hasher: self.hasher.clone()?,
            level_base: self.level_base,
            page_format: self.page_format,
        })
    }
}

impl<H> Builder<H> {
    /// The builder with this hasher in place of its own.
    pub fn with_hasher<T>(self, hasher: T) -> Builder<T>
    where
        H: Drop,
        ensures { result ≡ record { hasher = hasher; base = self.base; format = self.format } }
    {
        Builder {
            hasher,
            level_base: self.level_base,
            page_format: self.page_format,
        }
    }

    /// The builder with this level base, from 1 to 255. A key's level is two for each zero byte at the front of its digest, and one
    /// more where the base divides the byte after them: up to 128 for about one key in `level_base`, so that a greater base makes larger
    /// pages; above 128 for about one in 128. Peers that compare their trees take one base.
    pub fn with_level_base(self, level_base: NonZeroU8) -> Self
        ensures { result ≡ record { hasher = self.hasher; base = non_zero_u8_get level_base; format = self.format } }
    {
        Builder {
            hasher: self.hasher,
            level_base,
            page_format: self.page_format,
        }
    }

    /// The builder with this page format.
    pub fn with_page_format(self, page_format: PageFormat) -> Self
        ensures { result ≡ record { hasher = self.hasher; base = self.base; format = page_format } }
    {
        Builder {
            hasher: self.hasher,
            level_base: self.level_base,
            page_format,
        }
    }

    /// The empty tree with this hasher, level base and page format. It takes no memory.
    pub fn build<K: Ord + KeyBytes, V, const N: usize>(
        self,
        alloc: Global,
    ) -> MerkleSearchTree<K, V, H, N>
    where
        H: Hasher<N, K>,
        ensures { IsNew self.hasher self.base self.format result }
    {
        MerkleSearchTree::new(alloc, self.hasher, self.level_base, self.page_format)
    }
}
