//! Gaps with keys of their own.
ghost use Rattle.std.specs.Prelude.{◌≡◌, IfOk};
ghost use Rattle.merkle_bytes.specs.RunTelling.{bound_some};
ghost use Rattle.merkle_bytes.specs.Telling.{pair_some};
ghost use Rattle.merkle_search_tree.specs.Items.{bound_of, lent_gap};
ghost use Rattle.merkle_tree_theory.specs.Gap.{everywhere, SameBound, SameGap};
ghost use Rattle.merkle_wire.specs.Gaps.{between, owned_gap, gap_behind, gap_key, HasKeyBounds, gap_told};

use merkle_bytes::{Decode, DecodeInRun, Encode, EncodeInRun, KeyRun, ReadError, Reader};
use merkle_digest::Key;
use merkle_search_tree::Gap;
use std::alloc::AllocError;

/// A gap that owns its bounds: the keys above one key and below another. A missing bound leaves that side open.
#[derive(PartialEq, Eq, Drop)]
pub struct OwnedGap<K> {
    /// The keys of the gap are above this one.
    pub after: Option<K>,
    /// The keys of the gap are below this one.
    pub before: Option<K>,
}

impl<K> OwnedGap<K> {
    /// The gap that has all keys.
    pub fn everywhere() -> Self
        ensures { owned_gap result ≡ everywhere }
    {
        OwnedGap {
            after: None,
            before: None,
        }
    }

    /// The same gap, with its keys borrowed.
    pub fn as_gap(&self) -> Gap<'_, K>
        ensures { lent_gap result ≡ owned_gap self.now }
    {
        Gap {
            after: self.after.as_ref(),
            before: self.before.as_ref(),
        }
    }
}

impl<K: Key> OwnedGap<K> {
    /// The gap between two bounds, with clones of their keys.
    ///
    /// # Errors
    ///
    /// Out of memory.
    pub(crate) fn between(after: Option<&K>, before: Option<&K>) -> Result<Self, AllocError>
        ensures { IfOk result (λ gap. SameGap K.cmp (between after.entry before.entry) (owned_gap gap)) }
    {
        Ok(OwnedGap {
            after: cloned(after)?,
            before: cloned(before)?,
        })
    }
}

/// A bound with a clone of its key.
fn cloned<K: Key>(bound: Option<&K>) -> Result<Option<K>, AllocError>
    ensures { IfOk result (SameBound K.cmp (bound_of bound.entry)) }
{
    match bound {
        None => Ok(None),
        Some(key) => Ok(Some(key.clone()?)),
    }
}

/// The bound that its keys are above, and then the one that they are below.
impl<K: Encode> EncodeInRun for OwnedGap<K> {
    ghost bytes_behind = { λ last gap. gap_behind K.encoding last (owned_gap gap) };

    ghost last_key = { λ last gap. gap_key K.encoding last (owned_gap gap) };

    fn encode_behind(&self, run: &mut KeyRun, bytes: &mut Vec<u8>) -> Result<(), AllocError> {
        self.after.encode_behind(run, bytes)?;
        self.before.encode_behind(run, bytes)
    }
}

impl<K: Decode> DecodeInRun for OwnedGap<K> {
    ghost is_entry = { λ gap. HasKeyBounds K.is_value (owned_gap gap) };

    ghost some = { λ last gap. pair_some _ _ (bound_some K.encoding last gap.after) };

    ghost told = { λ last a b. gap_told K.encoding K.eq K.told last (owned_gap a) (owned_gap b) };

    fn decode_behind(run: &mut KeyRun, reader: &mut Reader<'_>) -> Result<Self, ReadError> {
        let after = Option::<K>::decode_behind(run, reader)?;
        let before = Option::<K>::decode_behind(run, reader)?;
        Ok(OwnedGap { after, before })
    }
}
