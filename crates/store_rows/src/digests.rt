//! The latest registers of a log, by their digests under a hash key, as the map of a tree.
ghost use Rattle.std.specs.Option.{option_map};
ghost use Rattle.std.specs.Prelude.{◌≡◌, ℕ, List, IfOk, map, string_bytes};
ghost use Rattle.store_file.specs.Logs.{Finds};
ghost use Rattle.store_file.specs.Transactions.{CommitsNothing};
ghost use Rattle.store_file.specs.Walks.{MakesView, StaysBut};
ghost use Rattle.store_rows.specs.Digests.{HoldsDigests, digest_row, register_digest};
ghost use Rattle.store_tree.specs.Maps.{ArePairsIn, IsDigestAt};
ghost use Rattle.store_tree.specs.Pages.{text_gap};

use merkle_digest::{Hasher, SipHasher, ValueDigest};
use sqlite_trees::store::Store;
use std::alloc::Global;
use std::marker::Model;
use store_file::Register;
use store_file::format::HASH_KEY_LEN;
use store_file::latest::latest_at;
use store_file::range::latest_between;
use store_file::table::{Entries, has_entry_table};
use store_tree::TreeFault;
use store_tree::pairs::{DIGEST_LEN, Pairs};

/// The latest registers of a log, by their digests under a hash key: the map of the tree that a replica of the log's entries has. A contract sees the
/// hash key.
///
/// It keeps nothing but the key. A digest costs a look into the table of entries, and those of a gap a look and the entries there.
#[derive(Drop)]
pub struct LatestDigests {
    hasher: SipHasher,
}

impl Model for LatestDigests {
    ghost Value = { List ℕ };

    ghost view = { λ digests. digests.hasher };

    ghost inverse = { λ hash_key. record { hasher = hash_key } };
}

impl LatestDigests {
    /// The latest registers, by their digests under this hash key.
    pub fn new(hash_key: &[u8; HASH_KEY_LEN]) -> Self
        ensures { result ≡ hash_key.now }
    {
        LatestDigests {
            hasher: SipHasher::new(hash_key),
        }
    }

    /// The hasher under the hash key.
    pub fn hasher(&self) -> &SipHasher
        ensures { result.now ≡ self.now }
    {
        &self.hasher
    }

    /// The digest of a register.
    fn digest(&self, register: &Register) -> ValueDigest<DIGEST_LEN>
        ensures { result ≡ register_digest self.now register.now }
    {
        ValueDigest::new(self.hasher.hash(register))
    }

    /// The digest of a register, where there is one. It hashes the bytes of the register.
    pub fn digest_if(&self, found: &Option<Register>) -> Option<ValueDigest<DIGEST_LEN>>
        ensures { result ≡ option_map (register_digest self.now) found.now }
    {
        match found {
            None => None,
            Some(register) => Some(self.digest(register)),
        }
    }

    /// Each key with the digest of its register.
    fn digests(
        &self,
        alloc: Global,
        rows: Entries,
    ) -> Result<Vec<(String, ValueDigest<DIGEST_LEN>)>, TreeFault>
        ensures { IfOk result (λ pairs. pairs.items ≡ map (digest_row self.now) rows.items) }
    {
        let mut pairs = Vec::new(alloc);
        'rows: for (key, register) in rows {
            pairs.push((key, self.digest(&register)))?;
        }
        Ok(pairs)
    }

    /// The digest of the latest register of a key that has one.
    fn digest_in<S: Store>(
        &self,
        alloc: Global,
        trees: &mut S,
        key: &String,
    ) -> Result<ValueDigest<DIGEST_LEN>, TreeFault>
        ensures digest { Finds S.Store trees.old trees.new result (λ old. IsDigestAt (HoldsDigests self.now old) (string_bytes key.now)) }
        ensures same { MakesView S.Store trees.old trees.new result StaysBut }
        ensures uncommitted { CommitsNothing S.Store trees.old trees.new }
    {
        if !has_entry_table(trees) {
            return Err(TreeFault::Malformed);
        }
        let found = latest_at(alloc, trees, key.as_str())?;
        let Some(register) = found else {
            return Err(TreeFault::Malformed);
        };
        Ok(self.digest(&register))
    }

    /// The keys above one and below another, where there are these, each with the digest of its latest register.
    fn digests_between<S: Store>(
        &self,
        alloc: Global,
        trees: &mut S,
        after: &Option<String>,
        before: &Option<String>,
    ) -> Result<Vec<(String, ValueDigest<DIGEST_LEN>)>, TreeFault>
        ensures pairs { Finds S.Store trees.old trees.new result (λ old. ArePairsIn (HoldsDigests self.now old) (text_gap after.now before.now)) }
        ensures same { MakesView S.Store trees.old trees.new result StaysBut }
        ensures uncommitted { CommitsNothing S.Store trees.old trees.new }
    {
        if !has_entry_table(trees) {
            return Err(TreeFault::Malformed);
        }
        let rows = latest_between(alloc, trees, after, before)?;
        self.digests(alloc, rows)
    }
}

impl<S: Store> Pairs<S> for LatestDigests {
    ghost use Rattle.store_rows.specs.DigestLaws.{digests_stay};
    ghost use Rattle.store_rows.specs.Digests.{HoldsDigests};

    ghost hold = { HoldsDigests };

    ghost stay = { digests_stay };

    fn digest_at(
        &self,
        alloc: Global,
        trees: &mut S,
        key: &String,
    ) -> Result<ValueDigest<DIGEST_LEN>, TreeFault> {
        self.digest_in(alloc, trees, key)
    }

    fn within(
        &self,
        alloc: Global,
        trees: &mut S,
        after: &Option<String>,
        before: &Option<String>,
    ) -> Result<Vec<(String, ValueDigest<DIGEST_LEN>)>, TreeFault> {
        self.digests_between(alloc, trees, after, before)
    }
}
