//! A replica of the program: a map from texts to numbers, with the default hasher and level base.
ghost use Rattle.std.specs.Prelude.{◌≡◌};
ghost use Rattle.merkle_tree_theory.specs.declared.page_format.PageFormat.{PageFormat};
ghost use Rattle.mst_pair.specs.Pages.{HasDefaults, HasItsRoot, IsItsRoot, ShowsItsPages};

use merkle_digest::{PageDigest, RootHash, SipHasher};
use merkle_replica::Replica;
use merkle_search_tree::laws::{
    a_map_has_one_tree, equal_pages_have_equal_maps, every_tree_is_sound,
};

/// A replica of the program.
pub type TextReplica = Replica<String, u64, SipHasher, 16>;

/// The root hash of a replica. Pages that lack a digest get it.
pub fn root_hash_of(replica: &mut TextReplica) -> RootHash
    ensures digest { IsItsRoot replica.old result }
    ensures rows { replica.new.rows ≡ replica.old.rows }
    ensures defaults { (format : PageFormat) → HasDefaults format replica.old → HasDefaults format replica.new }
{
    shows_its_rows(replica);
    replica.hash();
    match replica.tree().root_hash_cached() {
        Some(hash) => RootHash::new(PageDigest::new(*hash.as_bytes())),
        None => unreachable!(),
    }
}

/// The pages of a replica are those of the tree of its rows.
pub fn shows_its_rows(replica: &TextReplica)
    ensures root { (format : PageFormat) → HasDefaults format replica.now → HasItsRoot format replica.now }
    ensures ranges { (format : PageFormat) → HasDefaults format replica.now → ShowsItsPages format replica.now }
{
    a_map_has_one_tree::<String, SipHasher, 16>();
    equal_pages_have_equal_maps::<String>();
    every_tree_is_sound(replica.tree());
}
