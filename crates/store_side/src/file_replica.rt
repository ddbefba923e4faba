//! A store's file as a replica that is kept there: its tree is that of its rows, and it asks by their digests.
ghost use Rattle.store_side.specs.Sides.{file_contents};

use crate::tree_side::FileTree;
use merkle_digest::SipHasher;
use merkle_search_tree::laws::a_map_has_one_tree;
use merkle_wire::{AskingReplica, CatchingUp, KeptReplica, KeptSide};
use sqlite_trees::store::Store;
use store_file::Register;
use store_tree::TreeFault;
use store_tree::pairs::DIGEST_LEN;

/// Whatever its rows are, the tree is the one that their digests define.
impl<S: Store> KeptReplica<DIGEST_LEN, String, Register, SipHasher> for FileTree<S> {
    fn has_its_tree(&self) {
        a_map_has_one_tree::<String, SipHasher, DIGEST_LEN>();
    }
}

/// It asks by the digests of its rows, under its hash key.
impl<S: Store> AskingReplica<DIGEST_LEN, String, Register, SipHasher> for FileTree<S> {
    ghost whole = { file_contents };

    fn asks_by_its_rows(&self) {}

    fn row_count(&mut self) -> Result<u64, TreeFault> {
        KeptSide::count(self, &())
    }

    fn own_reply_to(
        &mut self,
        session: &CatchingUp<String, Register>,
        with_rows: bool,
    ) -> Result<Option<Vec<u8>>, TreeFault> {
        session.own_reply_by(self, &(), with_rows)
    }
}
