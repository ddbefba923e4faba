use crate::rows::text;
use examples::hashing::{NumberTree, hash_again, set_and_hash};
use merkle_search_tree::MerkleSearchTree;
use std::test::Fail;

#[test]
fn a_hashed_tree_is_hashed_again_at_no_page(rt: HostRuntime) -> Result<(), Fail> {
    let alloc = rt.alloc();
    let mut tree: NumberTree = MerkleSearchTree::with_defaults(alloc);
    // SipHash of each name and the SipHash of its number, by another program, once all three are there.
    let table = [
        ("c", 3, None),
        ("a", 1, None),
        ("b", 2, Some("GMC1EXBD3uaR25WicgHHFQ==")),
    ];
    for (name, number, wanted) in table {
        let Ok(root_hash) = set_and_hash(&mut tree, text(alloc, name)?, number) else {
            return Err(Fail::from("no memory"));
        };
        assert!(rt; hash_again(&mut tree) == 0);
        if let Some(wanted) = wanted {
            assert!(rt; format!(in alloc; "{root_hash}")?.as_str() == wanted);
        }
    }
    Ok(())
}
