//! Places of keys in root pages.

use std::test::Fail;
use test_keys::number_key;
use test_trees::trees::{keys_of, tree};

#[test]
fn places_of_keys_in_a_root_page(rt: HostRuntime) -> Result<(), Fail> {
    let alloc = rt.alloc();
    let keys = keys_of(alloc, "2:0 4:0 6:0")?;
    let page = tree(alloc, &keys)?;
    for (key, place) in [(5, 2), (6, 2), (7, 3), (1, 0)] {
        let (found, compared) = page.find_counted(&number_key(key));
        assert!(rt; found == place && compared <= 2, "{key}");
    }
    Ok(())
}
