//! Whether what is told of a tree is the same on two sides.
use merkle_digest::PageDigest;
use merkle_search_tree::{Gap, OutlineItem};
use store_tree::pairs::DIGEST_LEN;

/// An item of an outline of a tree of texts.
pub type Item<'a> = OutlineItem<'a, DIGEST_LEN, String>;

/// Whether this is the digest of a page that is there, or there is neither.
pub fn is_digest(told: &Option<PageDigest>, page: Option<&PageDigest>) -> bool {
    match (told, page) {
        (None, None) => true,
        (Some(own), Some(other)) => *own == *other,
        _ => false,
    }
}

/// Whether two bounds are one key, or there is neither.
fn is_bound(own: &Option<&String>, other: &Option<&String>) -> bool {
    match (own, other) {
        (None, None) => true,
        (Some(key), Some(bound)) => **key == **bound,
        _ => false,
    }
}

/// Whether two items are the same.
fn is_item(own: &Item<'_>, other: &Item<'_>) -> bool {
    match (own, other) {
        (OutlineItem::Node(key, digest), OutlineItem::Node(own_key, own_digest)) => {
            **key == **own_key && **digest == **own_digest
        }
        (OutlineItem::Page(gap, digest), OutlineItem::Page(own_gap, own_digest)) => {
            is_bound(&gap.after, &own_gap.after)
                && is_bound(&gap.before, &own_gap.before)
                && **digest == **own_digest
        }
        _ => false,
    }
}

/// Whether two lists have the same items.
pub fn are_items(own: &[Item<'_>], other: &[Item<'_>]) -> bool {
    for (item, wanted) in own.iter().zip(other) {
        if !is_item(item, wanted) {
            return false;
        }
    }
    own.len() == other.len()
}

/// A gap that is lent.
pub fn lent(gap: &(Option<String>, Option<String>)) -> Gap<'_, String> {
    Gap {
        after: gap.0.as_ref(),
        before: gap.1.as_ref(),
    }
}
