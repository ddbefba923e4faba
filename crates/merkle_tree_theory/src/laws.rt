//! Laws over the definitions alone: what each ensures holds of every map, and of every tree that a contract can speak of. Each
//! function has no effect and takes no memory.

ghost use Rattle.std.specs.Prelude.{◌≡◌, ◌+◌, ◌≤◌, ℕ, Bool, List};
ghost use Rattle.key_order.specs.Order.{Same};
ghost use Rattle.key_order.specs.Map.{SameMap};
ghost use Rattle.merkle_digest.specs.Level.{level_of};
ghost use Rattle.merkle_diff.specs.TreeShape.{IsTreeShaped};
ghost use Rattle.merkle_tree_theory.specs.Cache.{uncached_pages, tree_with_digests};
ghost use Rattle.merkle_tree_theory.specs.Canonical.{AreOnOneLevel, EqualPages, SamePages};
ghost use Rattle.merkle_tree_theory.specs.Depth.{depth};
ghost use Rattle.merkle_tree_theory.specs.Events.{events_of};
ghost use Rattle.merkle_tree_theory.specs.Faithful.{PagesTellMaps, RootsTellMaps};
ghost use Rattle.merkle_tree_theory.specs.Listing.{RangesListPages};
ghost use Rattle.merkle_tree_theory.specs.Lookup.{FilledGapsOpen, PagesHaveTheirGaps, TreesHaveTheirPages};
ghost use Rattle.merkle_tree_theory.specs.OneTree.{DefinesTree, HasOneTree, PagesSuffice, EachTree, TreesOfEqualMaps, TreesOfEqualMapsInAnyFormat};
ghost use Rattle.merkle_tree_theory.specs.Outline.{OutlinesLeadDown, WholeTreesLeadDown};
ghost use Rattle.merkle_tree_theory.specs.Page.{level, nodes_in_order, pairs};
ghost use Rattle.merkle_tree_theory.specs.Ranges.{NothingToAsk, RangesOfMaps, RangesOfEqualMaps, SameRanges};
ghost use Rattle.merkle_tree_theory.specs.Stream.{SameDigest};
ghost use Rattle.merkle_tree_theory.specs.Tree.{Tree};
ghost use Rattle.merkle_tree_theory.specs.Visited.{visited_nodes};
ghost use Rattle.merkle_tree_theory.specs.declared.page_format.PageFormat.{PageFormat};

use merkle_digest::{Hasher, KeyBytes, KeyBytesExact};

/// Keys that the order doesn't tell apart have equal bytes.
pub fn equal_keys_have_equal_bytes<K: Ord + KeyBytes>()
    ensures { (a b : K) → Same K.cmp a b → K.bytes_of a ≡ K.bytes_of b }
{}

/// Keys that the order doesn't tell apart are on one level, under any hasher and level base, and a level is at most 255.
pub fn equal_keys_are_on_one_level<K: Ord, H: Hasher<N, K>, const N: usize>()
    ensures level { (hasher : H) (base : ℕ) (a b : K) → Same K.cmp a b → AreOnOneLevel (H.digest_of hasher) base a b }
    ensures most { (digest : List ℕ) (base : ℕ) → level_of digest base ≤ 255 }
{}

/// Filling in the digests that pages lack leaves the map as it is and no page without a digest, in any page format.
pub fn filled_pages_keep_their_map<K: KeyBytes>()
    ensures map { (format : PageFormat) (t : Tree K (List ℕ)) → pairs (tree_with_digests format K.bytes_of t) ≡ pairs t }
    ensures hashed { (format : PageFormat) (t : Tree K (List ℕ)) → uncached_pages (tree_with_digests format K.bytes_of t) ≡ 0 }
{}

/// A map has one tree: under any hasher and level base there is one, any other has its pages apart from caches, and what has its pages
/// is a tree of the map; trees of equal maps have equal pages, and, in any page format, root pages of equal digest and equal page
/// ranges. At most 256 pages of a tree of a map stand below one another, and no more than the level of its root and one.
pub fn a_map_has_one_tree<K: Ord + KeyBytes, H: Hasher<N, K>, const N: usize>()
    ensures defined { (hasher : H) (base : ℕ) (m : List (K × List ℕ)) → DefinesTree K.cmp (H.digest_of hasher) base m }
    ensures only { (hasher : H) (base : ℕ) (m : List (K × List ℕ)) → HasOneTree K.cmp (H.digest_of hasher) base m }
    ensures enough { (hasher : H) (base : ℕ) (m : List (K × List ℕ)) → PagesSuffice K.cmp (H.digest_of hasher) base m }
    ensures pages { TreesOfEqualMaps K.cmp H.digest_of (SamePages K.cmp) }
    ensures digests { TreesOfEqualMapsInAnyFormat K.cmp H.digest_of (λ format. SameDigest format K.bytes_of) }
    ensures ranges { TreesOfEqualMapsInAnyFormat K.cmp H.digest_of (λ format. SameRanges K.cmp format K.bytes_of) }
    ensures by_level { EachTree K.cmp H.digest_of (λ t. depth t ≤ level t + 1) }
    ensures deepest { EachTree K.cmp H.digest_of (λ t. depth t ≤ 256) }
{}

/// Equal pages, apart from caches, have equal maps, and, in any page format, equal digests and equal page ranges.
pub fn equal_pages_have_equal_maps<K: Ord + KeyBytes>()
    ensures maps { (t u : Tree K (List ℕ)) → SamePages K.cmp t u → SameMap K.cmp (λ d e. d ≡ e) (pairs t) (pairs u) }
    ensures digests { (format : PageFormat) → EqualPages K.cmp (SameDigest format K.bytes_of) }
    ensures ranges { (format : PageFormat) → EqualPages K.cmp (SameRanges K.cmp format K.bytes_of) }
{}

/// The page ranges of the tree of any map are tree-shaped, and say where the pages of the map are, in any page format. On those of
/// equal maps what [`diff`](merkle_diff::diff) returns is empty in both directions.
pub fn page_ranges_of_a_map<K: Ord + KeyBytes, H: Hasher<N, K>, const N: usize>()
    ensures shaped { RangesOfMaps K.cmp H.digest_of K.bytes_of (IsTreeShaped K.cmp) }
    ensures listing { RangesListPages K.cmp H.digest_of K.bytes_of }
    ensures nothing_to_ask_b_for { RangesOfEqualMaps K.cmp H.digest_of K.bytes_of (λ es fs. NothingToAsk K.cmp es fs) }
    ensures nothing_to_ask_a_for { RangesOfEqualMaps K.cmp H.digest_of K.bytes_of (λ es fs. NothingToAsk K.cmp fs es) }
{}

/// The nodes that a traversal visits, where each call returns true, are those of the tree in order, as an iteration over nodes gives them.
pub fn a_traversal_visits_nodes_in_order<K>()
    ensures { (is_high : Bool) (t : Tree K (List ℕ)) → visited_nodes (events_of is_high t) ≡ nodes_in_order t }
{}

/// In format 2, where the bytes of a key tell it from every other, page digests are as faithful as the hash of streams. For any two
/// maps under one hasher and level base: where no page of one tree and page of the other have unequal streams of one digest, pages
/// with equal digests have equal maps below them, and root pages with equal digests have equal maps.
pub fn exact_keys_make_pages_faithful<K: Ord + KeyBytesExact, H: Hasher<N, K>, const N: usize>()
    ensures pages { (hasher : H) (base : ℕ) → PagesTellMaps K.cmp (H.digest_of hasher) base K.bytes_of N }
    ensures maps { (hasher : H) (base : ℕ) → RootsTellMaps K.cmp (H.digest_of hasher) base K.bytes_of N }
{}

/// Outlines lead down. Of any tree of a map, under any hasher, level base and page format: over a gap that a page of the tree fills, that is,
/// in which the tree has the keys of that page and no other, the page that is opened is that very page. The items of its outline are of the
/// tree, with pages of lower levels than its own, each of which fills its gap, and each key of the gap is in one of them. So it is of the
/// whole tree as one item, in which each key is. A page has what the map has in the gap that it fills, and the map has what a page has.
pub fn outlines_lead_down<K: Ord + KeyBytes, H: Hasher<N, K>, const N: usize>()
    ensures opens { FilledGapsOpen K.cmp }
    ensures outline { OutlinesLeadDown K.cmp H.digest_of K.bytes_of }
    ensures whole { WholeTreesLeadDown K.cmp H.digest_of K.bytes_of }
    ensures gap { PagesHaveTheirGaps K.cmp }
    ensures page { TreesHaveTheirPages K.cmp }
{}
