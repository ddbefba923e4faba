//! The pages on the way to what comes next in an iteration over a tree.

ghost use Rattle.std.specs.Prelude.{◌≡◌, ◌+◌, ◌<◌, ◌≤◌, ◌++◌, length, IfSome};
ghost use Rattle.std.specs.Vec.{vec_len, vec_capacity};
ghost use Rattle.merkle_tree_theory.specs.Tree.{held_of, held_size, tree_size};
ghost use Rattle.merkle_tree_theory.specs.Page.{level, nodes_in_order, LevelsFall, RowFalls, HeldFalls, pages_below};
ghost use Rattle.merkle_search_tree.specs.Path.{from_first, behind_first, rest_of, pages_left, rest_with, pages_with};
ghost use Rattle.merkle_search_tree.specs.Path.{HasRoom, PathFits, PassesNode, PassesPages};
ghost use Rattle.merkle_search_tree.specs.Rows.{as_row};

use crate::page::{NodeOf, PageOf};

/// The nodes of a [`Page`](crate::Page) that are still to come, of which the first comes next, and the page above them.
#[derive(Drop)]
pub(crate) struct Visit<'a, K, D> {
    level: u8,
    nodes: &'a [NodeOf<K, D>],
    high_page: &'a Option<Box<PageOf<K, D>>>,
}

/// Takes the next node off the path, and returns it with the pointer to what stands after it.
pub(crate) fn pass<'a, K, D>(
    path: &mut Vec<Visit<'a, K, D>>,
) -> Option<(&'a NodeOf<K, D>, &'a Option<Box<PageOf<K, D>>>)>
    requires { PathFits (vec_capacity path.old) 0 path.old.items }
    ensures fits { PathFits (vec_capacity path.new) 0 path.new.items }
    ensures nodes { PassesNode path.old.items path.new.items result }
    ensures pages { PassesPages path.old.items path.new.items result }
    ensures room { IfSome result (λ passed. HasRoom (vec_len path.new) (vec_capacity path.new) (held_of passed.1.now)) }
{
    let visit = path.pop()?;
    let (first, others) = match visit.nodes.split_first() {
        Some(parts) => parts,
        None => unreachable!(),
    };
    if others.is_empty() {
        return Some((first, visit.high_page));
    }
    let next = &others[0];
    push(path, visit.level, others, visit.high_page);
    Some((first, &next.lt_pointer))
}

/// Puts a page on the path, where it has a node, and returns the pointer to what stands before its first node.
pub(crate) fn enter<'a, K, D>(
    path: &mut Vec<Visit<'a, K, D>>,
    page: &'a PageOf<K, D>,
) -> &'a Option<Box<PageOf<K, D>>>
    requires falls { LevelsFall page.now }
    requires room { vec_len path.old + level page.now < vec_capacity path.old }
    requires path_fits { PathFits (vec_capacity path.old) 0 path.old.items }
    ensures fits { PathFits (vec_capacity path.new) 0 path.new.items }
    ensures nodes { rest_with (held_of result.now) path.new.items ≡ nodes_in_order page.now ++ rest_of path.old.items }
    ensures pages { pages_with (held_of result.now) path.new.items ≡ pages_below page.now ++ pages_left path.old.items }
    ensures below { HeldFalls (level page.now) (held_of result.now) }
    ensures room_left { vec_len path.new + level page.now ≤ vec_capacity path.new }
    ensures smaller { held_size (held_of result.now) < tree_size page.now }
{
    if page.nodes.is_empty() {
        return &page.high_page;
    }
    let first = &page.nodes[0];
    push(path, page.level, &page.nodes, &page.high_page);
    &first.lt_pointer
}

/// Puts what is left of a page on the path, which has room for it.
fn push<'a, K, D>(
    path: &mut Vec<Visit<'a, K, D>>,
    level: u8,
    nodes: &'a [NodeOf<K, D>],
    high_page: &'a Option<Box<PageOf<K, D>>>,
)
    requires some { 0 < length nodes.now }
    requires falls { RowFalls level (as_row nodes.now high_page.now) }
    requires room { vec_len path.old + level < vec_capacity path.old }
    requires path_fits { PathFits (vec_capacity path.old) 0 path.old.items }
    ensures fits { PathFits (vec_capacity path.new) 0 path.new.items }
    ensures nodes { rest_of path.new.items ≡ from_first (as_row nodes.now high_page.now) ++ rest_of path.old.items }
    ensures pages { pages_left path.new.items ≡ behind_first (as_row nodes.now high_page.now) ++ pages_left path.old.items }
    ensures room_left { vec_len path.new + level ≤ vec_capacity path.new }
{
    let visit = Visit {
        level,
        nodes,
        high_page,
    };
    path.push_reserved(visit);
}
