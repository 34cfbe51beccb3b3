//! Compares the lists of nodes, without allocation and without recursion.
ghost use Rattle.std.specs.Prelude.{◌≡◌, ◌≤◌, ◌↔◌, IsTrue, length, map};
ghost use Rattle.cadf_join.specs.Contents.{texts_cmp};
ghost use Rattle.cadf_pathset.specs.Nodes.{Agree, list_at, shared};

use crate::lines::text_at;
use crate::nodes::{Nodes, ancestor, depth};
use std::cmp::Ordering;
use std::convert::AsStr;

/// Returns how many first texts two lists share: `here` if the texts at that index differ, otherwise `behind`, the
/// number found so far after them.
fn parted(order: Ordering, here: usize, behind: usize) -> usize
    ensures same { order ≡ Ordering.Equal → result ≡ behind }
    ensures other { (order ≡ Ordering.Equal → ⊥) → result ≡ here }
{
    if order.is_eq() { behind } else { here }
}

/// Compares the node's list with another, if both are known to share their first `known` texts. Returns the order, and
/// how many first texts they share. One climb, from the last texts up: the difference nearest to the root decides.
pub(crate) fn list_cmp<W: AsStr>(
    nodes: &Nodes,
    node: usize,
    list: &[W],
    known: usize,
) -> (Ordering, usize)
    requires there { node ≤ length nodes.now }
    requires known { Agree known (list_at nodes.now node) (map W.text list.now) }
    ensures order { result.0 ≡ texts_cmp (list_at nodes.now node) (map W.text list.now) }
    ensures agreed { result.1 ≡ shared (list_at nodes.now node) (map W.text list.now) }
{
    let has = depth(nodes, node);
    let mut found = has.cmp(&list.len());
    let mut at = ancestor(nodes, node, has, list.len());
    let mut depth = has.min(list.len());
    let mut agreed = depth;
    while depth > known && at > 0 {
        depth -= 1;
        let order = nodes.text(at).cmp(text_at(list, depth));
        agreed = parted(order, depth, agreed);
        found = order.then(found);
        at = nodes.parent(at);
    }
    (found, agreed)
}

/// Returns whether nodes of two arenas have the same list, if their lists are known to share their first `known` texts.
pub(crate) fn same_list(
    nodes: &Nodes,
    node: usize,
    others: &Nodes,
    other: usize,
    known: usize,
) -> bool
    requires ours { node ≤ length nodes.now }
    requires theirs { other ≤ length others.now }
    requires known { Agree known (list_at nodes.now node) (list_at others.now other) }
    ensures { IsTrue result ↔ (list_at nodes.now node ≡ list_at others.now other) }
{
    let mut left = depth(nodes, node);
    if left != depth(others, other) {
        return false;
    }
    let mut a = node;
    let mut b = other;
    while left > known && a > 0 && b > 0 {
        if nodes.text(a) != others.text(b) {
            return false;
        }
        a = nodes.parent(a);
        b = others.parent(b);
        left -= 1;
    }
    true
}
