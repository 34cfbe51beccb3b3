//! Sorting the lists of nodes.
ghost use Rattle.std.specs.Prelude.{◌≡◌, ◌≤◌, IfOk, true, false, length, ◌++◌};
ghost use Rattle.std.specs.List.Sorted.{IsStrictlySortedBy};
ghost use Rattle.cadf_join.specs.Contents.{texts_cmp, Texts};
ghost use Rattle.cadf_join.specs.Sets as set;
ghost use Rattle.cadf_pathset.specs.Nodes.{AreThere, lists_at, list_at};
ghost use Rattle.cadf_pathset.specs.Merge.{sorted_merge};
ghost use Rattle.std.specs.declared.cmp.Ordering.TheVariants.{Equal};
ghost use Rattle.cadf_pathset.specs.Fork.{IsFork};

use crate::Memory;
use crate::nodes::{Nodes, ancestor, depth};
use std::alloc::Global;
use std::cmp::Ordering;

/// Returns whether each list is below the next. If not, there are two or more.
fn is_rising(nodes: &Nodes, numbers: &[usize]) -> bool
    requires { AreThere nodes.now numbers.now }
    ensures rises { result ≡ true → IsStrictlySortedBy texts_cmp (lists_at nodes.now numbers.now) }
    ensures several { result ≡ false → 2 ≤ length numbers.now }
{
    let mut fork = Fork::unknown();
    let mut rest = numbers;
    while rest.len() >= 2 {
        let (_, more) = rest.split_at(1);
        if !parting_cmp(nodes, rest[0], more[0], &mut fork).is_lt() {
            return false;
        }
        rest = more;
    }
    true
}

/// Merges two lists of nodes by their lists of texts, each once, in order.
fn merged(alloc: Global, nodes: &Nodes, a: &[usize], b: &[usize]) -> Result<Vec<usize>, Memory>
    requires ours { AreThere nodes.now a.now }
    requires theirs { AreThere nodes.now b.now }
    ensures there { IfOk result (λ all. AreThere nodes.now all.items) }
    ensures merged { IfOk result (λ all. lists_at nodes.now all.items
        ≡ sorted_merge texts_cmp true (lists_at nodes.now a.now) (lists_at nodes.now b.now)) }
{
    let mut all = Vec::with_capacity(alloc, a.len().saturating_add(b.len()))?;
    let mut ours = a;
    let mut theirs = b;
    let mut fork = Fork::unknown();
    while let [number, numbers @ ..] = ours {
        let [other, others @ ..] = theirs else {
            all.extend_from_slice(ours)?;
            return Ok(all);
        };
        match next_cmp(nodes, *number, *other, &mut fork) {
            Ordering::Less => {
                all.push(*number)?;
                ours = numbers;
            }
            Ordering::Equal => {
                all.push(*number)?;
                ours = numbers;
                theirs = others;
            }
            Ordering::Greater => {
                all.push(*other)?;
                theirs = others;
            }
        }
    }
    all.extend_from_slice(theirs)?;
    Ok(all)
}

/// Returns the lists, each once, in order. Merge sort.
pub(crate) fn sorted(alloc: Global, nodes: &Nodes, numbers: &[usize]) -> Result<Vec<usize>, Memory>
    requires { AreThere nodes.now numbers.now }
    ensures there { IfOk result (λ all. AreThere nodes.now all.items) }
    ensures rises { IfOk result (λ all. IsStrictlySortedBy texts_cmp (lists_at nodes.now all.items)) }
    ensures same { IfOk result (λ all. set.from_list {R = texts_cmp} (lists_at nodes.now all.items) ≡ set.from_list (lists_at nodes.now numbers.now)) }
{
    if is_rising(nodes, numbers) {
        return Ok(Vec::from_slice(alloc, numbers)?);
    }
    let (front, back) = numbers.split_at(numbers.len() / 2);
    let front = sorted(alloc, nodes, front)?;
    let back = sorted(alloc, nodes, back)?;
    merged(alloc, nodes, front.as_slice(), back.as_slice())
}

/// Two nodes whose lists differ in their last texts alone, and the order of these texts. `Equal` if no such nodes are
/// known.
#[derive(Clone, Copy, Drop)]
pub(crate) struct Fork {
    a: usize,
    b: usize,
    order: Ordering,
}

impl Fork {
    /// Makes a fork without nodes.
    pub fn unknown() -> Fork
        ensures order { result.order ≡ Equal }
        ensures root { (result.a ≡ 0) × (result.b ≡ 0) }
    {
        Fork {
            a: 0,
            b: 0,
            order: Ordering::Equal,
        }
    }

    /// Returns the fork at these nodes if their order isn't `Equal`, otherwise the fork before.
    fn or_nearer(self, a: usize, b: usize, order: Ordering) -> Fork
        ensures same { order ≡ Equal → result ≡ self }
        ensures other { (order ≡ Equal → ⊥) → result ≡ record { a = a; b = b; order = order } }
    {
        if order.is_eq() {
            self
        } else {
            Fork { a, b, order }
        }
    }
}

/// Returns whether `front` is an ancestor of the node, or the node itself: the node's list then begins with that of
/// `front`.
pub(crate) fn goes_on(nodes: &Nodes, node: usize, front: usize) -> bool
    requires { node ≤ length nodes.now }
    ensures { result ≡ true → (rest : Texts) × (list_at nodes.now node ≡ list_at nodes.now front ++ rest) }
{
    let mut at = node;
    while at > front {
        at = nodes.parent(at);
    }
    at == front
}

/// Compares the lists of two nodes: at once if they begin with those of the fork's nodes, otherwise by a search for the
/// nodes at which they diverge.
pub(crate) fn next_cmp(nodes: &Nodes, node: usize, other: usize, fork: &mut Fork) -> Ordering
    requires ours { node ≤ length nodes.now }
    requires theirs { other ≤ length nodes.now }
    requires known { IsFork nodes.now fork.old }
    ensures order { result ≡ texts_cmp (list_at nodes.now node) (list_at nodes.now other) }
    ensures known { IsFork nodes.now fork.new }
{
    let known = *fork;
    if !known.order.is_eq() && goes_on(nodes, node, known.a) && goes_on(nodes, other, known.b) {
        return known.order;
    }
    parting_cmp(nodes, node, other, fork)
}

/// Climbs from two nodes to children of one parent, and compares the children's texts. `Equal` leaves the order open:
/// one list may begin with the other. Since parents have smaller numbers than their children, it climbs from the
/// greater number.
fn sibling_fork(nodes: &Nodes, node: usize, other: usize) -> Fork
    requires ours { node ≤ length nodes.now }
    requires theirs { other ≤ length nodes.now }
    ensures known { IsFork nodes.now result }
    ensures ours { (rest : Texts) × (list_at nodes.now node ≡ list_at nodes.now result.a ++ rest) }
    ensures theirs { (rest : Texts) × (list_at nodes.now other ≡ list_at nodes.now result.b ++ rest) }
{
    let mut ours: usize = 0;
    let mut theirs: usize = 0;
    let mut a = node;
    let mut b = other;
    while a != b {
        if a > b {
            ours = a;
            a = nodes.parent(a);
        } else {
            theirs = b;
            b = nodes.parent(b);
        }
    }
    if ours > 0 && theirs > 0 {
        let order = nodes.text(ours).cmp(nodes.text(theirs));
        return Fork {
            a: ours,
            b: theirs,
            order,
        };
    }
    Fork::unknown()
}

/// Compares the lists of two nodes, and finds the nodes at which they diverge. The difference nearest to the root
/// decides: it is at two children of one parent, unless these have the same text.
pub(crate) fn parting_cmp(nodes: &Nodes, node: usize, other: usize, fork: &mut Fork) -> Ordering
    requires ours { node ≤ length nodes.now }
    requires theirs { other ≤ length nodes.now }
    ensures order { result ≡ texts_cmp (list_at nodes.now node) (list_at nodes.now other) }
    ensures known { IsFork nodes.now fork.new }
{
    let mut near = sibling_fork(nodes, node, other);
    if !near.order.is_eq() {
        *fork = near;
        return near.order;
    }
    let has = depth(nodes, node);
    let its = depth(nodes, other);
    let mut found = has.cmp(&its);
    let mut a = ancestor(nodes, node, has, its);
    let mut b = ancestor(nodes, other, its, has);
    while a != b && a > 0 && b > 0 {
        let order = nodes.text(a).cmp(nodes.text(b));
        found = order.then(found);
        near = near.or_nearer(a, b, order);
        a = nodes.parent(a);
        b = nodes.parent(b);
    }
    *fork = near;
    found
}
