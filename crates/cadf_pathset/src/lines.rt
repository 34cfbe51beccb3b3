//! Lines: the nodes of the first 1, 2, .. texts of a list.
ghost use Rattle.std.specs.Prelude.{◌≡◌, ◌<◌, ◌≤◌, ◌+◌, ◌++◌, [], ◌∷◌, List, OnOk, OnErr, IfOk, true, get_or, length, map, take};
ghost use Rattle.cadf_join.specs.Contents.{Texts, texts_cmp};
ghost use Rattle.cadf_pathset.specs.Lists.{last_of};
ghost use Rattle.cadf_pathset.specs.Nodes.{Agree, AreThere, IsLine, last_node, list_at, lists_at, place, shared};

use crate::Memory;
use crate::nodes::Nodes;
use std::cmp::Ordering;
use std::convert::AsStr;

/// Returns the text at index `number`.
pub(crate) fn text_at<W: AsStr>(list: &[W], number: usize) -> &str
    requires { number < length list.now }
    ensures { result.now ≡ get_or (map W.text list.now) number [] }
{
    list[number].as_str()
}

/// Returns the line's last node, or the root.
pub(crate) fn end_of(line: &[usize]) -> usize
    ensures { result ≡ last_node line.now }
{
    match line {
        [] => 0,
        [.., last] => *last,
    }
}

/// Replaces the line by that of the node, and returns how many nodes of the line it kept: the ancestors that both
/// share. Since parents have smaller numbers than their children, it steps back from the greater number. Collects in
/// `up` the nodes below those ancestors. After an `Err` the line is that of another list.
pub(crate) fn follow(
    nodes: &Nodes,
    node: usize,
    line: &mut Vec<usize>,
    up: &mut Vec<usize>,
) -> Result<usize, Memory>
    requires there { node ≤ length nodes.now }
    requires line { IsLine nodes.now line.old.items (place nodes.now line.old.items) }
    ensures line { IsLine nodes.now line.new.items (place nodes.now line.new.items) }
    ensures list { OnOk result (IsLine nodes.now line.new.items (list_at nodes.now node)) }
    ensures common { IfOk result (λ n. Agree n (place nodes.now line.old.items) (list_at nodes.now node)) }
{
    up.clear();
    let mut at = node;
    let mut top = end_of(line.as_slice());
    while at != top {
        if top > at {
            line.pop();
            top = end_of(line.as_slice());
        } else {
            up.push(at)?;
            at = nodes.parent(at);
        }
    }
    let common = line.len();
    while let Some(next) = up.pop() {
        line.push(next)?;
    }
    Ok(common)
}

/// Compares the line's list with the path, if both are known to share their first `known` texts. Returns the order, and
/// how many first texts they share.
pub(crate) fn cmp_from<W: AsStr>(
    nodes: &Nodes,
    line: &[usize],
    path: &[W],
    known: usize,
) -> (Ordering, usize)
    requires line { IsLine nodes.now line.now (place nodes.now line.now) }
    requires known { Agree known (place nodes.now line.now) (map W.text path.now) }
    ensures order { result.0 ≡ texts_cmp (place nodes.now line.now) (map W.text path.now) }
    ensures agreed { Agree result.1 (place nodes.now line.now) (map W.text path.now) }
    ensures most { result.1 ≡ shared (place nodes.now line.now) (map W.text path.now) }
{
    let mut agreed = known;
    while agreed < line.len() && agreed < path.len() {
        let order = nodes.text(line[agreed]).cmp(text_at(path, agreed));
        if !order.is_eq() {
            return (order, agreed);
        }
        agreed += 1;
    }
    (line.len().cmp(&path.len()), agreed)
}

/// Extends the line of a prefix of the path to the line of the whole path, by new nodes.
pub(crate) fn extend<W: AsStr>(
    nodes: &mut Nodes,
    line: &mut Vec<usize>,
    path: &[W],
) -> Result<(), Memory>
    requires line { IsLine nodes.old line.old.items (take (length line.old.items) (map W.text path.now)) }
    ensures kept { take (length nodes.old) nodes.new ≡ nodes.old }
    ensures line { IsLine nodes.new line.new.items (place nodes.new line.new.items) }
    ensures ok { OnOk result (place nodes.new line.new.items ≡ map W.text path.now) }
{
    while line.len() < path.len() {
        let number = nodes.push(end_of(line.as_slice()), text_at(path, line.len()))?;
        line.push(number)?;
    }
    Ok(())
}

/// Returns whether the line is that of the last of the nodes.
pub(crate) fn is_of_last(line: &[usize], numbers: &[usize]) -> bool
    ensures { result ≡ true → (ls : List Texts) → place ls line.now ≡ last_of [] (lists_at ls numbers.now) }
{
    match numbers {
        [] => line.is_empty(),
        [.., last] => end_of(line) == *last,
    }
}
