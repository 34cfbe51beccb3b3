//! An arena of nodes, each of which adds one text to the list of its parent.
ghost use Rattle.std.specs.Prelude.{◌≡◌, ◌<◌, ◌≤◌, ◌+◌, ◌++◌, [], ◌∷◌, ℕ, OnOk, OnErr, IfOk, length, take, drop, List, get_or, string_bytes};
ghost use Rattle.std.specs.Option.{option_copied};
ghost use Rattle.cadf_join.specs.Prefixes.{chain_texts};
ghost use Rattle.cadf_pathset.specs.Lists.{first_text};
ghost use Rattle.cadf_pathset.specs.Nodes.{Agree, last_text, list_at, rest_of, AreNodes, lists};
ghost use Rattle.cadf_join.specs.Contents.{Texts};
ghost use Rattle.cadf_pathset.specs.Block.{AreEnds, texts_from};

use crate::Memory;
use std::alloc::Global;
use std::marker::Model;

/// Nodes, numbered from 1. A node adds one text to the list of its parent: a node of a smaller number, or the root,
/// which has the number 0.
#[derive(Drop)]
pub struct Nodes {
    parents: Vec<usize>,
    texts: Pool,
}

impl Model for Nodes {
    ghost Value = { List Texts };

    ghost view = { λ n. lists n.parents.items n.texts };

    ghost invariant = { λ n. AreNodes n.parents.items n.texts };
}

impl Nodes {
    /// Makes an empty arena. Allocates nothing.
    pub fn new(alloc: Global) -> Nodes
        ensures { result ≡ [] }
    {
        Nodes {
            parents: Vec::new(alloc),
            texts: Pool::new(alloc),
        }
    }

    /// Returns `depth + 1`, or `depth` if no list has more texts.
    pub fn next_depth(&self, depth: usize) -> usize
        ensures { (n : ℕ) → n ≤ length self.now → rest_of self.now result n ≡ drop 1 (rest_of self.now depth n) }
    {
        if depth < self.parents.len() {
            return depth + 1;
        }
        depth
    }

    /// Appends a node and returns its number. After an `Err` the nodes are as before.
    pub fn push(&mut self, parent: usize, text: &str) -> Result<usize, Memory>
        requires { parent ≤ length self.old }
        ensures ok { OnOk result (self.new ≡ self.old ++ (list_at self.old parent ++ text.now ∷ []) ∷ []) }
        ensures number { IfOk result (λ n. n ≡ length self.old + 1) }
        ensures err { OnErr result (self.new ≡ self.old) }
    {
        self.parents.push(parent)?;
        match self.texts.push(text) {
            Ok(()) => Ok(self.parents.len()),
            Err(fault) => {
                self.parents.pop();
                Err(fault)
            }
        }
    }

    /// Counts the nodes.
    pub fn count(&self) -> usize
        ensures { result ≡ length self.now }
    {
        self.parents.len()
    }

    /// Drops all but the first `count` nodes, with their texts.
    pub fn truncate(&mut self, count: usize)
        ensures { self.new ≡ take count self.old }
    {
        self.parents.truncate(count);
        self.texts.truncate(count);
    }

    /// Returns the node's parent.
    pub fn parent(&self, node: usize) -> usize
        requires behind { 0 < node }
        requires there { node ≤ length self.now }
        ensures before { result < node }
        ensures list { list_at self.now node ≡ list_at self.now result ++ last_text (list_at self.now node) ∷ [] }
    {
        self.parents[node - 1]
    }

    /// Returns the node's text.
    pub fn text(&self, node: usize) -> &str
        requires behind { 0 < node }
        requires there { node ≤ length self.now }
        ensures { result.now ≡ last_text (list_at self.now node) }
    {
        self.texts.text(node - 1)
    }
}

/// Counts the texts of the node's list.
pub(crate) fn depth(nodes: &Nodes, node: usize) -> usize
    requires { node ≤ length nodes.now }
    ensures { result ≡ length (list_at nodes.now node) }
{
    let mut at = node;
    let mut depth: usize = 0;
    while at > 0 {
        at = nodes.parent(at);
        depth += 1;
    }
    depth
}

/// Returns the ancestor whose list is the first `wanted` texts of the node's list, which has `has` texts. Returns the
/// node itself if it has no more.
pub(crate) fn ancestor(nodes: &Nodes, node: usize, has: usize, wanted: usize) -> usize
    requires there { node ≤ length nodes.now }
    requires has { has ≡ length (list_at nodes.now node) }
    ensures there { result ≤ length nodes.now }
    ensures list { list_at nodes.now result ≡ take wanted (list_at nodes.now node) }
{
    let mut at = node;
    let mut depth = has;
    while depth > wanted && at > 0 {
        at = nodes.parent(at);
        depth -= 1;
    }
    at
}

/// Counts the texts that the lists of two nodes share as those of one ancestor. Since parents have smaller numbers than
/// their children, it climbs from the greater number.
pub(crate) fn common_depth(nodes: &Nodes, node: usize, other: usize) -> usize
    requires ours { node ≤ length nodes.now }
    requires theirs { other ≤ length nodes.now }
    ensures { Agree result (list_at nodes.now node) (list_at nodes.now other) }
{
    let mut a = node;
    let mut b = other;
    while a != b {
        if a > b {
            a = nodes.parent(a);
        } else {
            b = nodes.parent(b);
        }
    }
    depth(nodes, a)
}

/// Returns the text at index `place` of the node's list without its first `skipped` texts. `None` if there is none.
pub(crate) fn text_at(nodes: &Nodes, node: usize, skipped: usize, place: usize) -> Option<&str>
    requires { node ≤ length nodes.now }
    ensures { option_copied result ≡ first_text (drop place (rest_of nodes.now skipped node)) }
{
    let has = depth(nodes, node);
    if has.saturating_sub(skipped) <= place {
        return None;
    }
    Some(nodes.text(ancestor(nodes, node, has, skipped + place + 1)))
}

/// Copies the texts of the node's list from index `skipped` on.
pub(crate) fn copy_after(
    alloc: Global,
    nodes: &Nodes,
    node: usize,
    skipped: usize,
) -> Result<Vec<String>, Memory>
    requires { node ≤ length nodes.now }
    ensures { IfOk result (λ copied. chain_texts copied.items ≡ rest_of nodes.now skipped node) }
{
    let mut left = depth(nodes, node);
    let kept = skipped.min(left);
    let mut texts = Vec::with_capacity(alloc, left - kept)?;
    let mut at = node;
    while left > kept && at > 0 {
        texts.push(String::from_str(alloc, nodes.text(at))?)?;
        at = nodes.parent(at);
        left -= 1;
    }
    texts.as_mut_slice().reverse();
    Ok(texts)
}

/// Texts in the order in which they were appended: each begins at the end of the text before.
#[derive(Drop)]
pub(crate) struct Pool {
    block: String,
    ends: Vec<usize>,
}

impl Model for Pool {
    ghost Value = { Texts };

    ghost view = { λ p. texts_from 0 p.ends.items (string_bytes p.block) };

    ghost invariant = { λ p. AreEnds 0 p.ends.items (string_bytes p.block) };
}

impl Pool {
    /// Makes an empty pool. Allocates nothing.
    pub fn new(alloc: Global) -> Pool
        ensures { result ≡ [] }
    {
        Pool {
            block: String::new(alloc),
            ends: Vec::new(alloc),
        }
    }

    /// Appends the text. After an `Err` the texts are as before.
    pub fn push(&mut self, text: &str) -> Result<(), Memory>
        ensures ok { OnOk result (self.new ≡ self.old ++ text.now ∷ []) }
        ensures err { OnErr result (self.new ≡ self.old) }
    {
        self.ends.push(self.block.as_str().len() + text.len())?;
        match self.block.push_str(text) {
            Ok(()) => Ok(()),
            Err(fault) => {
                self.ends.pop();
                Err(fault)
            }
        }
    }

    /// Drops all but the first `count` texts.
    pub fn truncate(&mut self, count: usize)
        ensures { self.new ≡ take count self.old }
    {
        if count < self.ends.len() {
            let end = start_of(self.ends.as_slice(), count);
            self.ends.truncate(count);
            self.block.truncate(end);
        }
    }

    /// Returns the text at index `number`.
    pub fn text(&self, number: usize) -> &str
        requires { number < length self.now }
        ensures { result.now ≡ get_or self.now number [] }
    {
        let start = start_of(self.ends.as_slice(), number);
        let (_, rest) = self.block.as_str().split_at(start);
        let (text, _) = rest.split_at(self.ends[number] - start);
        text
    }
}

/// Returns the offset at which the text at that index begins.
fn start_of(ends: &[usize], number: usize) -> usize
    requires { number ≤ length ends.now }
    ensures { result ≡ get_or (0 ∷ ends.now) number 0 }
{
    if number == 0 {
        return 0;
    }
    ends[number - 1]
}
