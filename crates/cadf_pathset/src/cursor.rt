//! Visits lists in order.
ghost use Rattle.std.specs.Prelude.{◌≡◌, ◌≤◌, [], OnOk, IfOk, length, ◌+◌, ◌++◌, IfErr, take};
ghost use Rattle.cadf_join.specs.Contents.{texts_cmp};
ghost use Rattle.cadf_join.specs.Prefixes.{texts_at, continued};
ghost use Rattle.cadf_pathset.specs.Nodes.{Agree, AreThere, IsLine, list_at, lists_at, place, shared};
ghost use Rattle.cadf_pathset.specs.Walks.{Advances, Place};

use crate::lines::{cmp_from, follow};
use crate::nodes::Nodes;
use crate::{Memory, Visitor};
use std::alloc::Global;
use std::cmp::Ordering;
use std::marker::Model;

/// A cursor: the list at which it is, and the lists after it.
#[derive(Drop)]
pub struct Cursor<'a> {
    nodes: &'a Nodes,
    numbers: &'a [usize],
    path: Vec<&'a str>,
    line: Vec<usize>,
    up: Vec<usize>,
}

impl<'a> Model for Cursor<'a> {
    ghost Value = { Place };

    ghost view = { λ c. (texts_at c.path.items, lists_at c.nodes.now c.numbers.now) };

    ghost invariant = { λ c. AreThere c.nodes.now c.numbers.now × IsLine c.nodes.now c.line.items (texts_at c.path.items) };
}

impl<'a> Cursor<'a> {
    /// Makes a cursor before the first of the nodes' lists. Allocates nothing.
    pub(crate) fn new(alloc: Global, nodes: &'a Nodes, numbers: &'a [usize]) -> Cursor<'a>
        requires { AreThere nodes.now numbers.now }
        ensures path { result.0 ≡ [] }
        ensures ahead { result.1 ≡ lists_at nodes.now numbers.now }
    {
        Cursor {
            nodes,
            numbers,
            path: Vec::new(alloc),
            line: Vec::new(alloc),
            up: Vec::new(alloc),
        }
    }

    /// Returns the list at the cursor.
    pub fn path(&self) -> &[&'a str]
        ensures { texts_at result.now ≡ self.now.0 }
    {
        self.path.as_slice()
    }

    /// Moves to the next list. Returns how many first texts it shares with the list before, or with the empty list.
    /// `None` if there is no next list.
    pub fn advance(&mut self) -> Result<Option<usize>, Memory>
        ensures { IfOk result (λ found. Advances found self.old self.new) }
    {
        let [number, numbers @ ..] = self.numbers else {
            return Ok(None);
        };
        match turn(
            self.nodes,
            *number,
            &mut self.line,
            &mut self.path,
            &mut self.up,
        ) {
            Ok(shared) => {
                self.numbers = numbers;
                Ok(Some(shared))
            }
            Err(fault) => {
                self.line.clear();
                self.path.clear();
                Err(fault)
            }
        }
    }

    /// Compares the list at the cursor with another, with which it is known to share its first `known` texts. Returns
    /// the order, and a number of first texts that both share.
    pub fn cmp(&self, list: &[&str], known: usize) -> (Ordering, usize)
        requires { Agree known self.now.0 (texts_at list.now) }
        ensures order { result.0 ≡ texts_cmp self.now.0 (texts_at list.now) }
        ensures agreed { Agree result.1 self.now.0 (texts_at list.now) }
    {
        cmp_from(self.nodes, self.line.as_slice(), list, known)
    }
}

/// Replaces a line, and the path of its texts, by those of the node. Returns how many first texts both lists share.
fn turn<'a>(
    nodes: &'a Nodes,
    node: usize,
    line: &mut Vec<usize>,
    path: &mut Vec<&'a str>,
    up: &mut Vec<usize>,
) -> Result<usize, Memory>
    requires there { node ≤ length nodes.now }
    requires line { IsLine nodes.now line.old.items (texts_at path.old.items) }
    ensures line { OnOk result (IsLine nodes.now line.new.items (list_at nodes.now node)) }
    ensures path { OnOk result (texts_at path.new.items ≡ list_at nodes.now node) }
    ensures shared { IfOk result (λ n. n ≡ shared (list_at nodes.now node) (texts_at path.old.items)) }
{
    let common = follow(nodes, node, line, up)?;
    let (_, shared) = cmp_from(nodes, line.as_slice(), path.as_slice(), common);
    read_line(nodes, line.as_slice(), common, path)?;
    Ok(shared)
}

/// Replaces the texts after the first `common` of the path by those of the line's nodes.
fn read_line<'a>(
    nodes: &'a Nodes,
    line: &[usize],
    common: usize,
    path: &mut Vec<&'a str>,
) -> Result<(), Memory>
    requires line { IsLine nodes.now line.now (place nodes.now line.now) }
    requires known { Agree common (texts_at path.old.items) (place nodes.now line.now) }
    ensures { OnOk result (texts_at path.new.items ≡ place nodes.now line.now) }
{
    path.truncate(common);
    while path.len() < line.len() {
        path.push(nodes.text(line[path.len()]))?;
    }
    Ok(())
}

/// Passes each list before which the cursor is, after the path, in order to the visitor, with the number of texts that
/// it shares with the previous list. Stops at the visitor's first fault. Copies no text.
pub(crate) fn visit_all<'a, S: Visitor>(
    cursor: Cursor<'a>,
    path: &mut Vec<&'a str>,
    visitor: &mut S,
) -> Result<(), S::Fault>
    requires { cursor.0 ≡ [] }
    ensures path { OnOk result (path.new.items ≡ path.old.items) }
    ensures shown { OnOk result (S.takes visitor.old (continued (texts_at path.old.items) cursor.entry.1) visitor.new) }
    ensures stopped { IfErr result (λ f. S.stops visitor.old (continued (texts_at path.old.items) cursor.entry.1) f visitor.new) }
{
    let before = path.len();
    let mut common: usize = 0;
    let mut cursor = cursor;
    while let Some(shared) = cursor.advance()? {
        replace_after(path, before, cursor.path(), shared)?;
        visitor.visit(path.as_slice(), common + shared)?;
        common = before;
    }
    path.truncate(before);
    Ok(())
}

/// Replaces the list that follows the first `before` texts of the path by another list, which shares its first `shared`
/// texts with it.
fn replace_after<'a>(
    path: &mut Vec<&'a str>,
    before: usize,
    list: &[&'a str],
    shared: usize,
) -> Result<(), Memory>
    requires within { shared ≤ length list.now }
    requires there { before + shared ≤ length path.old.items }
    requires same { take (before + shared) (texts_at path.old.items) ≡ take before (texts_at path.old.items) ++ take shared (texts_at list.now) }
    ensures kept { OnOk result (take before path.new.items ≡ take before path.old.items) }
    ensures list { OnOk result (texts_at path.new.items ≡ take before (texts_at path.old.items) ++ texts_at list.now) }
{
    let (_, rest) = list.split_at(shared);
    path.truncate(before + shared);
    path.extend_from_slice(rest)?;
    Ok(())
}
