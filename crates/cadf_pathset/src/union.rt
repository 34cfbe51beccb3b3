//! The union of two sets of lists, within the nodes of the first.
ghost use Rattle.std.specs.Prelude.{◌≡◌, ◌≤◌, ◌-◌, ◌++◌, [], ◌∷◌, List, OnOk, IfOk, length, take, drop, true};
ghost use Rattle.std.specs.List.{AllByRecursion};
ghost use Rattle.std.specs.List.Sorted.{IsStrictlySortedBy};
ghost use Rattle.std.specs.declared.cmp.Ordering.TheVariants.{Less};
ghost use Rattle.cadf_join.specs.Contents.{Texts, texts_cmp};
ghost use Rattle.cadf_pathset.specs.Merge.{IsMerging, sorted_merge};
ghost use Rattle.cadf_pathset.specs.Nodes.{AreThere, list_at, lists_at};
ghost use Rattle.cadf_pathset.specs.Walks.{lists_ahead};

use crate::Memory;
use crate::compare::list_cmp;
use crate::cursor::Cursor;
use crate::lines::{cmp_from, end_of, extend, follow};
use crate::nodes::Nodes;
use crate::path_vec::PathVec;
use crate::sort::goes_on;
use std::alloc::Global;
use std::cmp::Ordering;

/// After this many comparisons of our lists in a row, a galloping search begins.
const LONG: usize = 8;

/// A merge of lists of ours and those of a cursor, theirs.
#[derive(Drop)]
pub(crate) struct Merger<'a> {
    cursor: Cursor<'a>,
    /// The line of our list compared last. It is known to share its first `agreed` texts with theirs.
    line: Vec<usize>,
    up: Vec<usize>,
    agreed: usize,
    /// The line, of our nodes, of a prefix of their list.
    out: Vec<usize>,
}

impl<'a> Merger<'a> {
    /// Compares one of our lists with theirs. Skips the first texts that both are known to share.
    fn compare(&mut self, nodes: &Nodes, number: usize) -> Result<Ordering, Memory>
        requires there { number ≤ length nodes.now }
        requires front { IsMerging nodes.now self.old }
        ensures cursor { self.new.cursor ≡ self.old.cursor }
        ensures front { OnOk result (IsMerging nodes.now self.new) }
        ensures order { IfOk result (λ r. r ≡ texts_cmp (list_at nodes.now number) self.old.cursor.0) }
    {
        let common = follow(nodes, number, &mut self.line, &mut self.up)?;
        let known = self.agreed.min(common);
        let (order, both) = cmp_from(nodes, self.line.as_slice(), self.cursor.path(), known);
        self.agreed = both;
        if both > self.out.len() {
            let (front, _) = self.line.as_slice().split_at(both);
            self.out.clear();
            self.out.extend_from_slice(front)?;
        }
        Ok(order)
    }

    /// Moves to their next list, and returns whether there is one.
    fn enter(&mut self) -> Result<bool, Memory>
        ensures ahead { IfOk result (λ more. lists_ahead more self.new.cursor ≡ self.old.cursor.1) }
        ensures front { OnOk result ((ls : List Texts) → IsMerging ls self.old → IsMerging ls self.new) }
    {
        match self.cursor.advance()? {
            Some(shared) => {
                self.out.truncate(shared);
                self.agreed = self.agreed.min(shared);
                Ok(true)
            }
            None => Ok(false),
        }
    }

    /// Appends their list, with new nodes for the texts that our nodes lack. Moves to their next list, and returns
    /// whether there is one.
    fn append(&mut self, nodes: &mut Nodes, all: &mut Vec<usize>) -> Result<bool, Memory>
        requires front { IsMerging nodes.old self.old }
        requires there { AreThere nodes.old all.old.items }
        ensures kept { take (length nodes.old) nodes.new ≡ nodes.old }
        ensures there { OnOk result (AreThere nodes.new all.new.items) }
        ensures lists { OnOk result (lists_at nodes.new all.new.items ≡ lists_at nodes.old all.old.items ++ self.old.cursor.0 ∷ []) }
        ensures ahead { IfOk result (λ more. lists_ahead more self.new.cursor ≡ self.old.cursor.1) }
        ensures front { OnOk result (IsMerging nodes.new self.new) }
    {
        extend(nodes, &mut self.out, self.cursor.path())?;
        all.push(end_of(self.out.as_slice()))?;
        self.enter()
    }

    /// Appends those of our lists that a galloping search finds below theirs, except the last of them. Returns the
    /// index of our next list.
    fn skip(
        &self,
        nodes: &Nodes,
        numbers: &[usize],
        at: usize,
        all: &mut Vec<usize>,
    ) -> Result<usize, Memory>
        requires ours { AreThere nodes.now numbers.now }
        requires rises { IsStrictlySortedBy texts_cmp (lists_at nodes.now numbers.now) }
        requires within { at ≤ length numbers.now }
        requires front { IsMerging nodes.now self.now }
        requires there { AreThere nodes.now all.old.items }
        ensures from { IfOk result (λ to. at ≤ to) }
        ensures within { IfOk result (λ to. to ≤ length numbers.now) }
        ensures there { OnOk result (AreThere nodes.now all.new.items) }
        ensures lists { IfOk result (λ to. lists_at nodes.now all.new.items
            ≡ lists_at nodes.now all.old.items ++ take (to - at) (drop at (lists_at nodes.now numbers.now))) }
        ensures below { IfOk result (λ to. AllByRecursion (λ l. texts_cmp l self.now.cursor.0 ≡ Less)
            (take (to - at) (drop at (lists_at nodes.now numbers.now)))) }
    {
        let out = self.out.as_slice();
        let path = self.cursor.path();
        let mut low = at;
        let mut step: usize = 1;
        while step <= numbers.len() - low {
            let probe = low + (step - 1);
            let is_behind = goes_on(nodes, numbers[probe], end_of(out));
            let known = if is_behind { out.len() } else { 0 };
            let (order, _) = list_cmp(nodes, numbers[probe], path, known);
            if !order.is_lt() {
                break;
            }
            low = probe + 1;
            step = step.saturating_mul(2);
        }
        let last = low.saturating_sub(1).max(at);
        let (front, _) = numbers.split_at(last);
        let (_, part) = front.split_at(at);
        all.extend_from_slice(part)?;
        Ok(last)
    }

    /// Appends our lists and theirs, each once, in order.
    fn append_all(
        &mut self,
        nodes: &mut Nodes,
        numbers: &[usize],
        all: &mut Vec<usize>,
    ) -> Result<(), Memory>
        requires front { IsMerging nodes.old self.old }
        requires ours { AreThere nodes.old numbers.now }
        requires rises { IsStrictlySortedBy texts_cmp (lists_at nodes.old numbers.now) }
        requires none { all.old.items ≡ [] }
        ensures kept { take (length nodes.old) nodes.new ≡ nodes.old }
        ensures there { OnOk result (AreThere nodes.new all.new.items) }
        ensures merged { OnOk result (lists_at nodes.new all.new.items
            ≡ sorted_merge texts_cmp true (lists_at nodes.old numbers.now) self.old.cursor.1) }
    {
        let mut at: usize = 0;
        let mut run: usize = 0;
        let mut more = self.enter()?;
        while more {
            if run == LONG {
                at = self.skip(&*nodes, numbers, at, all)?;
                run = 0;
            } else if at < numbers.len() {
                let number = numbers[at];
                match self.compare(&*nodes, number)? {
                    Ordering::Less => {
                        all.push(number)?;
                        at += 1;
                        run += 1;
                    }
                    Ordering::Equal => {
                        all.push(number)?;
                        at += 1;
                        run = 0;
                        more = self.enter()?;
                    }
                    Ordering::Greater => {
                        run = 0;
                        more = self.append(nodes, all)?;
                    }
                }
            } else {
                more = self.append(nodes, all)?;
            }
        }
        let (_, rest) = numbers.split_at(at);
        all.extend_from_slice(rest)?;
        Ok(())
    }
}

/// Returns our lists and theirs, each once, in order. Copies no text of ours, and appends no node for a text that an
/// adjacent list of ours has.
pub(crate) fn merge(
    alloc: Global,
    nodes: &mut Nodes,
    numbers: &[usize],
    other: &PathVec,
) -> Result<Vec<usize>, Memory>
    requires there { AreThere nodes.old numbers.now }
    requires rises { IsStrictlySortedBy texts_cmp (lists_at nodes.old numbers.now) }
    ensures kept { take (length nodes.old) nodes.new ≡ nodes.old }
    ensures there { IfOk result (λ all. AreThere nodes.new all.items) }
    ensures merged { IfOk result (λ all. lists_at nodes.new all.items
        ≡ sorted_merge texts_cmp true (lists_at nodes.old numbers.now) other.now) }
{
    let mut all = Vec::with_capacity(alloc, numbers.len().saturating_add(other.count()))?;
    let mut merger = Merger {
        cursor: other.cursor(),
        line: Vec::new(alloc),
        up: Vec::new(alloc),
        agreed: 0,
        out: Vec::new(alloc),
    };
    merger.append_all(nodes, numbers, &mut all)?;
    Ok(all)
}
