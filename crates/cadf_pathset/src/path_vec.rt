//! A vector of lists of texts that share the storage of common prefixes.
ghost use Rattle.std.specs.Prelude.{◌≡◌, ◌≤◌, ◌+◌, ◌<◌, ◌^◌, ◌++◌, [], ◌∷◌, ◌↔◌, OnOk, OnErr, IfErr, IfOk, IsTrue, None, Some, true, false, length, take, drop, get_or, map, slice_get, List};
ghost use Rattle.std.specs.List.{AllByRecursion, cons_option};
ghost use Rattle.std.specs.declared.cmp.Ordering.TheVariants.{Less};
ghost use Rattle.std.specs.List.Sorted.{IsStrictlySortedBy};
ghost use Rattle.std.specs.Option.{option_copied, option_map};
ghost use Rattle.std.specs.Ordering.{is_lt};
ghost use Rattle.cadf_join.specs.Contents.{is_after, texts_cmp, Texts};
ghost use Rattle.cadf_join.specs.Prefixes.{chain_texts, texts_at};
ghost use Rattle.cadf_pathset.specs.Lists.{at_places, last_of, last_starts_with, is_above_last};
ghost use Rattle.cadf_pathset.specs.Nodes.{Agree, AreThere, lists_at, shared, IsLine, place};
ghost use Rattle.cadf_join.specs.Sets as set;
ghost use Rattle.cadf_pathset.specs.Merge.{sorted_merge};

use crate::compare::{list_cmp, same_list};
use crate::cursor::{Cursor, visit_all};
use crate::lines::{cmp_from, end_of, extend, follow, is_of_last};
use crate::nodes::{Nodes, common_depth};
use crate::sort::sorted;
use crate::suffix_set::SuffixSet;
use crate::union::merge;
use crate::{Memory, Visitor};
use std::alloc::Global;
use std::cmp::Ordering;
use std::convert::AsStr;
use std::marker::Model;

/// Lists of texts, each as the number of its last node. Lists with a common prefix share its nodes.
#[derive(Drop)]
pub struct PathVec {
    nodes: Nodes,
    numbers: Vec<usize>,
    /// The line of the list added last, or of another list.
    line: Vec<usize>,
    alloc: Global,
}

impl Model for PathVec {
    ghost Value = { List Texts };

    ghost view = { λ v. lists_at v.nodes v.numbers.items };

    ghost invariant = { λ v. AreThere v.nodes v.numbers.items × IsLine v.nodes v.line.items (place v.nodes v.line.items) };
}

impl PathVec {
    /// Makes an empty vector. Allocates nothing.
    pub fn new(alloc: Global) -> PathVec
        ensures { result ≡ [] }
    {
        PathVec {
            nodes: Nodes::new(alloc),
            numbers: Vec::new(alloc),
            line: Vec::new(alloc),
            alloc,
        }
    }

    /// Returns the allocator.
    pub fn alloc(&self) -> Global {
        self.alloc
    }

    /// Appends the list, whose first `shared` texts are those of the last one. After an `Err` the lists are as before.
    pub fn push_after<W: AsStr>(&mut self, path: &[W], shared: usize) -> Result<(), Memory>
        requires { Agree shared (last_of [] self.old) (map W.text path.now) }
        ensures ok { OnOk result (self.new ≡ self.old ++ map W.text path.now ∷ []) }
        ensures err { OnErr result (self.new ≡ self.old) }
    {
        let at = self.numbers.len();
        self.put(at, path, shared)
    }

    /// Inserts the list at index `at`. After an `Err` the lists are as before.
    pub fn insert<W: AsStr>(&mut self, at: usize, path: &[W]) -> Result<(), Memory>
        requires { at ≤ length self.old }
        ensures ok { OnOk result (self.new ≡ take at self.old ++ map W.text path.now ∷ drop at self.old) }
        ensures err { OnErr result (self.new ≡ self.old) }
    {
        let near = nearest(&self.nodes, self.numbers.as_slice(), at, path);
        let mut up = Vec::new(self.alloc);
        follow(&self.nodes, near, &mut self.line, &mut up)?;
        self.put(at, path, 0)
    }

    /// Inserts the list, whose first `shared` texts are those of the last one, at index `at`. After an `Err` the lists
    /// are as before.
    fn put<W: AsStr>(&mut self, at: usize, path: &[W], shared: usize) -> Result<(), Memory>
        requires within { at ≤ length self.old }
        requires known { Agree shared (last_of [] self.old) (map W.text path.now) }
        ensures ok { OnOk result (self.new ≡ take at self.old ++ map W.text path.now ∷ drop at self.old) }
        ensures err { OnErr result (self.new ≡ self.old) }
    {
        let is_last = is_of_last(self.line.as_slice(), self.numbers.as_slice());
        let known = if is_last { shared } else { 0 };
        let (_, agreed) = cmp_from(&self.nodes, self.line.as_slice(), path, known);
        self.line.truncate(agreed);
        extend(&mut self.nodes, &mut self.line, path)?;
        self.numbers.insert(at, end_of(self.line.as_slice()))?;
        Ok(())
    }

    /// Returns whether the list is above the last one, with which it shares its first `shared` texts. True if there is
    /// none.
    pub fn is_above_last<W: AsStr>(&self, path: &[W], shared: usize) -> bool
        requires { Agree shared (last_of [] self.now) (map W.text path.now) }
        ensures { result ≡ is_above_last self.now (map W.text path.now) }
    {
        self.is_empty() || self.last_cmp(path, shared).0.is_lt()
    }

    /// Returns whether the last list begins with the prefix.
    pub fn last_starts_with<W: AsStr>(&self, prefix: &[W]) -> bool
        ensures { result ≡ last_starts_with self.now (map W.text prefix.now) }
    {
        !self.is_empty() && self.last_cmp(prefix, 0).1 == prefix.len()
    }

    /// Compares the last list with another, with which it is known to share its first `known` texts. Returns the order,
    /// and how many first texts they share.
    fn last_cmp<W: AsStr>(&self, path: &[W], known: usize) -> (Ordering, usize)
        requires some { 0 < length self.now }
        requires known { Agree known (last_of [] self.now) (map W.text path.now) }
        ensures order { result.0 ≡ texts_cmp (last_of [] self.now) (map W.text path.now) }
        ensures agreed { result.1 ≡ shared (last_of [] self.now) (map W.text path.now) }
    {
        if is_of_last(self.line.as_slice(), self.numbers.as_slice()) {
            return cmp_from(&self.nodes, self.line.as_slice(), path, known);
        }
        self.cmp_at(self.count() - 1, path, known)
    }

    /// Compares the list at that index with another, with which it is known to share its first `known` texts. Returns
    /// the order, and how many first texts they share.
    pub fn cmp_at<W: AsStr>(&self, number: usize, list: &[W], known: usize) -> (Ordering, usize)
        requires within { number < length self.now }
        requires known { Agree known (get_or self.now number []) (map W.text list.now) }
        ensures order { result.0 ≡ texts_cmp (get_or self.now number []) (map W.text list.now) }
        ensures agreed { result.1 ≡ shared (get_or self.now number []) (map W.text list.now) }
    {
        list_cmp(&self.nodes, self.numbers[number], list, known)
    }

    /// Merges the lists of `other` into these, each once. Copies no text of its own. After an `Err` the lists are as
    /// before.
    pub fn join(&mut self, other: &PathVec) -> Result<(), Memory>
        requires ours { IsStrictlySortedBy texts_cmp self.old }
        requires theirs { IsStrictlySortedBy texts_cmp other.now }
        ensures ok { OnOk result (self.new ≡ sorted_merge texts_cmp true self.old other.now) }
        ensures err { OnErr result (self.new ≡ self.old) }
    {
        let count = self.nodes.count();
        match merge(self.alloc, &mut self.nodes, self.numbers.as_slice(), other) {
            Ok(all) => {
                self.numbers = all;
                Ok(())
            }
            Err(fault) => {
                self.nodes.truncate(count);
                Err(fault)
            }
        }
    }

    /// Sorts the lists, each once. Copies no text.
    pub fn sort(&mut self) -> Result<(), Memory>
        ensures rises { OnOk result (IsStrictlySortedBy texts_cmp self.new) }
        ensures same { OnOk result (set.from_list {R = texts_cmp} self.new ≡ set.from_list self.old) }
    {
        self.numbers = sorted(self.alloc, &self.nodes, self.numbers.as_slice())?;
        Ok(())
    }

    /// Returns a cursor before the first list.
    pub fn cursor(&self) -> Cursor<'_>
        ensures path { result.0 ≡ [] }
        ensures ahead { result.1 ≡ self.now }
    {
        Cursor::new(self.alloc, &self.nodes, self.numbers.as_slice())
    }

    /// Passes the lists at these indices, in the order of the indices, to the visitor, like `Walk::walk`. Passes over
    /// an index that is too great.
    pub fn walk_at<S: Visitor>(&self, places: &[usize], visitor: &mut S) -> Result<(), S::Fault>
        ensures shown { OnOk result (S.takes visitor.old (at_places places.now self.now) visitor.new) }
        ensures stopped { IfErr result (λ f. S.stops visitor.old (at_places places.now self.now) f visitor.new) }
    {
        let numbers = numbers_at(self.alloc, self.numbers.as_slice(), places)?;
        let cursor = Cursor::new(self.alloc, &self.nodes, numbers.as_slice());
        let mut path = Vec::new(self.alloc);
        visit_all(cursor, &mut path, visitor)
    }

    /// Borrows all lists as suffixes of the empty prefix.
    pub fn whole(&self) -> SuffixSet<'_>
        requires { IsStrictlySortedBy texts_cmp self.now }
        ensures { result ≡ set.from_list self.now }
    {
        SuffixSet {
            nodes: &self.nodes,
            numbers: self.numbers.as_slice(),
            depth: 0,
            alloc: self.alloc,
        }
    }

    /// Returns the index of this list, or else of the first list above it. Binary search, which skips the texts that
    /// the lists at both bounds share with this one.
    pub fn seek<W: AsStr>(&self, list: &[W]) -> Result<usize, usize>
        requires { IsStrictlySortedBy texts_cmp self.now }
        ensures held { IfOk result (λ at. (at < length self.now) × (get_or self.now at [] ≡ map W.text list.now)) }
        ensures small { IfOk result (λ at. at + 1 < 2 ^ 64) }
        ensures within { IfErr result (λ at. at ≤ length self.now) }
        ensures below { IfErr result (λ at. AllByRecursion (λ l. texts_cmp l (map W.text list.now) ≡ Less) (take at self.now)) }
        ensures above { IfErr result (λ at. AllByRecursion (λ l. texts_cmp (map W.text list.now) l ≡ Less) (drop at self.now)) }
    {
        let mut low: usize = 0;
        let mut high = self.count();
        let mut front: usize = 0;
        let mut back: usize = 0;
        while low < high {
            let middle = low + (high - low) / 2;
            let (order, agreed) = self.cmp_at(middle, list, front.min(back));
            match order {
                Ordering::Less => {
                    low = middle + 1;
                    front = agreed;
                }
                Ordering::Equal => return Ok(middle),
                Ordering::Greater => {
                    high = middle;
                    back = agreed;
                }
            }
        }
        Err(low)
    }

    /// Returns whether there are no lists.
    pub fn is_empty(&self) -> bool
        ensures { IsTrue result ↔ (self.now ≡ []) }
    {
        self.numbers.is_empty()
    }

    /// Returns whether both have the same lists. What two lists share with those before them isn't compared again.
    pub fn same(&self, other: &PathVec) -> bool
        ensures { IsTrue result ↔ (self.now ≡ other.now) }
    {
        let mut left = self.numbers.as_slice();
        let mut rest = other.numbers.as_slice();
        let mut last: usize = 0;
        let mut its_last: usize = 0;
        while let [number, numbers @ ..] = left {
            let [it, its @ ..] = rest else {
                return false;
            };
            let ours = common_depth(&self.nodes, last, *number);
            let known = ours.min(common_depth(&other.nodes, its_last, *it));
            if !same_list(&self.nodes, *number, &other.nodes, *it, known) {
                return false;
            }
            last = *number;
            its_last = *it;
            left = numbers;
            rest = its;
        }
        rest.is_empty()
    }

    /// Counts the lists.
    pub fn count(&self) -> usize
        ensures { result ≡ length self.now }
    {
        self.numbers.len()
    }
}

/// Returns the numbers at these indices, in the order of the indices. Passes over an index that is too great.
fn numbers_at(alloc: Global, numbers: &[usize], places: &[usize]) -> Result<Vec<usize>, Memory>
    ensures { IfOk result (λ found. found.items ≡ at_places places.now numbers.now) }
{
    let mut found = Vec::with_capacity(alloc, places.len())?;
    for place in places {
        push_at(numbers, *place, &mut found)?;
    }
    Ok(found)
}

/// Appends the number at that index, if there is one.
fn push_at(numbers: &[usize], place: usize, found: &mut Vec<usize>) -> Result<(), Memory>
    ensures { OnOk result (found.new.items ≡ found.old.items ++ cons_option (slice_get numbers.now place) []) }
{
    match numbers.get(place) {
        Some(number) => {
            found.push(*number)?;
            Ok(())
        }
        None => Ok(()),
    }
}

/// Finds the lists before and after that index, and returns the node of the one that shares more texts with the path.
/// Returns the root if there is none.
fn nearest<W: AsStr>(nodes: &Nodes, numbers: &[usize], at: usize, path: &[W]) -> usize
    requires there { AreThere nodes.now numbers.now }
    requires within { at ≤ length numbers.now }
    ensures { result ≤ length nodes.now }
{
    let lower = if at > 0 { numbers[at - 1] } else { 0 };
    let upper = if at < numbers.len() { numbers[at] } else { 0 };
    let (_, below) = list_cmp(nodes, lower, path, 0);
    let (_, above) = list_cmp(nodes, upper, path, 0);
    if above > below { upper } else { lower }
}
