//! The suffixes after a prefix in a set, borrowed from the set.
ghost use Rattle.std.specs.Prelude.{◌≡◌, ◌≢◌, ◌≤◌, ◌<◌, ℕ, [], ◌∷◌, IfOk, Some, None, true, false, length, take, drop, get_or, map, nat_le};
ghost use Rattle.std.specs.List.{AllByRecursion};
ghost use Rattle.std.specs.List.Sorted.{IsStrictlySortedBy};
ghost use Rattle.std.specs.Option.{option_copied, option_map};
ghost use Rattle.cadf_join.specs.Contents.{next_after, suffixes_of, texts_cmp};
ghost use Rattle.cadf_join.specs.Longest.{longer_than, longest_of};
ghost use Rattle.cadf_join.specs.Maps.{heads};
ghost use Rattle.cadf_join.specs.Prefixes.{all_texts, chain_texts};
ghost use Rattle.cadf_join.specs.Sets as set;
ghost use Rattle.cadf_pathset.specs.Lists.{first_text, is_before};
ghost use Rattle.cadf_pathset.specs.Nodes.{AreThere, rest_of};
ghost use Rattle.cadf_pathset.specs.Sections.{sections_from, sections_of};

use crate::Memory;
use crate::nodes::{Nodes, copy_after, depth, text_at};
use std::alloc::Global;
use std::cmp::Ordering;
use std::marker::Model;

/// The suffixes after a prefix in a set, borrowed from the set: a range of its lists, each without its first texts. No
/// text is copied.
#[derive(Drop)]
pub struct SuffixSet<'a> {
    pub(crate) nodes: &'a Nodes,
    pub(crate) numbers: &'a [usize],
    pub(crate) depth: usize,
    pub(crate) alloc: Global,
}

/// The least first text of some suffixes, the suffixes that follow it, and those above all that begin with it.
#[derive(Drop)]
pub struct Section<'a> {
    pub text: &'a str,
    pub behind: SuffixSet<'a>,
    pub above: SuffixSet<'a>,
}

impl<'a> Model for SuffixSet<'a> {
    ghost use Rattle.std.specs.Prelude.{map};
    ghost use Rattle.std.specs.List.Sorted.{IsStrictlySortedBy};
    ghost use Rattle.cadf_join.specs.Contents.{Contents, texts_cmp};
    ghost use Rattle.cadf_join.specs.Prefixes.{contents_code};
    ghost use Rattle.cadf_join.specs.Sets as set;
    ghost use Rattle.cadf_pathset.specs.Nodes.{AreThere, rest_of};

    ghost Value = { Contents };

    ghost coded = { contents_code };

    ghost view = { λ s. set.from_list (map (rest_of s.nodes.now s.depth) s.numbers.now) };

    ghost invariant = { λ s. AreThere s.nodes.now s.numbers.now × IsStrictlySortedBy texts_cmp (map (rest_of s.nodes.now s.depth) s.numbers.now) };
}

impl<'a> SuffixSet<'a> {
    /// Returns the suffixes that follow the text: those that begin with it, without it. Binary search.
    pub fn section(&self, text: &str) -> SuffixSet<'a>
        ensures { result ≡ suffixes_of self.now text.now }
    {
        let low = self.binary_search(text, false, 0, self.count());
        self.between(low, self.gallop(text, low))
    }

    /// Returns the section of the least first text. `None` if there is no first text. Galloping search.
    pub fn first_section(&self) -> Option<Section<'a>>
        ensures { sections_from result ≡ sections_of self.now }
    {
        let number = self.first();
        let text = self.text(number)?;
        let high = self.gallop(text, number + 1);
        Some(Section {
            text,
            behind: self.between(number, high),
            above: self.above(high),
        })
    }

    /// Returns the index of the first suffix that isn't empty: 1 if there is an empty one, otherwise 0.
    fn first(&self) -> usize
        ensures few { result ≤ 1 }
        ensures some { result ≡ 0 → first_text (get_or (set.rising self.now) 0 []) ≢ None }
        ensures empty { result ≡ 1 → first_text (get_or (set.rising self.now) 0 []) ≡ None }
    {
        if self.text(0).is_some() { 0 } else { 1 }
    }

    /// Returns the suffixes from index `low` to `high`, each without its first text.
    fn between(&self, low: usize, high: usize) -> SuffixSet<'a>
        requires order { low ≤ high }
        requires within { high ≤ length (set.rising self.now) }
        requires rising { IsStrictlySortedBy texts_cmp (map (λ l. drop 1 l) (drop low (take high (set.rising self.now)))) }
        ensures { result ≡ set.from_list (map (λ l. drop 1 l) (drop low (take high (set.rising self.now)))) }
    {
        let (front, _) = self.numbers.split_at(high);
        let (_, numbers) = front.split_at(low);
        SuffixSet {
            numbers,
            depth: self.nodes.next_depth(self.depth),
            ..*self
        }
    }

    /// Returns the suffixes from that index on.
    fn above(&self, number: usize) -> SuffixSet<'a>
        requires { number ≤ length (set.rising self.now) }
        ensures { result ≡ set.from_list (drop number (set.rising self.now)) }
    {
        let (_, numbers) = self.numbers.split_at(number);
        SuffixSet { numbers, ..*self }
    }

    /// Returns whether there are two or more different first texts.
    pub fn has_multiple(&self) -> bool
        ensures { result ≡ nat_le 2 (length (set.rising (heads self.now))) }
    {
        match self.first_section() {
            Some(first) => first.above.first_section().is_some(),
            None => false,
        }
    }

    /// Returns the least first text above the given one. For `None`, the least of all. Binary search.
    pub(crate) fn next_child(&self, text: Option<&str>) -> Option<&'a str>
        ensures { option_copied result ≡ next_after (heads self.now) (option_copied text.entry) }
    {
        let number = match text {
            Some(text) => self.binary_search(text, true, 0, self.count()),
            None => self.first(),
        };
        self.text(number)
    }

    /// Returns the index, from `from` on, of the first suffix above those that begin with the text. Galloping search:
    /// fast if it is close to `from`.
    fn gallop(&self, text: &str, from: usize) -> usize
        requires within { from ≤ length (set.rising self.now) }
        requires below { (k : ℕ) → k < from → is_before (text.now ∷ []) true (get_or (set.rising self.now) k []) ≡ true }
        ensures from { from ≤ result }
        ensures within { result ≤ length (set.rising self.now) }
        ensures below { AllByRecursion (λ l. is_before (text.now ∷ []) true l ≡ true) (take result (set.rising self.now)) }
        ensures above { AllByRecursion (λ l. is_before (text.now ∷ []) true l ≡ false) (drop result (set.rising self.now)) }
    {
        let mut low = from;
        let mut step: usize = 1;
        while step <= self.count() - low {
            let probe = low + (step - 1);
            if !self.is_before(probe, text, true) {
                return self.binary_search(text, true, low, probe);
            }
            low = probe + 1;
            step = step.saturating_mul(2);
        }
        self.binary_search(text, true, low, self.count())
    }

    /// Returns the index, from `low` to `high`, of the first suffix that begins with the text or is above those that
    /// do; if `passed`, of the first above them. Binary search.
    fn binary_search(&self, text: &str, passed: bool, low: usize, high: usize) -> usize
        requires order { low ≤ high }
        requires ends { high ≤ length (set.rising self.now) }
        requires below { (k : ℕ) → k < low → is_before (text.now ∷ []) passed (get_or (set.rising self.now) k []) ≡ true }
        requires above { (k : ℕ) → high ≤ k → k < length (set.rising self.now) → is_before (text.now ∷ []) passed (get_or (set.rising self.now) k []) ≡ false }
        ensures from { low ≤ result }
        ensures within { result ≤ length (set.rising self.now) }
        ensures below { AllByRecursion (λ l. is_before (text.now ∷ []) passed l ≡ true) (take result (set.rising self.now)) }
        ensures above { AllByRecursion (λ l. is_before (text.now ∷ []) passed l ≡ false) (drop result (set.rising self.now)) }
    {
        let mut low = low;
        let mut high = high;
        while low < high {
            let middle = low + (high - low) / 2;
            if self.is_before(middle, text, passed) {
                low = middle + 1;
            } else {
                high = middle;
            }
        }
        low
    }

    /// Returns whether the suffix at that index is below those that begin with the text. One that begins with it counts
    /// too, if `passed`. An empty suffix is below.
    fn is_before(&self, number: usize, text: &str, passed: bool) -> bool
        ensures { result ≡ is_before (text.now ∷ []) passed (get_or (set.rising self.now) number []) }
    {
        match self.text(number) {
            Some(first) => match first.cmp(text) {
                Ordering::Less => true,
                Ordering::Equal => passed,
                Ordering::Greater => false,
            },
            None => true,
        }
    }

    /// Returns the first text of the suffix at that index. `None` if the suffix is empty, or there is none.
    fn text(&self, number: usize) -> Option<&'a str>
        ensures { option_copied result ≡ first_text (get_or (set.rising self.now) number []) }
    {
        self.text_of(number, 0)
    }

    /// Returns the text at index `place` of the suffix at index `number`. `None` if there is none.
    fn text_of(&self, number: usize, place: usize) -> Option<&'a str>
        ensures { option_copied result ≡ first_text (drop place (get_or (set.rising self.now) number [])) }
    {
        match self.numbers.get(number) {
            Some(node) => text_at(self.nodes, *node, self.depth, place),
            None => None,
        }
    }

    /// Counts the suffixes.
    pub fn count(&self) -> usize
        ensures { result ≡ length (set.rising self.now) }
    {
        self.numbers.len()
    }

    /// Counts the texts of the suffix at that index.
    pub fn length(&self, number: usize) -> usize
        ensures { result ≡ length (get_or (set.rising self.now) number []) }
    {
        match self.numbers.get(number) {
            Some(node) => depth(self.nodes, *node).saturating_sub(self.depth),
            None => 0,
        }
    }

    /// Returns the text at index `place` of the suffix at index `number`. The empty text if there is none.
    pub fn text_at(&self, number: usize, place: usize) -> &'a str
        ensures { result.now ≡ get_or (get_or (set.rising self.now) number []) place [] }
    {
        self.text_of(number, place).unwrap_or("")
    }

    /// Returns the index of the longest suffix, the first of equally long ones. `None` if there are no suffixes.
    pub fn longest(&self) -> Option<usize>
        ensures { option_map (λ n. get_or (set.rising self.now) n []) result ≡ longest_of (set.rising self.now) }
    {
        let mut best = None;
        for number in 0..self.count() {
            if self.is_longer(number, best) {
                best = Some(number);
            }
        }
        best
    }

    /// Returns whether the suffix at that index is longer than the best so far, or there is none so far.
    fn is_longer(&self, number: usize, best: Option<usize>) -> bool
        ensures { result ≡ longer_than (option_map (λ n. get_or (set.rising self.now) n []) best) (get_or (set.rising self.now) number []) }
    {
        match best {
            Some(best) => self.length(best) < self.length(number),
            None => true,
        }
    }

    /// Copies the suffix at that index. Copies nothing if there is none.
    pub(crate) fn to_strings(&self, number: usize) -> Result<Vec<String>, Memory>
        ensures { IfOk result (λ list. chain_texts list.items ≡ get_or (set.rising self.now) number []) }
    {
        match self.numbers.get(number) {
            Some(node) => copy_after(self.alloc, self.nodes, *node, self.depth),
            None => Ok(Vec::new(self.alloc)),
        }
    }

    /// Copies the suffixes, in order.
    pub fn lists(&self) -> Result<Vec<Vec<String>>, Memory>
        ensures { IfOk result (λ lists. all_texts lists.items ≡ set.rising self.now) }
    {
        let mut lists = Vec::with_capacity(self.alloc, self.count())?;
        for node in self.numbers {
            lists.push(copy_after(self.alloc, self.nodes, *node, self.depth)?)?;
        }
        Ok(lists)
    }
}
