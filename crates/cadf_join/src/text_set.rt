//! A set of texts.
ghost use Rattle.std.specs.Prelude.{◌≡◌, OnOk, OnErr, IfOk, not, map, string_bytes};
ghost use Rattle.cadf_join.specs.Sets as set;
ghost use Rattle.std.specs.Option.{option_copied};
ghost use Rattle.cadf_join.specs.Contents.{text_cmp, singles, HasSingles, next_after, is_after, TextSetValue, text_set_code};
ghost use Rattle.cadf_join.specs.laws.Contents.{singles_are_single};

use crate::prefix::copy_with_text;
use crate::{Join, Memory};
use std::alloc::Global;
use std::collections::BTreeSet;
use std::marker::Model;

/// A grow-only set of texts. Its contents are lists of one text each.
#[derive(Drop)]
pub struct TextSet {
    texts: BTreeSet<String>,
    alloc: Global,
}

impl Model for TextSet {
    ghost Value = { TextSetValue };

    ghost coded = { text_set_code };

    ghost view = { λ s. set.from_list (map string_bytes s.texts.keys) };
}

impl TextSet {
    /// Makes an empty set that uses this allocator. Allocates nothing.
    pub fn new(alloc: Global) -> TextSet
        ensures { result ≡ set.empty }
    {
        TextSet {
            texts: BTreeSet::new(alloc),
            alloc,
        }
    }

    /// Adds the text, and returns whether it is new. After an `Err` the set is as before.
    pub fn insert(&mut self, text: &str) -> Result<bool, Memory>
        ensures added { IfOk result (λ new. new ≡ not (set.contains self.old text.now)) }
        ensures ok { OnOk result (self.new ≡ set.insert self.old text.now) }
        ensures err { OnErr result (self.new ≡ self.old) }
    {
        if self.texts.contains(text) {
            return Ok(false);
        }
        self.texts.insert(String::from_str(self.alloc, text)?)?;
        Ok(true)
    }

    /// Returns whether the set has the text.
    pub fn contains(&self, text: &str) -> bool
        ensures { result ≡ set.contains self.now text.now }
    {
        self.texts.contains(text)
    }

    /// Returns the least text above the given one, which may be absent; for `None` the least of all. Texts are ordered
    /// by their bytes. `None` if there is no such text. Walks all texts before it.
    pub fn after(&self, text: Option<&str>) -> Option<&str>
        ensures { option_copied result ≡ next_after self.now (option_copied text.entry) }
    {
        for held in &self.texts {
            if is_after(text, held.as_str()) {
                return Some(held.as_str());
            }
        }
        None
    }
}

/// Returns whether the text is greater than the given one. Each is, if none is given.
pub(crate) fn is_after(given: Option<&str>, text: &str) -> bool
    ensures { result ≡ is_after text_cmp (option_copied given.entry) text.now }
{
    match given {
        None => true,
        Some(given) => given < text,
    }
}

impl Join for TextSet {
    ghost contents = { singles };

    ghost is_contents = { HasSingles };

    fn join(&mut self, other: &TextSet) -> Result<(), Memory> {
        for text in &other.texts {
            self.insert(text.as_str())?;
        }
        Ok(())
    }

    fn missing_from(&self, other: &TextSet) -> Result<Option<TextSet>, Memory> {
        let mut part = TextSet::new(self.alloc);
        for text in &self.texts {
            if !other.contains(text.as_str()) {
                part.insert(text.as_str())?;
            }
        }
        if part.is_empty() {
            return Ok(None);
        }
        Ok(Some(part))
    }

    fn copy(&self) -> Result<TextSet, Memory> {
        let mut copied = TextSet::new(self.alloc);
        copied.join(self)?;
        Ok(copied)
    }

    fn same(&self, other: &TextSet) -> bool {
        self.texts.is_subset(&other.texts) && other.texts.is_subset(&self.texts)
    }

    fn is_empty(&self) -> bool {
        self.texts.is_empty()
    }

    fn list_count(&self) -> u64 {
        self.texts.len() as u64
    }

    fn append_lists(&self, prefix: &[String], lists: &mut Vec<Vec<String>>) -> Result<(), Memory> {
        for text in &self.texts {
            lists.push(copy_with_text(self.alloc, prefix, text.as_str())?)?;
        }
        Ok(())
    }

    ghost contents_are = { singles_are_single };
}
