//! The kinds of values of `Join`, each made from lists.

use crate::lists::{lent, lists};
use cadf_join::{Join, JoinMap, Memory, TextSet};
use cadf_pathset::{ChainTree, PathSet};
use std::alloc::Global;

/// A value that can be made from lists.
pub(crate) trait Made: Join {
    /// Makes an empty value.
    fn empty(alloc: Global) -> Self;

    /// Adds the list. A list that no value of the kind has is skipped.
    fn add(&mut self, alloc: Global, list: &[String]) -> Result<(), Memory>;
}

impl Made for TextSet {
    fn empty(alloc: Global) -> TextSet {
        TextSet::new(alloc)
    }

    fn add(&mut self, _alloc: Global, list: &[String]) -> Result<(), Memory> {
        if let [text] = list {
            self.insert(text.as_str())?;
        }
        Ok(())
    }
}

impl<V: Made> Made for JoinMap<V> {
    fn empty(alloc: Global) -> JoinMap<V> {
        JoinMap::new(alloc)
    }

    fn add(&mut self, alloc: Global, list: &[String]) -> Result<(), Memory> {
        if let [key, rest @ ..] = list {
            let mut value = V::empty(alloc);
            value.add(alloc, rest)?;
            self.join_at(key.as_str(), &value)?;
        }
        Ok(())
    }
}

impl Made for ChainTree {
    fn empty(alloc: Global) -> ChainTree {
        ChainTree::new(alloc)
    }

    fn add(&mut self, _alloc: Global, list: &[String]) -> Result<(), Memory> {
        if !list.is_empty() && list.len() <= 256 {
            self.insert(list)?;
        }
        Ok(())
    }
}

impl Made for PathSet {
    fn empty(alloc: Global) -> PathSet {
        PathSet::new(alloc)
    }

    fn add(&mut self, alloc: Global, list: &[String]) -> Result<(), Memory> {
        self.insert(&lent(alloc, list)?)
    }
}

/// Answers the value with the lists of the word.
pub(crate) fn value_of<J: Made>(alloc: Global, word: &str) -> Result<J, Memory> {
    let mut value = J::empty(alloc);
    for list in lists(alloc, word)? {
        value.add(alloc, &list)?;
    }
    Ok(value)
}
