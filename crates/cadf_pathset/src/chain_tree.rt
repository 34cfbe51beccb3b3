//! A set of chains that share their prefixes.
ghost use Rattle.std.specs.Prelude.{◌≡◌, ◌≤◌, OnOk, OnErr, IfOk, length, not};
ghost use Rattle.std.specs.Option.{option_copied, option_map};
ghost use Rattle.cadf_join.specs.Sets as set;
ghost use Rattle.cadf_join.specs.Contents.{next_after, Contents};
ghost use Rattle.cadf_join.specs.Prefixes.{chain_texts, all_texts, texts_found, saturated, chains, AreChains, HasNoEmptyList, contents_code};
ghost use Rattle.cadf_join.specs.Longest.{longest};
ghost use Rattle.cadf_join.specs.laws.Chains.{chains_have_no_empty_list};

use crate::path_set::PathSet;
use crate::{Join, Memory};
use std::alloc::Global;
use std::marker::Model;

/// A grow-only set of chains of 1 to 256 texts, kept as a tree of their prefixes: chains share a common prefix. Its
/// contents are its chains.
#[derive(Drop)]
pub struct ChainTree {
    chains: PathSet,
}

impl Model for ChainTree {
    ghost Value = { Contents };

    ghost coded = { contents_code };

    ghost view = { λ t. t.chains };

    ghost invariant = { λ t. AreChains t.chains };
}

impl ChainTree {
    /// Makes an empty tree that uses this allocator. Allocates nothing.
    pub fn new(alloc: Global) -> ChainTree
        ensures { result ≡ set.empty }
    {
        ChainTree {
            chains: PathSet::new(alloc),
        }
    }

    /// States the type invariant of a tree: each chain has 1 to 256 texts. Does nothing.
    pub fn type_invariant(&self)
        ensures { AreChains self.now }
    {
        let _chains = &self.chains;
    }

    /// Adds the chain, and returns whether it is new. After an `Err` the tree is as before.
    pub fn insert(&mut self, chain: &[String]) -> Result<bool, Memory>
        requires { (1 ≤ length chain.now) × (length chain.now ≤ 256) }
        ensures added { IfOk result (λ new. new ≡ not (set.contains self.old (chain_texts chain.now))) }
        ensures ok { OnOk result (self.new ≡ set.insert self.old (chain_texts chain.now)) }
        ensures err { OnErr result (self.new ≡ self.old) }
    {
        self.chains.add(chain)
    }

    /// Returns whether the tree has the chain. A prefix of a chain counts only if it was inserted too.
    pub fn contains(&self, chain: &[String]) -> bool
        ensures { result ≡ set.contains self.now (chain_texts chain.now) }
    {
        self.chains.holds(chain)
    }

    /// Counts the chains, at most `u64::MAX`. Allocates nothing.
    pub fn count(&self) -> u64
        ensures { result ≡ saturated (length (set.rising self.now)) }
    {
        self.chains.list_count()
    }

    /// Returns a copy of each chain once, in order.
    pub fn walk(&self) -> Result<Vec<Vec<String>>, Memory>
        ensures { IfOk result (λ chains. all_texts chains.items ≡ set.rising self.now) }
    {
        self.chains.suffix_set(&[]).lists()
    }

    /// Returns the least chain above the given list, which may be any list; for `None` the least of all. A prefix comes
    /// before its extensions. `None` if there is no such chain.
    pub fn after(&self, list: Option<&[String]>) -> Result<Option<Vec<String>>, Memory>
        ensures { IfOk result (λ found. texts_found found ≡ next_after self.now (option_map chain_texts (option_copied list.entry))) }
    {
        self.chains.list_after(list)
    }

    /// Returns the longest chain, the least of equally long ones. `None` if there is no chain.
    pub fn longest(&self) -> Result<Option<Vec<String>>, Memory>
        ensures { IfOk result (λ found. texts_found found ≡ longest self.now) }
    {
        self.chains.longest_suffix(&[])
    }
}

impl Join for ChainTree {
    ghost contents = { chains };

    ghost is_contents = { HasNoEmptyList };

    fn join(&mut self, other: &ChainTree) -> Result<(), Memory> {
        self.chains.join(&other.chains)
    }

    fn missing_from(&self, other: &ChainTree) -> Result<Option<ChainTree>, Memory> {
        match self.chains.missing_from(&other.chains)? {
            Some(chains) => Ok(Some(ChainTree { chains })),
            None => Ok(None),
        }
    }

    fn copy(&self) -> Result<ChainTree, Memory> {
        Ok(ChainTree {
            chains: self.chains.copy()?,
        })
    }

    fn same(&self, other: &ChainTree) -> bool {
        self.chains.same(&other.chains)
    }

    fn is_empty(&self) -> bool {
        self.chains.is_empty()
    }

    fn list_count(&self) -> u64 {
        self.type_invariant();
        self.count()
    }

    fn append_lists(&self, prefix: &[String], lists: &mut Vec<Vec<String>>) -> Result<(), Memory> {
        self.chains.append_lists(prefix, lists)
    }

    ghost contents_are = { chains_have_no_empty_list };
}
