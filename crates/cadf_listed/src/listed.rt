//! A list of facts and keys of a log.
ghost use Rattle.std.specs.Prelude.{◌≡◌, ◌++◌, List, ℕ, IfOk, OnOk, map, option_map, unwrap_or, []};
ghost use Rattle.cadf_join.specs.Sets as set;
ghost use Rattle.cadf_join.specs.Sets.{rising};
ghost use Rattle.cadf_event.specs.Known.{IsNameText};
ghost use Rattle.cadf_listed.specs.ListFile.{AreNames, AreRisingDigests, AreRisingNames, digest_with, digests_with, fact_name, facts_of, key_name, keys_of, list_over, name as name_by};

use crate::kind::ListKind;
use cadf_event::Name;
use cadf_json::Memory;
use cadf_set::Inventory;
use std::alloc::Global;
use std::marker::{Model, PhantomData};

// The marks of the names of facts and of keys.
pub(crate) const FACT: u8 = b'F';

pub(crate) const KEY: u8 = b'K';

/// Facts and keys of a log: the log's identifier, and names, rising. A name is a mark, and the digest of a fact or of a key.
/// A list without names allocates nothing.
#[derive(Drop)]
pub struct Listed<K: ListKind> {
    pub(crate) log: Name,
    pub(crate) names: Option<Vec<[u8; 33]>>,
    pub(crate) kind: PhantomData<K>,
}

impl<K: ListKind> Model for Listed<K> {
    ghost use Rattle.std.specs.Prelude.{[], option_map, unwrap_or};
    ghost use Rattle.cadf_join.specs.Sets as set;
    ghost use Rattle.cadf_listed.specs.ListFile.{ListedModel, coded_listed, AreRisingNames};

    ghost Value = { ListedModel };

    ghost coded = { coded_listed };

    ghost view = { λ l. record { log = l.log; names = set.from_list (unwrap_or (option_map (λ v. v.items) l.names) []) } };

    ghost invariant = { λ l. AreRisingNames (unwrap_or (option_map (λ v. v.items) l.names) []) };
}

impl<K: ListKind> Listed<K> {
    /// Makes the list of an inventory of facts, under its log, and an inventory of keys. `Memory` if an allocation fails.
    pub fn over(alloc: Global, facts: &Inventory, keys: &Inventory) -> Result<Listed<K>, Memory>
        ensures { IfOk result (λ l. l ≡ list_over facts.now keys.now) }
    {
        facts.type_invariant();
        keys.type_invariant();
        let mut names = Vec::with_capacity(alloc, facts.digests().len())?;
        push_names(&mut names, FACT, facts)?;
        push_names(&mut names, KEY, keys)?;
        Ok(Listed {
            log: facts.log().copy(alloc)?,
            names: Some(names),
            kind: PhantomData,
        })
    }

    /// Returns the log's identifier.
    pub fn log(&self) -> &Name
        ensures { result.now ≡ self.now.log }
    {
        &self.log
    }

    /// States the type invariant of a list: its log is a name, and each of its names a mark and a digest. Does nothing.
    pub fn type_invariant(&self)
        ensures log { IsNameText self.now.log }
        ensures names { AreNames self.now.names }
    {
        self.log.type_invariant();
        let _names = &self.names;
    }

    /// Returns the names, rising.
    pub(crate) fn names(&self) -> &[[u8; 33]]
        ensures names { result.now ≡ rising self.now.names }
        ensures all { AreRisingNames result.now }
    {
        shown(&self.names)
    }

    /// Returns whether the list has the fact of the digest.
    pub fn has_fact(&self, digest: &[u8; 32]) -> bool
        ensures { result ≡ set.contains self.now.names (fact_name digest.now) }
    {
        self.has(&name_of(FACT, digest))
    }

    /// Returns whether the list has the key of the digest.
    pub fn has_key(&self, digest: &[u8; 32]) -> bool
        ensures { result ≡ set.contains self.now.names (key_name digest.now) }
    {
        self.has(&name_of(KEY, digest))
    }

    /// Returns whether the list has the name, by a binary search.
    fn has(&self, name: &[u8; 33]) -> bool
        ensures { result ≡ set.contains self.now.names name.now }
    {
        match self.names().binary_search(name) {
            Ok(_) => true,
            Err(_) => false,
        }
    }

    /// Lists the digests of the facts, rising. `Memory` if an allocation fails.
    pub fn facts(&self, alloc: Global) -> Result<Vec<[u8; 32]>, Memory>
        ensures digests { IfOk result (λ digests. digests.items ≡ facts_of self.now) }
        ensures set { IfOk result (λ digests. AreRisingDigests digests.items) }
    {
        digests_with(alloc, FACT, self.names())
    }

    /// Lists the digests of the keys, rising. `Memory` if an allocation fails.
    pub fn keys(&self, alloc: Global) -> Result<Vec<[u8; 32]>, Memory>
        ensures digests { IfOk result (λ digests. digests.items ≡ keys_of self.now) }
        ensures set { IfOk result (λ digests. AreRisingDigests digests.items) }
    {
        digests_with(alloc, KEY, self.names())
    }
}

/// Makes the name of a mark and a digest.
pub(crate) fn name_of(mark: u8, digest: &[u8; 32]) -> [u8; 33]
    ensures { result ≡ name_by mark digest.now }
{
    let mut name = [mark; 33];
    name[1..].copy_from_slice(digest);
    name
}

/// Appends the names of the mark and the inventory's digests.
fn push_names(names: &mut Vec<[u8; 33]>, mark: u8, inventory: &Inventory) -> Result<(), Memory>
    ensures { OnOk result (names.new.items ≡ names.old.items ++ map (name_by mark) (rising inventory.now.digests)) }
{
    for digest in inventory.digests() {
        names.push(name_of(mark, digest))?;
    }
    Ok(())
}

/// Returns the digest of the name, if it has the mark.
fn digest_with(mark: u8, name: &[u8; 33]) -> Option<[u8; 32]>
    ensures { result ≡ digest_with mark name.now }
{
    if name[0] != mark {
        return None;
    }
    let mut digest = [0; 32];
    digest.copy_from_slice(&name[1..]);
    Some(digest)
}

/// Lists the digests of those names that have the mark. `Memory` if an allocation fails.
fn digests_with(alloc: Global, mark: u8, names: &[[u8; 33]]) -> Result<Vec<[u8; 32]>, Memory>
    requires { AreRisingNames names.now }
    ensures digests { IfOk result (λ digests. digests.items ≡ digests_with mark names.now) }
    ensures set { IfOk result (λ digests. AreRisingDigests digests.items) }
{
    let mut digests = Vec::new(alloc);
    for name in names {
        if let Some(digest) = digest_with(mark, name) {
            digests.push(digest)?;
        }
    }
    Ok(digests)
}

/// Returns the names, of which there may be none.
fn shown(names: &Option<Vec<[u8; 33]>>) -> &[[u8; 33]]
    ensures { result.now ≡ unwrap_or (option_map (λ v. v.items) names.now) [] }
{
    match names {
        None => &[],
        Some(names) => names.as_slice(),
    }
}
