//! A seal of a log's facts and their keys.
ghost use Rattle.std.specs.Prelude.{◌≡◌, ◌<◌, ◌^◌, length, IfOk};
ghost use Rattle.cadf_join.specs.Sets.{rising};
ghost use Rattle.cadf_event.specs.Known.{IsNameText};
ghost use Rattle.cadf_tree.specs.Tree.{root};
ghost use Rattle.cadf_evidence.specs.SealFile.{IsRoot, seal_of, seal_over};

use cadf_event::Name;
use cadf_json::Memory;
use cadf_key::keys_of;
use cadf_set::{Inventory, Replica};
use cadf_tree::{Root, root_of};
use std::alloc::Global;
use std::marker::Model;

/// A seal: a log, the root of the tree over its facts' digests, and that of the tree over their keys' digests.
#[derive(Drop)]
pub struct Seal {
    pub(crate) log: Name,
    pub(crate) facts: Root,
    pub(crate) keys: Root,
}

impl Model for Seal {
    ghost use Rattle.cadf_evidence.specs.SealFile.{SealModel, coded_seal, IsRoot};

    ghost Value = { SealModel };

    ghost coded = { coded_seal };

    ghost view = { λ s. record { log = s.log; facts = s.facts; keys = s.keys } };

    ghost invariant = { λ s. IsRoot s.facts × IsRoot s.keys };
}

impl Seal {
    /// Makes the seal of a replica: of its log, its facts and their keys. `Memory` if an allocation fails.
    pub fn of(alloc: Global, replica: &Replica) -> Result<Seal, Memory>
        ensures { IfOk result (λ s. s ≡ seal_of replica.now) }
    {
        let facts = replica.inventory()?;
        let keys = keys_of(alloc, replica)?;
        Seal::over(alloc, &facts, &keys)
    }

    /// Makes the seal of an inventory of facts, under its log, and an inventory of their keys. `Memory` if an allocation
    /// fails.
    pub fn over(alloc: Global, facts: &Inventory, keys: &Inventory) -> Result<Seal, Memory>
        ensures { IfOk result (λ s. s ≡ seal_over facts.now keys.now) }
    {
        let log = facts.log().copy(alloc)?;
        let facts = root_over(alloc, facts)?;
        let keys = root_over(alloc, keys)?;
        Ok(Seal { log, facts, keys })
    }

    /// States the type invariant of a seal. Does nothing.
    pub fn type_invariant(&self)
        ensures log { IsNameText self.now.log }
        ensures roots { IsRoot self.now.facts × IsRoot self.now.keys }
    {
        self.log.type_invariant();
        let _facts = &self.facts;
    }

    /// Returns the identifier of the log.
    pub fn log(&self) -> &Name
        ensures { result.now ≡ self.now.log }
    {
        &self.log
    }

    /// Returns the root of the tree over the facts' digests.
    pub fn facts(&self) -> &Root
        ensures { result.now ≡ self.now.facts }
    {
        &self.facts
    }

    /// Returns the root of the tree over the keys' digests.
    pub fn keys(&self) -> &Root
        ensures { result.now ≡ self.now.keys }
    {
        &self.keys
    }
}

/// Computes the root of the tree over the inventory's digests.
fn root_over(alloc: Global, inventory: &Inventory) -> Result<Root, Memory>
    ensures { IfOk result (λ r. (r ≡ root (rising inventory.now.digests)) × IsRoot r) }
{
    inventory.type_invariant();
    let digests = digests_of(alloc, inventory)?;
    Ok(root_of(digests.as_slice()))
}

/// Lists the inventory's digests, ascending.
pub(crate) fn digests_of(alloc: Global, inventory: &Inventory) -> Result<Vec<[u8; 32]>, Memory>
    ensures digests { IfOk result (λ digests. digests.items ≡ rising inventory.now.digests) }
    ensures fits { IfOk result (λ digests. length digests.items < 2 ^ 63) }
{
    let mut digests = Vec::with_capacity(alloc, inventory.digests().len())?;
    for digest in inventory.digests() {
        digests.push(*digest)?;
    }
    Ok(digests)
}
