//! What is made of sets: the list of what is sealed, the proofs of which facts or keys are in a set, and that of how a set
//! grew.
ghost use Rattle.std.specs.Prelude.{◌≡◌, IfOk};
ghost use Rattle.cadf_join.specs.Sets.{rising};
ghost use Rattle.cadf_tree.specs.GrowthMade.{growth_parts};
ghost use Rattle.cadf_tree.specs.PresenceMade.{presence_parts};
ghost use Rattle.cadf_tree.specs.Tree.{IsSet};
ghost use Rattle.cadf_evidence.specs.Made.{growth_from, keys_proof_of, proof_of, sealed_of};
ghost use Rattle.cadf_evidence.specs.ProofFile.{AreParts};

use crate::key_list::KeyList;
use crate::proof::{Parts, Proof};
use crate::seal::digests_of;
use cadf_json::Memory;
use cadf_key::keys_of;
use cadf_listed::{Listed, Sealed};
use cadf_set::{Inventory, Replica};
use cadf_tree::{Part, growth_of, presence_of, tree_has_the_set};
use std::alloc::Global;

/// Makes the list of a replica's facts and their keys, which is that of its seal. `Memory` if an allocation fails.
pub fn sealed_of(alloc: Global, replica: &Replica) -> Result<Listed<Sealed>, Memory>
    ensures { IfOk result (λ l. l ≡ sealed_of replica.now) }
{
    let facts = replica.inventory()?;
    let keys = keys_of(alloc, replica)?;
    Listed::over(alloc, &facts, &keys)
}

/// Makes the parts that show how the inventory's set came of an earlier one. `Memory` if an allocation fails.
fn growth_parts(
    alloc: Global,
    earlier: Vec<[u8; 32]>,
    later: &Inventory,
) -> Result<Vec<Part>, Memory>
    requires { IsSet earlier.items }
    ensures parts { IfOk result (λ parts. parts.items ≡ growth_parts earlier.items (rising later.now.digests)) }
    ensures form { IfOk result (λ parts. AreParts parts.items) }
{
    later.type_invariant();
    tree_has_the_set();
    let digests = digests_of(alloc, later)?;
    growth_of(alloc, earlier.as_slice(), digests.as_slice())
}

/// Makes the parts that show which of the asked digests are among the held ones. `Memory` if an allocation fails.
fn presence_parts(alloc: Global, asked: &Inventory, held: &Inventory) -> Result<Vec<Part>, Memory>
    ensures parts { IfOk result (λ parts. parts.items ≡ presence_parts (rising held.now.digests) (rising asked.now.digests)) }
    ensures form { IfOk result (λ parts. AreParts parts.items) }
{
    asked.type_invariant();
    held.type_invariant();
    tree_has_the_set();
    let digests = digests_of(alloc, held)?;
    let wanted = digests_of(alloc, asked)?;
    presence_of(alloc, digests.as_slice(), wanted.as_slice())
}

impl Proof {
    /// Makes the proof, under a seal of the held digests, of which of the asked ones are among them. `Memory` if an
    /// allocation fails.
    pub fn of(alloc: Global, asked: &Inventory, held: &Inventory) -> Result<Proof, Memory>
        ensures { IfOk result (λ p. p ≡ proof_of asked.now held.now) }
    {
        let parts = presence_parts(alloc, asked, held)?;
        let log = held.log().copy(alloc)?;
        Ok(Proof {
            log,
            parts: Parts::Facts(parts),
        })
    }

    /// Makes the proof, under the seal of a replica, of which of the asked keys its facts have. `Memory` if an allocation
    /// fails. The list's log isn't compared.
    pub fn of_keys(alloc: Global, asked: &KeyList, held: &Replica) -> Result<Proof, Memory>
        ensures { IfOk result (λ p. p ≡ keys_proof_of asked.now held.now) }
    {
        let parts = presence_parts(alloc, &asked.inventory(alloc)?, &keys_of(alloc, held)?)?;
        Ok(Proof {
            log: held.log().copy(alloc)?,
            parts: Parts::Keys(Vec::new(alloc), parts),
        })
    }

    /// Makes the proof, under the log of a replica and the seals of both, of how the replica came of the set whose sealed
    /// list is given. `Memory` if an allocation fails. The list's log isn't compared.
    pub fn of_growth(
        alloc: Global,
        earlier: &Listed<Sealed>,
        later: &Replica,
    ) -> Result<Proof, Memory>
        ensures { IfOk result (λ p. p ≡ growth_from earlier.now later.now) }
    {
        let fact_parts = growth_parts(alloc, earlier.facts(alloc)?, &later.inventory()?)?;
        let key_parts = growth_parts(alloc, earlier.keys(alloc)?, &keys_of(alloc, later)?)?;
        Ok(Proof {
            log: later.log().copy(alloc)?,
            parts: Parts::Keys(fact_parts, key_parts),
        })
    }
}
