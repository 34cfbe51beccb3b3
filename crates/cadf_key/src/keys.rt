//! The digests of a replica's keys.
ghost use Rattle.std.specs.Prelude.{◌≡◌, IfOk};
ghost use Rattle.cadf_key.specs.Keys.{keys_of};

use crate::collector::KeyCollector;
use crate::key::KeyDigests;
use cadf_json::Memory;
use cadf_set::{Inventory, Replica};
use std::alloc::Global;

/// Makes the inventory of the replica's keys: its log, and the digest of the key of each of its atoms. `Memory` if an
/// allocation fails.
pub fn keys_of(alloc: Global, replica: &Replica) -> Result<Inventory, Memory>
    ensures { IfOk result (λ keys. keys ≡ record { log = replica.now.log; digests = keys_of replica.now.atoms }) }
{
    let mut collector = KeyCollector {
        digests: Vec::new(alloc),
        keys: KeyDigests::new(alloc),
    };
    replica.walk(&mut collector)?;
    let log = replica.log().copy(alloc)?;
    Inventory::of(alloc, log, collector.digests)
}
