//! Finds the inventory of which a sketch was made, and the delta for its sender.
ghost use Rattle.std.specs.Prelude.{◌≡◌, IfOk, IfErr, OnOk};
ghost use Rattle.cadf_set.specs.Inventory.{inventory_of};
ghost use Rattle.cadf_inventory.specs.InventoryFile.{inventory_digest};
ghost use Rattle.cadf_sketch.specs.Flips.{apart};
ghost use Rattle.cadf_sketch.specs.Refusals.{IsPeeled, IsReadFault};
ghost use Rattle.cadf_sketch.specs.Answers.{IsAnswer};

use crate::peel::peel;
use crate::sketch::{Sketch, tally, toggle_all};
use cadf_inventory::inventory_digest;
use cadf_json::Memory;
use cadf_set::{Inventory, Replica};
use std::alloc::Global;
use thiserror::Error;

/// Why no inventory is decoded from a sketch.
#[derive(Clone, Copy, Debug, PartialEq, Eq, Drop, Error)]
pub enum ReadFault {
    /// The sketch is of another log.
    #[error("other log")]
    OtherLog,
    /// The sketch has too few cells for the digests that differ. Its number is an estimate of how many cells to ask
    /// for.
    #[error("too few cells: ask for {0}")]
    TooFewCells(u32),
    /// An allocation failed.
    #[error("out of memory")]
    Memory,
}

impl From<Memory> for ReadFault {
    ghost use Rattle.cadf_sketch.specs.declared.reading.ReadFault.TheVariants.{Memory as OutOfMemory};

    ghost from_gives = { λ e f. f ≡ OutOfMemory };

    fn from(_refused: Memory) -> Self {
        ReadFault::Memory
    }
}

/// Flips the digests that peeling finds in the own inventory, and returns them. Flipping them again restores it.
fn flip_peeled(alloc: Global, own: &mut Inventory, sketch: &Sketch) -> Result<Inventory, Memory>
    ensures log { own.new.log ≡ own.old.log }
    ensures peeled { OnOk result (IsPeeled own.old sketch.now own.new) }
    ensures back { IfOk result (λ taken. apart own.new.digests taken.digests ≡ own.old.digests) }
{
    own.type_invariant();
    sketch.type_invariant();
    let mut cells = Vec::from_slice(alloc, sketch.cells())?;
    toggle_all(&mut cells, own, sketch.layout());
    let found = peel(alloc, &mut cells, sketch.layout())?;
    drop(cells);
    let taken = Inventory::of(alloc, own.log().copy(alloc)?, found)?;
    flip(own, &taken)?;
    Ok(taken)
}

/// Turns the own inventory into the one of which the sketch was made. Only one inventory is in memory.
///
/// # Errors
///
/// `OtherLog` if the sketch is of another log, `TooFewCells` if peeling doesn't lead to the sketched inventory,
/// `Memory` if an allocation fails.
pub fn read(alloc: Global, own: Inventory, sketch: &Sketch) -> Result<Inventory, ReadFault>
    ensures log { IfOk result (λ theirs. (own.log ≡ sketch.now.log) × (theirs.log ≡ sketch.now.log)) }
    ensures digest { IfOk result (λ theirs. inventory_digest theirs ≡ sketch.now.digest) }
    ensures err { IfErr result (IsReadFault own sketch.now) }
{
    if own.log().as_str() != sketch.log().as_str() {
        return Err(ReadFault::OtherLog);
    }
    let mut theirs = own;
    let taken = flip_peeled(alloc, &mut theirs, sketch)?;
    if inventory_digest(alloc, &theirs)? == *sketch.digest() {
        return Ok(theirs);
    }
    flip(&mut theirs, &taken)?;
    Err(ReadFault::TooFewCells(tally(&theirs).cells_to_ask(sketch.tally())))
}

/// Removes those of the digests that the inventory has, and adds the others.
fn flip(inventory: &mut Inventory, taken: &Inventory) -> Result<(), Memory>
    ensures log { inventory.new.log ≡ inventory.old.log }
    ensures ok { OnOk result (inventory.new.digests ≡ apart inventory.old.digests taken.now.digests) }
{
    for digest in taken.digests() {
        if inventory.has(digest) {
            inventory.remove(digest);
        } else {
            inventory.put(digest)?;
        }
    }
    Ok(())
}

/// Returns the least replica that has the atoms whose digest the sketched inventory lacks. Each atom is hashed once.
/// Its errors are those of `read`.
#[tactic(auto, using(cadf_line::proofs::SpelledLines::noted_rising))]
pub fn missing_by_sketch(
    alloc: Global,
    replica: &Replica,
    sketch: &Sketch,
) -> Result<Replica, ReadFault>
    ensures ok { IfOk result (λ part. IsAnswer replica.now sketch.now part) }
    ensures err { IfErr result (IsReadFault (inventory_of replica.now) sketch.now) }
{
    let digests = replica.digests()?;
    let log = replica.log().copy(alloc)?;
    let own = Inventory::of(alloc, log, Vec::from_slice(alloc, digests.as_slice())?)?;
    let theirs = read(alloc, own, sketch)?;
    theirs.type_invariant();
    match replica.missing_by_digests(digests.as_slice(), &theirs) {
        Ok(part) => Ok(part),
        Err(_) => Err(ReadFault::Memory),
    }
}
