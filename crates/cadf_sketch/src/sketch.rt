//! A sketch of an inventory.
ghost use Rattle.std.specs.Prelude.{◌≡◌, ◌*◌, IfOk, length};
ghost use Rattle.cadf_join.specs.Sets.{rising};
ghost use Rattle.cadf_sketch.specs.Cells.{toggled_all};
ghost use Rattle.cadf_event.specs.Known.{IsNameText};
ghost use Rattle.cadf_sketch.specs.SketchFile.{HasParts};
ghost use Rattle.cadf_sketch.specs.Sketches.{asked};
ghost use Rattle.cadf_sketch.specs.Tallies.{tally_of};

use crate::cell::{Cell, toggle};
use crate::layout::{Cells, Layout, Salt};
use crate::tally::Tally;
use cadf_event::Name;
use cadf_inventory::inventory_digest;
use cadf_json::Memory;
use cadf_set::Inventory;
use std::alloc::Global;
use std::marker::Model;

/// A sketch of an inventory: its log, its digest, counts of its digests, and the cells of three tables.
#[derive(Drop)]
pub struct Sketch {
    pub(crate) log: Name,
    pub(crate) layout: Layout,
    pub(crate) digest: [u8; 32],
    pub(crate) tally: Tally,
    pub(crate) cells: Vec<Cell>,
}

impl Model for Sketch {
    ghost use Rattle.cadf_sketch.specs.Sketches.{SketchModel, coded_sketch};
    ghost use Rattle.cadf_sketch.specs.SketchFile.{HasParts};

    ghost Value = { SketchModel };

    ghost coded = { coded_sketch };

    ghost view = { λ s. record { log = s.log; layout = s.layout; digest = s.digest; tally = s.tally; cells = s.cells.items } };

    ghost invariant = { λ s. HasParts (record { log = s.log; layout = s.layout; digest = s.digest; tally = s.tally; cells = s.cells.items }) };
}

/// Mixes each digest of the inventory into its cells by XOR.
pub(crate) fn toggle_all(cells: &mut [Cell], inventory: &Inventory, layout: Layout)
    requires { length cells.old ≡ 3 * layout.size }
    ensures cells { cells.new ≡ toggled_all cells.old (rising inventory.now.digests) layout }
    ensures length { length cells.new ≡ length cells.old }
{
    for digest in inventory.digests() {
        toggle(cells, digest, layout);
    }
}

/// Counts the inventory's digests.
#[tactic(auto, unfolding(crate::specs::Tallies::tally_of))]
pub(crate) fn tally(inventory: &Inventory) -> Tally
    ensures { result ≡ tally_of (rising inventory.now.digests) }
{
    let mut tally = Tally::EMPTY;
    for digest in inventory.digests() {
        tally.count(digest);
    }
    tally
}

impl Sketch {
    /// Makes the sketch of the inventory with that many cells. If no salt is given, the inventory's digest determines
    /// it: an inventory then has one sketch of that many cells.
    pub fn of(
        alloc: Global,
        inventory: &Inventory,
        cells: Cells,
        salt: Option<Salt>,
    ) -> Result<Sketch, Memory>
        ensures { IfOk result (λ s. s ≡ asked inventory.now cells salt) }
    {
        inventory.type_invariant();
        let digest = inventory_digest(alloc, inventory)?;
        let layout = Layout::of(cells, salt.unwrap_or(Salt::of_digest(&digest)));
        layout.type_invariant();
        let mut cells = Vec::from_elem(alloc, Cell::EMPTY, layout.cells())?;
        toggle_all(&mut cells, inventory, layout);
        Ok(Sketch {
            log: inventory.log().copy(alloc)?,
            layout,
            digest,
            tally: tally(inventory),
            cells,
        })
    }

    /// States the type invariant of a sketch. Does nothing.
    pub fn type_invariant(&self)
        ensures log { IsNameText self.now.log }
        ensures parts { HasParts self.now }
    {
        self.log.type_invariant();
        let _cells = &self.cells;
    }

    /// Returns the identifier of the log.
    pub fn log(&self) -> &Name
        ensures { result.now ≡ self.now.log }
    {
        &self.log
    }

    /// Returns how the cells are laid out.
    pub fn layout(&self) -> Layout
        ensures value { result ≡ self.now.layout }
        ensures cells { length self.now.cells ≡ 3 * result.size }
    {
        self.layout
    }

    /// Returns the digest of the inventory's file.
    pub fn digest(&self) -> &[u8; 32]
        ensures { result.now ≡ self.now.digest }
    {
        &self.digest
    }

    /// Returns the counts of the inventory's digests.
    pub fn tally(&self) -> &Tally
        ensures { result.now ≡ self.now.tally }
    {
        &self.tally
    }

    /// Returns the cells, table after table.
    pub fn cells(&self) -> &[Cell]
        ensures { result.now ≡ self.now.cells }
    {
        self.cells.as_slice()
    }
}
