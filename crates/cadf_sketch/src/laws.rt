//! Laws over the definitions alone. Each function's contract is a theorem, and its body is empty.
ghost use Rattle.std.specs.Prelude.{◌≡◌, ◌<◌, ◌≤◌, ◌*◌, ◌%◌, ◌^◌, ℕ, length, slice_index, count_by, false, Ok};
ghost use Rattle.std.specs.List.{filter};
ghost use Rattle.cadf_join.specs.Sets as set;
ghost use Rattle.cadf_join.specs.Sets.{rising};
ghost use Rattle.cadf_join.specs.Contents.{Texts, Text, Contents};
ghost use Rattle.cadf_set.specs.Inventory.{InventoryModel, AreDigests};
ghost use Rattle.cadf_line.specs.Missing.{missing, missing_by, digests_of, NoCollision};
ghost use Rattle.cadf_sketch.specs.Layouts.{LayoutModel};
ghost use Rattle.cadf_sketch.specs.Cells.{cell_at, mixed_all, nothing, stands};
ghost use Rattle.cadf_sketch.specs.Sketches.{cells_of, sketch_of};
ghost use Rattle.cadf_sketch.specs.Tallies.{has_bit};
ghost use Rattle.cadf_sketch.specs.Enough.{IsEnough};
ghost use Rattle.cadf_sketch.specs.Flips.{apart};
ghost use Rattle.cadf_sketch.specs.Refusals.{differing, HasTooFewCells};
ghost use Rattle.cadf_sketch.specs.Answers.{IsAnswer};
ghost use Rattle.cadf_inventory.specs.InventoryFile.{IsInventory, inventory_digest, DoNotCollide};
ghost use Rattle.cadf_line.specs.Digest.{atom_digest};
ghost use Rattle.cadf_set.specs.Replica.{ReplicaModel};
ghost use Rattle.cadf_sketch.specs.SketchFile.{IsSketch, SketchFileIsInjective, sketch_file};
ghost use Rattle.cadf_sketch.specs.SketchVerdict.{sketch_verdict};

use crate::sketch::Sketch;

/// States that what is decoded from a sketch is the inventory that it was made from, if the texts of the two don't
/// collide.
pub fn read_is_what_was_sketched()
    ensures inventory { (layout : LayoutModel) (n m : InventoryModel) → IsInventory n → IsInventory m → DoNotCollide m n
        → inventory_digest m ≡ (sketch_of n layout).digest → m ≡ n }
    ensures missing { (layout : LayoutModel) (n m : InventoryModel) (digest : Texts → Text) (a b : Contents)
        → IsInventory n → IsInventory m → DoNotCollide m n → inventory_digest m ≡ (sketch_of n layout).digest → n.digests ≡ digests_of digest b
        → NoCollision digest (set.union a b) → missing_by digest a m.digests ≡ missing a b }
    ensures answer { (n : InventoryModel) (layout : LayoutModel) (held part : ReplicaModel) → (answer : IsAnswer held (sketch_of n layout) part)
        → IsInventory n → DoNotCollide answer.theirs n
        → part ≡ record { log = held.log; atoms = missing_by atom_digest held.atoms n.digests } }
{}

/// States that a sketch has three tables of cells, and that in each cell the digests that have it are XORed, in order.
pub fn cells_are_what_stands_there()
    ensures count { (n : InventoryModel) (layout : LayoutModel) → length (sketch_of n layout).cells ≡ 3 * layout.size }
    ensures each { (n : InventoryModel) (layout : LayoutModel) (place : ℕ) → 0 < layout.size → place < 3 * layout.size
        → cell_at (sketch_of n layout).cells place ≡ mixed_all nothing (filter (λ d. stands d place layout) (rising n.digests)) }
{}

/// States that a sketch's counts are of the set: how many digests it has, and how many of them have each of the first 64
/// bits set, as numbers of 64 bits.
pub fn counts_are_of_the_digests()
    ensures digests { (n : InventoryModel) (layout : LayoutModel) → (sketch_of n layout).tally.digests ≡ length (rising n.digests) % 2 ^ 64 }
    ensures ones { (n : InventoryModel) (layout : LayoutModel) (bit : ℕ) → bit < 64
        → slice_index (sketch_of n layout).tally.ones bit ≡ count_by (has_bit bit) (rising n.digests) % 2 ^ 64 }
{}

/// States that digests that both sides have cancel, and that a sketch with enough cells for the others is not refused.
pub fn enough_cells_are_read()
    ensures cancels { (own n : InventoryModel) (layout : LayoutModel) → 0 < layout.size → AreDigests own.digests → AreDigests n.digests
        → differing own (sketch_of n layout) ≡ cells_of (apart n.digests own.digests) layout }
    ensures read { (own n : InventoryModel) (layout : LayoutModel) → 0 < layout.size → own.log ≡ n.log
        → AreDigests own.digests → AreDigests n.digests → IsEnough layout (apart n.digests own.digests) → HasTooFewCells own (sketch_of n layout) → ⊥ }
{}

/// States that a sketch's file is injective: sketches with equal files are equal.
pub fn sketch_file_is_injective()
    ensures { SketchFileIsInjective }
{}

/// States that the file of a sketch is accepted if it is within the limit, and is read as that sketch.
pub fn sketch_is_read_back(sketch: &Sketch)
    ensures sketch { IsSketch sketch.now }
    ensures read { (limit : ℕ) → length (sketch_file sketch.now) ≤ limit
        → sketch_verdict limit false (sketch_file sketch.now) ≡ Ok sketch.now }
{
    sketch.type_invariant();
}
