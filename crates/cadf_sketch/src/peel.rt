//! Removes lone digests from the cells of a sketch, one after another.
ghost use Rattle.std.specs.Prelude.{◌≡◌, ◌<◌, ◌≤◌, ◌*◌, ◌+◌, ◌⊎◌, ◌++◌, ◌∷◌, [], List, length, vec_len, OnOk, IfOk};
ghost use Rattle.cadf_sketch.specs.Peeling.{Peels, HasNoLone, Awaits, ArePlaces};
ghost use Rattle.cadf_sketch.specs.Layouts.{LayoutModel};
ghost use Rattle.cadf_sketch.specs.declared.cell.Cell.{Cell};

use crate::cell::{Cell, place_in, toggle};
use crate::layout::Layout;
use cadf_json::Memory;
use std::alloc::Global;

/// Lists every place below `count`.
fn all_places(alloc: Global, count: usize) -> Result<Vec<usize>, Memory>
    ensures each { IfOk result (λ places. vec_len places ≡ count) }
    ensures below { IfOk result (λ places. ArePlaces count places.items) }
    ensures all { IfOk result (λ places. (cells : List Cell) (layout : LayoutModel) → length cells ≡ count → Awaits layout cells places.items) }
{
    let mut places = Vec::new(alloc);
    for place in 0..count {
        places.push(place)?;
    }
    Ok(places)
}

/// Removes the digest of the cell at that place from its three cells, if it is lone there, and appends their places to
/// `pending`.
fn take_lone(
    cells: &mut [Cell],
    taken: &mut Vec<[u8; 32]>,
    pending: &mut Vec<usize>,
    place: usize,
    layout: Layout,
) -> Result<(), Memory>
    requires cells { length cells.old ≡ 3 * layout.size }
    requires place { place < length cells.old }
    ensures cells { length cells.new ≡ length cells.old }
    ensures chain { OnOk result ((start : List Cell) → Peels layout start taken.old.items cells.old → Peels layout start taken.new.items cells.new) }
    ensures places { OnOk result (ArePlaces (3 * layout.size) pending.old.items → ArePlaces (3 * layout.size) pending.new.items) }
    ensures awaits { OnOk result (Awaits layout cells.old (pending.old.items ++ place ∷ []) → Awaits layout cells.new pending.new.items) }
    ensures one { OnOk result (vec_len taken.new ≤ vec_len taken.old + 1) }
    ensures fewer { OnOk result (3 * vec_len taken.new + vec_len pending.old ≡ 3 * vec_len taken.old + vec_len pending.new) }
{
    let cell = cells[place];
    if !cell.is_lone(place, layout) {
        return Ok(());
    }
    taken.push(cell.digest)?;
    toggle(cells, &cell.digest, layout);
    pending.push(place_in(0, &cell.digest, layout))?;
    pending.push(place_in(1, &cell.digest, layout))?;
    pending.push(place_in(2, &cell.digest, layout))?;
    Ok(())
}

/// Removes lone digests until no cell has one, or until as many were removed as there are cells. Returns the digests
/// removed, never more than there are cells.
pub(crate) fn peel(
    alloc: Global,
    cells: &mut [Cell],
    layout: Layout,
) -> Result<Vec<[u8; 32]>, Memory>
    requires { length cells.old ≡ 3 * layout.size }
    ensures chain { IfOk result (λ taken. Peels layout cells.old taken.items cells.new) }
    ensures most { IfOk result (λ taken. length taken.items ≤ 3 * layout.size) }
    ensures stops { IfOk result (λ taken. HasNoLone layout cells.new ⊎ (length taken.items ≡ 3 * layout.size)) }
{
    let mut pending = all_places(alloc, cells.len())?;
    let mut taken = Vec::new(alloc);
    'takes: while taken.len() < cells.len() {
        let Some(place) = pending.pop() else {
            break 'takes;
        };
        take_lone(cells, &mut taken, &mut pending, place, layout)?;
    }
    Ok(taken)
}
