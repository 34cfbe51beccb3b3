//! The cells of a sketch: digests are mixed into them by XOR, which adds or removes them.
ghost use Rattle.std.specs.Prelude.{◌≡◌, ◌≤◌, ◌<◌, ◌*◌, ◌^◌, length};
ghost use Rattle.cadf_sketch.specs.Cells.{word, check, place_in, mixed, stands, is_lone, toggled};

use crate::layout::Layout;
use std::simd::prelude::*;

/// The XOR of the digests in a cell, and the XOR of their checks.
#[derive(Clone, Copy, Debug, PartialEq, Eq)]
pub struct Cell {
    pub digest: [u8; 32],
    pub check: u64,
}

/// Returns the big-endian number in the eight bytes of the digest from offset `from` on.
#[tactic(auto, unfolding(crate::specs::Cells::word))]
pub(crate) fn word(digest: &[u8; 32], from: usize) -> u64
    requires { from ≤ 24 }
    ensures { result ≡ word digest.now from }
{
    let mut bytes = [0u8; 8];
    bytes.copy_from_slice(&digest[from..from + 8]);
    u64::from_be_bytes(bytes)
}

/// Computes the check of a digest. The XOR of several checks is the check of the digests' XOR only by chance.
pub(crate) fn check(digest: &[u8; 32]) -> u64
    ensures { result ≡ check digest.now }
{
    let first = word(digest, 0).wrapping_mul(word(digest, 8));
    let second = word(digest, 16).wrapping_mul(word(digest, 24));
    first.wrapping_add(second).wrapping_add(1)
}

/// Returns the place, among all cells, of the digest in the table of that number.
#[tactic(auto, unfolding(crate::specs::Cells::place_in))]
pub(crate) fn place_in(table: usize, digest: &[u8; 32], layout: Layout) -> usize
    requires { table < 3 }
    ensures value { result ≡ place_in table digest.now layout }
    ensures below { result < 3 * layout.size }
{
    let size = layout.size();
    let spread = layout.salt().wrapping_mul(word(digest, 8 * table)) >> 32;
    table * size as usize + ((spread * size) >> 32) as usize
}

impl Cell {
    /// The cell without a digest.
    pub(crate) const EMPTY: Cell = Cell {
        digest: [0; 32],
        check: 0,
    };

    /// Mixes the digest into the cell by XOR, which adds or removes it.
    pub(crate) fn mix(&mut self, digest: &[u8; 32])
        ensures { self.new ≡ mixed self.old digest.now }
    {
        let check = check(digest);
        self.digest = (u8x32::from_array(self.digest) ^ u8x32::from_array(*digest)).to_array();
        self.check ^= check;
    }

    /// Returns whether this cell, at that place, seems to have one digest alone: its check is that of its digest.
    pub(crate) fn is_lone(&self, place: usize, layout: Layout) -> bool
        ensures { result ≡ is_lone self.now place layout }
    {
        check(&self.digest) == self.check && stands(&self.digest, place, layout)
    }
}

/// Returns whether one of the digest's three cells is at that place.
fn stands(digest: &[u8; 32], place: usize, layout: Layout) -> bool
    ensures { result ≡ stands digest.now place layout }
{
    place == place_in(0, digest, layout)
        || place == place_in(1, digest, layout)
        || place == place_in(2, digest, layout)
}

/// Mixes the digest into its cell of each table by XOR.
#[tactic(auto, unfolding(crate::specs::Cells::toggled))]
pub(crate) fn toggle(cells: &mut [Cell], digest: &[u8; 32], layout: Layout)
    requires cells { length cells.old ≡ 3 * layout.size }
    ensures { cells.new ≡ toggled cells.old digest.now layout }
{
    cells[place_in(0, digest, layout)].mix(digest);
    cells[place_in(1, digest, layout)].mix(digest);
    cells[place_in(2, digest, layout)].mix(digest);
}
