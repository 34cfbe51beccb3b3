//! How the cells of a sketch are laid out, and the contents of the third line of its file.
ghost use Rattle.std.specs.Prelude.{◌≡◌, ◌<◌, ◌≤◌, ◌*◌, ◌/◌, ◌+◌, ◌^◌, if◌then◌else◌, Some, None};
ghost use Rattle.cadf_sketch.specs.Cells.{word};
ghost use Rattle.cadf_sketch.specs.Layouts.{are_cells, default_cells, is_salt, layout_with, IsLayout};

use crate::cell::word;
use std::marker::Model;

/// The number of cells of a sketch in all three tables: a multiple of 3, from 3 to 3 * 2^22.
#[derive(Clone, Copy, Debug)]
pub struct Cells {
    count: u32,
}

impl Model for Cells {
    ghost use Rattle.std.specs.Prelude.{◌≡◌, ℕ, true};
    ghost use Rattle.std.specs.Coded.{coded_ℕ};
    ghost use Rattle.cadf_sketch.specs.Layouts.{are_cells};

    ghost Value = { ℕ };

    ghost coded = { coded_ℕ };

    ghost view = { λ c. c.count };

    ghost inverse = { λ n. record { count = n } };

    ghost invariant = { λ c. are_cells c.count ≡ true };
}

impl Cells {
    /// Returns that number of cells. `None` if no sketch can have it.
    pub fn of(count: u64) -> Option<Cells>
        ensures { result ≡ if are_cells count then Some count else None }
    {
        if count % 3 == 0 && 3 <= count && count <= 12_582_912 {
            Some(Cells {
                count: count as u32,
            })
        } else {
            None
        }
    }

    /// Returns the number of cells if none is given: enough for some 100 digests that two inventories don't share.
    pub fn by_default() -> Cells
        ensures { result ≡ default_cells }
    {
        Cells { count: 198 }
    }
}

/// The odd number that determines, with a digest, the digest's cells.
#[derive(Clone, Copy, Debug)]
pub struct Salt {
    number: u64,
}

impl Model for Salt {
    ghost use Rattle.std.specs.Prelude.{◌≡◌, ℕ, true};
    ghost use Rattle.std.specs.Coded.{coded_ℕ};
    ghost use Rattle.cadf_sketch.specs.Layouts.{is_salt};

    ghost Value = { ℕ };

    ghost coded = { coded_ℕ };

    ghost view = { λ s. s.number };

    ghost inverse = { λ n. record { number = n } };

    ghost invariant = { λ s. is_salt s.number ≡ true };
}

impl Salt {
    /// Returns the number as a salt. `None` if it is even.
    pub fn of(number: u64) -> Option<Salt>
        ensures { result ≡ if is_salt number then Some number else None }
    {
        if number % 2 == 1 {
            Some(Salt { number })
        } else {
            None
        }
    }

    /// Returns the first eight bytes of the digest, with the lowest bit set.
    pub(crate) fn of_digest(digest: &[u8; 32]) -> Salt
        ensures { result ≡ word digest.now 0 / 2 * 2 + 1 }
    {
        Salt {
            number: word(digest, 0) / 2 * 2 + 1,
        }
    }
}

/// The number of cells of each of a sketch's three tables, and the salt that determines a digest's cells.
#[derive(Clone, Copy, Debug, PartialEq, Eq)]
pub struct Layout {
    size: u32,
    salt: u64,
}

impl Model for Layout {
    ghost use Rattle.cadf_sketch.specs.Layouts.{LayoutModel, coded_layout, IsLayout};

    ghost Value = { LayoutModel };

    ghost coded = { coded_layout };

    ghost view = { λ l. record { size = l.size; salt = l.salt } };

    ghost inverse = { λ l. record { size = l.size; salt = l.salt } };

    ghost invariant = { λ l. IsLayout (record { size = l.size; salt = l.salt }) };
}

impl Layout {
    /// Makes the layout with these cells and that salt.
    pub(crate) fn of(cells: Cells, salt: Salt) -> Layout
        ensures { result ≡ layout_with cells salt }
    {
        Layout {
            size: cells.count / 3,
            salt: salt.number,
        }
    }

    /// States the type invariant of a layout. Does nothing.
    pub fn type_invariant(self)
        ensures layout { IsLayout self }
        ensures salt { self.salt < 2 ^ 64 }
    {
        let _salt = self.salt;
    }

    /// Returns the number of cells of all three tables.
    pub fn cells(self) -> usize
        ensures { result ≡ 3 * self.size }
    {
        3 * self.size as usize
    }

    /// Returns the number of cells of one table.
    pub(crate) fn size(self) -> u64
        ensures value { result ≡ self.size }
        ensures some { 0 < result }
        ensures most { result ≤ 2 ^ 22 }
    {
        self.size as u64
    }

    /// Returns the salt.
    pub fn salt(self) -> u64
        ensures { result ≡ self.salt }
    {
        self.salt
    }
}

/// The layout of the cells, and the digest of the inventory's file.
#[derive(Clone, Copy)]
pub struct Head {
    pub layout: Layout,
    pub digest: [u8; 32],
}
