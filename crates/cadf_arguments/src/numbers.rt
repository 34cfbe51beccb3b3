//! Numbers.
ghost use Rattle.std.specs.Prelude.{◌≡◌, is_ok, IfOk, IfErr};
ghost use Rattle.cadf_arguments.specs.Arguments.{is_place, is_site_count};
ghost use Rattle.cadf_sketch.specs.Layouts.{are_cells, is_salt};

use crate::fault::ArgumentFault;
use cadf_sketch::{Cells, Salt};

/// The greatest number of sites of a rehearsal.
const MAX_SITES: u64 = 64;

/// The greatest place of a value that can be ruled. Places are counted from 1.
const MAX_PLACE: u64 = 999_999_999;

/// Returns the number of sites of a rehearsal. `Sites`: it isn't 1 to 64.
pub fn check_sites(sites: u64) -> Result<usize, ArgumentFault>
    ensures accepts { is_ok result ≡ is_site_count sites }
    ensures ok { IfOk result (λ count. count ≡ sites) }
    ensures err { IfErr result (λ f. f ≡ ArgumentFault.Sites) }
{
    if sites >= 1 && sites <= MAX_SITES {
        return Ok(sites as usize);
    }
    Err(ArgumentFault::Sites)
}

/// Returns the place of a value. `Place`: it isn't 1 to 999,999,999.
pub fn check_place(place: u64) -> Result<u64, ArgumentFault>
    ensures accepts { is_ok result ≡ is_place place }
    ensures ok { IfOk result (λ n. n ≡ place) }
    ensures err { IfErr result (λ f. f ≡ ArgumentFault.Place) }
{
    if place >= 1 && place <= MAX_PLACE {
        return Ok(place);
    }
    Err(ArgumentFault::Place)
}

/// Returns the number of cells of a sketch. `Cells`: it isn't a multiple of 3 from 3 to 12,582,912.
pub fn check_cells(cells: u64) -> Result<Cells, ArgumentFault>
    ensures accepts { is_ok result ≡ are_cells cells }
    ensures ok { IfOk result (λ count. count ≡ cells) }
    ensures err { IfErr result (λ f. f ≡ ArgumentFault.Cells) }
{
    Cells::of(cells).ok_or(ArgumentFault::Cells)
}

/// Returns the salt of a sketch. `Salt`: it isn't odd.
pub fn check_salt(salt: u64) -> Result<Salt, ArgumentFault>
    ensures accepts { is_ok result ≡ is_salt salt }
    ensures ok { IfOk result (λ n. n ≡ salt) }
    ensures err { IfErr result (λ f. f ≡ ArgumentFault.Salt) }
{
    Salt::of(salt).ok_or(ArgumentFault::Salt)
}
