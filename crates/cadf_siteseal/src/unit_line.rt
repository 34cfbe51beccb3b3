//! The line of a unit.
ghost use Rattle.std.specs.Prelude.{◌≡◌, IfOk};
ghost use Rattle.cadf_siteseal.specs.SiteFile.{unit_in, unit_line};

use cadf_json::Memory;
use cadf_split::Unit;
use std::alloc::Global;

/// Decodes the unit of a line. `None` if the line is anything else.
pub(crate) fn unit_in(line: &[u8]) -> Option<Unit>
    ensures { result ≡ unit_in line.now }
{
    if line == b"B month".as_slice() {
        return Some(Unit::Month);
    }
    if line == b"B day".as_slice() {
        return Some(Unit::Day);
    }
    if line == b"B hour".as_slice() {
        Some(Unit::Hour)
    } else {
        None
    }
}

/// Makes the line of the unit.
pub(crate) fn unit_line(alloc: Global, unit: Unit) -> Result<Vec<u8>, Memory>
    ensures { IfOk result (λ line. line.items ≡ unit_line unit) }
{
    let mut line = Vec::from_slice(alloc, b"B ")?;
    line.extend_from_slice(unit.word().as_bytes())?;
    Ok(line)
}
