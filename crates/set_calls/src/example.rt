//! The example of the README.

use crate::told;
use cadf_join::{Join, Memory, TextSet};
use std::alloc::Global;

/// Returns whether two sites have the same contents after one has joined its delta from the other.
fn two_sites_join(alloc: Global) -> Result<bool, Memory> {
    let (mut north, mut south) = (TextSet::new(alloc), TextSet::new(alloc));
    north.insert("seen")?;
    south.insert("read")?;
    if let Some(part) = south.missing_from(&north)? {
        north.join(&part)?;
    }
    Ok(north.contains("read") && south.missing_from(&north)?.is_none())
}

/// Answers whether the two sites of the example have the same contents.
pub(crate) fn answered(alloc: Global) -> Result<String, Memory> {
    told::truth(alloc, two_sites_join(alloc)?)
}
