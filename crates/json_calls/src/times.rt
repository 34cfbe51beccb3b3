//! Times.

use cadf_time::Stamp;
use std::alloc::{AllocError as Memory, Global};

/// Answers the time's instant, its offset and its canonical spelling.
pub(crate) fn read(alloc: Global, text: &str) -> Result<String, Memory> {
    match Stamp::read(text) {
        Ok(stamp) => {
            let spelled = stamp.text(alloc)?;
            format!(in alloc; "ok\t{}\t{}\t{spelled}", stamp.instant(), stamp.offset())
        }
        Err(fault) => calls::refused(alloc, &fault),
    }
}
