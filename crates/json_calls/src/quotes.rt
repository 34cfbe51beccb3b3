//! The canonical text of a text.

use cadf_json::Memory;
use std::alloc::Global;

/// Answers the canonical text of a text.
pub(crate) fn quoted(alloc: Global, text: &str) -> Result<String, Memory> {
    let spelled = cadf_json::quoted(alloc, text)?;
    calls::answer(alloc, "ok", &[spelled.as_str()])
}
