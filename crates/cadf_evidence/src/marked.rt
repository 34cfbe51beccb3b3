//! Lines that begin with a mark, a letter and a space.
ghost use Rattle.std.specs.Prelude.{◌≡◌, IfOk};
ghost use Rattle.cadf_evidence.specs.Marked.{number_after, digest_after};
ghost use Rattle.cadf_evidence.specs.SealFile.{number_line, digest_line};

use cadf_inventory::digest_of;
use cadf_json::Memory;
use cadf_linefile::number_in;
use std::alloc::Global;

/// Decodes the number after the mark. `None` if the line is anything else.
#[tactic(auto, unfolding(crate::specs::Marked::number_after, crate::specs::Marked::rest_after))]
pub(crate) fn number_after(mark: &[u8], line: &[u8]) -> Option<u64>
    ensures { result ≡ number_after mark.now line.now }
{
    number_in(line.strip_prefix(mark)?)
}

/// Decodes the digest after the mark. `None` if the line is anything else.
#[tactic(auto, unfolding(crate::specs::Marked::digest_after, crate::specs::Marked::rest_after))]
pub(crate) fn digest_after(mark: &[u8], line: &[u8]) -> Option<[u8; 32]>
    ensures { result ≡ digest_after mark.now line.now }
{
    digest_of(line.strip_prefix(mark)?)
}

/// Makes the line of a number.
pub(crate) fn number_line(alloc: Global, mark: &[u8], number: u64) -> Result<Vec<u8>, Memory>
    ensures { IfOk result (λ line. line.items ≡ number_line mark.now number) }
{
    let mut line = Vec::from_slice(alloc, mark)?;
    line.extend_from_slice(itoa::Buffer::new().format(number).as_bytes())?;
    Ok(line)
}

/// Makes the line of a digest.
pub(crate) fn digest_line(alloc: Global, mark: &[u8], digest: &[u8; 32]) -> Result<Vec<u8>, Memory>
    ensures { IfOk result (λ line. line.items ≡ digest_line mark.now digest.now) }
{
    let mut line = Vec::from_slice(alloc, mark)?;
    line.extend_from_slice(hex::encode(alloc, digest)?.as_bytes())?;
    Ok(line)
}
