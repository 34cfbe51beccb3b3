//! The parts that show whether digests are in a set.
ghost use Rattle.std.specs.Prelude.{◌≡◌, IfOk};
ghost use Rattle.cadf_tree.specs.Tree.{IsSet};
ghost use Rattle.cadf_tree.specs.GrowthLaws.{AreRising};
ghost use Rattle.cadf_tree.specs.PresenceMade.{above, first_digest, kind_if, presence_parts, starts_below, walked_kinds};

use crate::parts::{Kind, Part};
use crate::pruning::parts_of;
use std::alloc::{AllocError, Global};

/// Returns the digests from the first that is above `low` on.
fn above<'a>(low: &[u8; 32], digests: &'a [[u8; 32]]) -> &'a [[u8; 32]]
    ensures { result.now ≡ above low.now digests.now }
{
    for index in 0..digests.len() {
        if low.cmp(&digests[index]).is_lt() {
            return &digests[index..];
        }
    }
    &digests[digests.len()..]
}

/// Returns whether the first of the asked digests is below the first of `digests`, if that has any.
fn starts_below(asked: &[[u8; 32]], digests: &[[u8; 32]]) -> bool
    ensures { result ≡ starts_below asked.now (first_digest digests.now) }
{
    match (asked, digests) {
        ([], _) => false,
        ([_, ..], []) => true,
        ([first, ..], [next, ..]) => first.cmp(next).is_lt(),
    }
}

/// Returns the kind as which a digest of both sets is shown.
fn kind_if(shown: bool) -> Option<Kind>
    ensures { result ≡ kind_if shown }
{
    if shown { Some(Kind::Both) } else { None }
}

/// Makes the kinds of the digests that are shown: one of those that are asked for is between the digests beside them. `Err` if
/// an allocation fails.
fn kinds_of_asked(
    alloc: Global,
    digests: &[[u8; 32]],
    asked: &[[u8; 32]],
) -> Result<Vec<Option<Kind>>, AllocError>
    ensures { IfOk result (λ kinds. kinds.items ≡ walked_kinds digests.now asked.now) }
{
    let mut kinds = Vec::new(alloc);
    let mut rest = asked;
    for index in 0..digests.len() {
        kinds.push(kind_if(starts_below(rest, &digests[index + 1..])))?;
        rest = above(&digests[index], rest);
    }
    Ok(kinds)
}

/// Makes the parts of a set's tree that show of each asked digest whether it is in the set: the leaf that it is, or those that
/// it would be beside. Both lists rise, and are gone through once. `shown` accepts the parts under the set's root, and `state`
/// tells each asked digest by them. `Err` if an allocation fails.
pub fn presence_of(
    alloc: Global,
    digests: &[[u8; 32]],
    asked: &[[u8; 32]],
) -> Result<Vec<Part>, AllocError>
    requires digests { IsSet digests.now }
    requires asked { AreRising asked.now }
    ensures { IfOk result (λ parts. parts.items ≡ presence_parts digests.now asked.now) }
{
    let kinds = kinds_of_asked(alloc, digests, asked)?;
    parts_of(alloc, digests, &kinds)
}
