//! Nodes and decoded texts, appended.
ghost use Rattle.std.specs.Prelude.{◌≡◌, ◌≢◌, ◌+◌, ◌-◌, ◌^◌, ◌≤◌, ◌++◌, [], None, IfOk, IfErr, OnOk, vec_len};
ghost use Rattle.serde_json.specs.Data.{Num};
ghost use Rattle.serde_json.specs.Read.{number_of};
ghost use Rattle.serde_json.specs.Written.{number_text};
ghost use Rattle.cadf_json.specs.Flat.{IsTextAt, NumberStands, TextStands};
ghost use Rattle.cadf_json.specs.Value.{IsWholeNumber};
ghost use Rattle.cadf_json.specs.Reading.{Grown, IsNumberRead};

use crate::node::{Extent, Node, Place};
use crate::number::Number;
use crate::packed::PackedNode;
use crate::value::JsonFault;
use std::alloc::{AllocError, Global};

/// The nodes of a value, and its decoded texts.
#[derive(Drop)]
pub(crate) struct Flat {
    pub(crate) nodes: Vec<PackedNode>,
    pub(crate) texts: Vec<u8>,
    /// The memory in which members are put in order.
    pub(crate) spare: Vec<PackedNode>,
}

impl Flat {
    /// Makes no nodes, without allocating.
    pub(crate) fn new(alloc: Global) -> Flat
        ensures { result.nodes.items ≡ [] }
    {
        Flat {
            nodes: Vec::new(alloc),
            texts: Vec::new(alloc),
            spare: Vec::new(alloc),
        }
    }
}

/// The greatest length of the texts, and the greatest number of nodes.
pub(crate) const MOST: usize = u32::MAX as usize;

/// Returns the place of so many bytes after those up to `start`. `Memory` if and only if they end past 4 GiB.
#[inline(always)]
fn place_from(start: usize, count: usize) -> Result<Place, AllocError>
    ensures ok { IfOk result (λ p. (p.start ≡ start) × (p.end ≡ start + count)) }
    ensures err { IfErr result (λ _. 2 ^ 32 ≤ start + count) }
{
    if start > MOST || count > MOST - start {
        return Err(AllocError);
    }
    Ok(Place {
        start: start as u32,
        end: (start + count) as u32,
    })
}

/// Appends a decoded text, and returns its place. `Memory` past 4 GiB, or if an allocation fails.
#[inline(always)]
pub(crate) fn push_text(text: &str, texts: &mut Vec<u8>) -> Result<Place, AllocError>
    ensures texts { OnOk result (texts.new.items ≡ texts.old.items ++ text.now) }
    ensures place { IfOk result (λ p. IsTextAt texts.new.items p text.now) }
{
    let place = place_from(texts.len(), text.len())?;
    texts.extend_from_slice(text.as_bytes())?;
    Ok(place)
}

/// Appends a text and its node.
#[inline(always)]
pub(crate) fn push_string(text: &str, flat: &mut Flat) -> Result<(), AllocError>
    ensures { OnOk result (Grown (λ u xs. TextStands u text.now xs) flat.old.nodes.items flat.new.nodes.items flat.old.texts.items flat.new.texts.items) }
{
    let place = push_text(text, &mut flat.texts)?;
    flat.nodes.push(PackedNode::of(Node::Text(place))?)?;
    Ok(())
}

/// Appends a number. `NotJson` if it has no value.
pub(crate) fn push_number(text: &str, flat: &mut Flat) -> Result<(), JsonFault>
    ensures ok { OnOk result (IsNumberRead text.now flat.old.nodes.items flat.new.nodes.items flat.old.texts.items flat.new.texts.items) }
    ensures not_json { result ≡ Err JsonFault.NotJson → number_of text.now ≡ None }
    ensures others { (result ≢ Err JsonFault.NotWhole) × (result ≢ Err JsonFault.NotCanonical) }
{
    let mut buffer = itoa::Buffer::new();
    match Number::parse(text) {
        Some(Number::Unsigned(n)) => Ok(push_whole(buffer.format(n), flat)?),
        Some(Number::Negative(n)) => Ok(push_whole(buffer.format(n), flat)?),
        Some(Number::Float(_)) => Ok(flat.nodes.push(PackedNode::of(Node::Fraction)?)?),
        None => Err(JsonFault::NotJson),
    }
}

/// Appends a whole number in canonical spelling.
fn push_whole(spelled: &str, flat: &mut Flat) -> Result<(), AllocError>
    ensures { OnOk result ((n : Num) → IsWholeNumber n → spelled.now ≡ number_text n
        → Grown (λ u xs. NumberStands u n xs) flat.old.nodes.items flat.new.nodes.items flat.old.texts.items flat.new.texts.items) }
{
    let place = push_text(spelled, &mut flat.texts)?;
    flat.nodes.push(PackedNode::of(Node::Whole(place))?)?;
    Ok(())
}

/// Returns the extent of a list or an object whose parts were appended after the node at `at`. `Memory` if and only if it
/// has 2^32 nodes or more.
pub(crate) fn extent_from(
    nodes: &Vec<PackedNode>,
    at: usize,
    count: u32,
) -> Result<Extent, AllocError>
    requires { at ≤ vec_len nodes.now }
    ensures ok { IfOk result (λ e. (e.size ≡ vec_len nodes.now - at) × (e.count ≡ count)) }
    ensures err { IfErr result (λ _. 2 ^ 32 ≤ vec_len nodes.now - at) }
{
    let size = nodes.len() - at;
    if size > MOST {
        return Err(AllocError);
    }
    Ok(Extent {
        size: size as u32,
        count,
    })
}
