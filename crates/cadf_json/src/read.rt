//! The one descent from tokens to nodes.
ghost use Rattle.std.specs.Prelude.{◌≡◌, ◌≢◌, ◌<◌, ◌&&◌, length, option_map, IfOk, OnOk};
ghost use Rattle.cadf_json.specs.Reading.{ReadsValue, IsNoValue, AreItemsRead, AreNoItems, AreMembersRead, AreNoMembers, is_name_above};

use crate::node::Node;
use crate::packed::PackedNode;
use crate::push::{Flat, extent_from, push_number, push_string};
use crate::value::JsonFault;
use json::{Reader, Token};

/// How deep lists and objects may nest.
pub(crate) const MAX_DEPTH: usize = 127;

/// Appends the nodes and the texts of the next value, with members as they come. Lists and objects may nest `depth` deep.
/// Returns whether the names of each object rise. `NotJson` if no value comes next.
#[cycle(read_value)]
pub(crate) fn read_value(
    reader: &mut Reader<'_>,
    depth: usize,
    flat: &mut Flat,
) -> Result<bool, JsonFault>
    ensures ok { IfOk result (λ rising. ReadsValue rising depth reader.old reader.new flat.old.nodes.items flat.new.nodes.items flat.old.texts.items flat.new.texts.items) }
    ensures not_json { result ≡ Err JsonFault.NotJson → IsNoValue depth reader.old }
    ensures others { (result ≢ Err JsonFault.NotWhole) × (result ≢ Err JsonFault.NotCanonical) }
    ensures shorter { OnOk result (length reader.new < length reader.old) }
{
    let Some(token) = reader.next() else {
        return Err(JsonFault::NotJson);
    };
    match token {
        Token::String(text) => push_string(text, flat)?,
        Token::Number(text) => push_number(text, flat)?,
        Token::Bool(b) => flat.nodes.push(PackedNode::of(Node::Bool(b))?)?,
        Token::Null => flat.nodes.push(PackedNode::of(Node::Null)?)?,
        Token::BeginArray if depth > 0 => return Ok(read_items(reader, depth - 1, flat)?),
        Token::BeginObject if depth > 0 => return Ok(read_members(reader, depth - 1, flat)?),
        _ => return Err(JsonFault::NotJson),
    }
    Ok(true)
}

/// Appends a list of the next items, the opening bracket of which was read.
#[cycle(read_value)]
#[inline(never)]
fn read_items(reader: &mut Reader<'_>, depth: usize, flat: &mut Flat) -> Result<bool, JsonFault>
    ensures ok { IfOk result (λ rising. AreItemsRead rising depth reader.old reader.new flat.old.nodes.items flat.new.nodes.items flat.old.texts.items flat.new.texts.items) }
    ensures not_json { result ≡ Err JsonFault.NotJson → AreNoItems depth reader.old }
    ensures others { (result ≢ Err JsonFault.NotWhole) × (result ≢ Err JsonFault.NotCanonical) }
    ensures shorter { OnOk result (length reader.new < length reader.old) }
{
    let at = flat.nodes.len();
    flat.nodes.push(PackedNode::of(Node::Null)?)?;
    let mut count: u32 = 0;
    let mut rising = true;
    'items: while !reader.take_end_array() {
        rising = read_value(reader, depth, flat)? & rising;
        count = count.checked_add(1).ok_or(JsonFault::Memory)?;
    }
    let extent = extent_from(&flat.nodes, at, count)?;
    flat.nodes[at] = PackedNode::of(Node::Array(extent))?;
    Ok(rising)
}

/// Appends an object of the next members, the opening brace of which was read.
#[cycle(read_value)]
#[inline(never)]
fn read_members<'a>(
    reader: &mut Reader<'a>,
    depth: usize,
    flat: &mut Flat,
) -> Result<bool, JsonFault>
    ensures ok { IfOk result (λ rising. AreMembersRead rising depth reader.old reader.new flat.old.nodes.items flat.new.nodes.items flat.old.texts.items flat.new.texts.items) }
    ensures not_json { result ≡ Err JsonFault.NotJson → AreNoMembers depth reader.old }
    ensures others { (result ≢ Err JsonFault.NotWhole) × (result ≢ Err JsonFault.NotCanonical) }
    ensures shorter { OnOk result (length reader.new < length reader.old) }
{
    let at = flat.nodes.len();
    flat.nodes.push(PackedNode::of(Node::Null)?)?;
    let mut count: u32 = 0;
    let mut last: Option<&'a str> = None;
    let mut rising = true;
    'members: loop {
        let Ok(key) = reader.next_key() else {
            return Err(JsonFault::NotJson);
        };
        let Some(name) = key else {
            break;
        };
        rising = rises_to(rising, last, name);
        push_string(name, flat)?;
        rising = read_value(reader, depth, flat)? & rising;
        count = count.checked_add(1).ok_or(JsonFault::Memory)?;
        last = Some(name);
    }
    let extent = extent_from(&flat.nodes, at, count)?;
    flat.nodes[at] = PackedNode::of(Node::Object(extent))?;
    Ok(rising)
}

/// Returns whether the names rise, if they did up to the last one.
pub(crate) fn rises_to(rising: bool, last: Option<&str>, name: &str) -> bool
    ensures { result ≡ rising && is_name_above (option_map (λ s. s.now) last.entry) name.now }
{
    match last {
        Some(last) => rising && last < name,
        None => rising,
    }
}
