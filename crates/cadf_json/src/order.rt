//! The members of each object in the order of their names.
ghost use Rattle.std.specs.Prelude.{◌≡◌, ◌≢◌, [], true, OnOk, IfOk, length};
ghost use Rattle.serde_json.specs.Data.{Data, Items, array, object, Members, no_members};
ghost use Rattle.serde_json.specs.Written.{has_float};
ghost use Rattle.cadf_json.specs.Flat.{Stands, ItemsStand, MembersStand, IsSettled, have_fraction, put_all, items_count, settled, settled_items};
ghost use Rattle.cadf_json.specs.Flat.{settled_members};
ghost use Rattle.cadf_json.specs.Reading.{StandsAsRead, Copied, AreNamed, put_named, is_replaced as is_replaced_by, lasts};

use crate::front::Fronted;
use crate::node::Node;
use crate::packed::PackedNode;
use crate::push::{Flat, extent_from};
use crate::value::JsonFault;
use crate::walk::first_member;
use std::alloc::{AllocError, Global};
use std::mem::swap;

/// Memory for more nodes isn't kept.
const MOST_SPARE: usize = 1 << 12;

/// A member: its name, and the nodes of its name and its value.
#[derive(Drop)]
struct Named<'v> {
    name: Fronted<'v>,
    nodes: &'v [PackedNode],
}

/// Puts the members of each object in order. `NotWhole` if a number that is left isn't whole.
pub(crate) fn settle(alloc: Global, rising: bool, flat: &mut Flat) -> Result<(), JsonFault>
    requires { (d : Data) × StandsAsRead rising flat.old.texts.items d flat.old.nodes.items }
    ensures ok { OnOk result ((d : Data) → StandsAsRead rising flat.old.texts.items d flat.old.nodes.items → IsSettled flat.new.texts.items d flat.new.nodes.items) }
    ensures not_whole { result ≡ Err JsonFault.NotWhole → (d : Data) → StandsAsRead rising flat.old.texts.items d flat.old.nodes.items → has_float d ≡ true }
    ensures others { (result ≢ Err JsonFault.NotJson) × (result ≢ Err JsonFault.NotCanonical) }
{
    put_in_order(alloc, rising, flat)?;
    if has_fraction(flat.nodes.as_slice()) {
        return Err(JsonFault::NotWhole);
    }
    Ok(())
}

/// Returns whether a number isn't whole.
fn has_fraction(nodes: &[PackedNode]) -> bool
    ensures { result ≡ have_fraction nodes.now }
{
    nodes
        .iter()
        .any(|node| matches!(node.node(), Node::Fraction))
}

/// Puts the members of each object in the order of their names, unless all rise; of two with the same name the later one
/// stays.
fn put_in_order(alloc: Global, rising: bool, flat: &mut Flat) -> Result<(), AllocError>
    requires { (d : Data) × StandsAsRead rising flat.old.texts.items d flat.old.nodes.items }
    ensures { OnOk result ((d : Data) → StandsAsRead rising flat.old.texts.items d flat.old.nodes.items → Stands flat.new.texts.items d flat.new.nodes.items) }
{
    if rising {
        return Ok(());
    }
    flat.spare.clear();
    flat.spare.reserve(flat.nodes.len())?;
    copy_value(
        alloc,
        flat.nodes.as_slice(),
        flat.texts.as_slice(),
        &mut flat.spare,
    )?;
    swap(&mut flat.nodes, &mut flat.spare);
    if flat.spare.len() > MOST_SPARE {
        flat.spare = Vec::new(alloc);
    }
    Ok(())
}

/// Appends a value, with the members of each object in order.
#[cycle(copy_value)]
fn copy_value(
    alloc: Global,
    value: &[PackedNode],
    texts: &[u8],
    out: &mut Vec<PackedNode>,
) -> Result<(), AllocError>
    requires { (d : Data) × Stands texts.now d value.now }
    ensures { OnOk result ((d : Data) → Stands texts.now d value.now → Copied texts.now (settled d) out.old.items out.new.items) }
{
    let first = value[0];
    match first.node() {
        Node::Array(extent) => copy_items(alloc, extent.count, &value[1..], texts, out),
        Node::Object(extent) => copy_members(alloc, extent.count, &value[1..], texts, out),
        _ => Ok(out.push(first)?),
    }
}

/// Appends a list of the items.
#[cycle(copy_value)]
fn copy_items(
    alloc: Global,
    count: u32,
    items: &[PackedNode],
    texts: &[u8],
    out: &mut Vec<PackedNode>,
) -> Result<(), AllocError>
    requires { (ds : Items) × ItemsStand texts.now ds items.now }
    ensures { OnOk result ((ds : Items) → ItemsStand texts.now ds items.now → count ≡ items_count ds
        → Copied texts.now (array (settled_items ds)) out.old.items out.new.items) }
{
    let at = out.len();
    out.push(PackedNode::of(Node::Null)?)?;
    let mut rest = items;
    'items: while !rest.is_empty() {
        let (item, later) = rest.split_at(rest[0].node().size());
        copy_value(alloc, item, texts, out)?;
        rest = later;
    }
    let extent = extent_from(out, at, count)?;
    out[at] = PackedNode::of(Node::Array(extent))?;
    Ok(())
}

/// Appends an object of the members. Room is made for `count` of them.
#[cycle(copy_value)]
fn copy_members(
    alloc: Global,
    count: u32,
    members: &[PackedNode],
    texts: &[u8],
    out: &mut Vec<PackedNode>,
) -> Result<(), AllocError>
    requires { (ms : Members) × MembersStand texts.now ms members.now }
    ensures { OnOk result ((ms : Members) → MembersStand texts.now ms members.now
        → Copied texts.now (object (put_all (settled_members ms) no_members)) out.old.items out.new.items) }
{
    let start = out.len();
    out.push(PackedNode::of(Node::Null)?)?;
    let mut named = by_name(alloc, count, members, texts)?;
    sort(&mut named)?;
    let sorted = named.as_slice();
    let mut kept: u32 = 0;
    let mut at = 0;
    'members: while at < sorted.len() {
        let member = &sorted[at];
        at += 1;
        if !is_replaced(member.name.text(), &sorted[at..]) {
            out.push(member.nodes[0])?;
            copy_value(alloc, &member.nodes[1..], texts, out)?;
            kept = kept.checked_add(1).ok_or(AllocError)?;
        }
    }
    let extent = extent_from(out, start, kept)?;
    out[start] = PackedNode::of(Node::Object(extent))?;
    Ok(())
}

/// Finds the name and the nodes of each member.
fn by_name<'v>(
    alloc: Global,
    count: u32,
    members: &'v [PackedNode],
    texts: &'v [u8],
) -> Result<Vec<Named<'v>>, AllocError>
    requires { (ms : Members) × MembersStand texts.now ms members.now }
    ensures { IfOk result (λ named. (ms : Members) → MembersStand texts.now ms members.now
        → AreNamed texts.now (length members.now) (put_named named.items []) (put_all ms no_members)) }
{
    let mut named = Vec::with_capacity(alloc, count as usize)?;
    let mut rest = members;
    'members: while !rest.is_empty() {
        let first = first_member(rest, texts);
        named.push(Named {
            name: Fronted::of(first.name),
            nodes: first.nodes,
        })?;
        rest = first.rest;
    }
    Ok(named)
}

/// Sorts members by name. Those with the same name stay in their order.
fn sort(named: &mut Vec<Named<'_>>) -> Result<(), AllocError>
    ensures { OnOk result (lasts named.new.items ≡ put_named named.old.items []) }
{
    named.sort_by(|one, other| one.name.cmp(&other.name))
}

/// Returns whether the first of the later members has this name too.
fn is_replaced(name: &[u8], later: &[Named<'_>]) -> bool
    ensures { result ≡ is_replaced_by name.now later.now }
{
    match later {
        [next, ..] => next.name.text() == name,
        [] => false,
    }
}
