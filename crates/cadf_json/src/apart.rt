//! The reading of an object with the items of one list apart: a visitor takes them, and no value keeps them.
ghost use Rattle.std.specs.Prelude.{◌≡◌, ◌<◌, ◌≤◌, ◌++◌, ◌∷◌, [], List, length, true, IfOk, OnOk};
ghost use Rattle.serde_json.specs.Data.{Data};
ghost use Rattle.cadf_json.specs.Apart.{PassesList, AppendsMembers, IsApart};
ghost use Rattle.cadf_json.specs.Flat.{decode, IsFlatValue};
ghost use Rattle.cadf_json.specs.TokenUtf8.{HaveUtf8};
ghost use Rattle.cadf_json.specs.Value.{IsValue};

use crate::Memory;
use crate::node::{Extent, Node};
use crate::order::settle;
use crate::packed::PackedNode;
use crate::push::{Flat, extent_from, push_string};
use crate::read::{MAX_DEPTH, read_value, rises_to};
use crate::value::{Json, JsonFault};
use crate::view::View;
use json::{Reader, Scratch, Token};
use std::alloc::Global;

/// Takes the items of a list in turn.
pub trait ItemVisitor {
    /// The visitor took these items.
    ghost took: { Self → List Data → Type 0 };

    /// Begins a list: items that were taken before don't count.
    fn begin(&mut self)
        ensures { took self.new [] };

    /// Takes a further item.
    fn take(&mut self, item: &View<'_>) -> Result<(), Memory>
        ensures { OnOk result ((ds : List Data) → took self.old ds → took self.new (ds ++ item.now ∷ [])) };
}

/// Passes the items of the next list to the visitor, each in place of the one before, and appends the list without them.
/// `NotJson` if no list comes next.
fn pass_list<T: ItemVisitor>(
    alloc: Global,
    reader: &mut Reader<'_>,
    depth: usize,
    item: &mut Json,
    taker: &mut T,
    nodes: &mut Vec<PackedNode>,
) -> Result<(), JsonFault>
    requires depth { depth ≤ 127 }
    requires utf8 { HaveUtf8 reader.old }
    ensures ok { OnOk result (PassesList T.took taker.new depth reader.old reader.new nodes.old.items nodes.new.items) }
    ensures shorter { OnOk result (length reader.new < length reader.old) }
{
    let Some(Token::BeginArray) = reader.next() else {
        return Err(JsonFault::NotJson);
    };
    if depth == 0 {
        return Err(JsonFault::NotJson);
    }
    taker.begin();
    'items: while !reader.take_end_array() {
        item.read_next(alloc, reader, depth - 1)?;
        taker.take(&item.view())?;
    }
    nodes.push(PackedNode::of(Node::Array(Extent { size: 1, count: 0 }))?)?;
    Ok(())
}

/// Appends an object of the next members, the opening brace of which was read, but passes the items of the list `name`
/// to the visitor. Returns whether the names of each object rise.
fn pass_members<'a, T: ItemVisitor>(
    alloc: Global,
    reader: &mut Reader<'a>,
    depth: usize,
    name: &str,
    taker: &mut T,
    flat: &mut Flat,
) -> Result<bool, JsonFault>
    requires depth { depth ≤ 127 }
    requires utf8 { HaveUtf8 reader.old }
    ensures { IfOk result (λ rising.
        AppendsMembers T.took taker.new name.now rising depth reader.old reader.new flat.old.nodes.items flat.new.nodes.items flat.old.texts.items flat.new.texts.items) }
{
    let at = flat.nodes.len();
    flat.nodes.push(PackedNode::of(Node::Null)?)?;
    let mut item = Json::new(alloc);
    let mut count: u32 = 0;
    let mut last: Option<&'a str> = None;
    let mut rising = true;
    'members: loop {
        let Ok(key) = reader.next_key() else {
            return Err(JsonFault::NotJson);
        };
        let Some(key) = key else {
            break;
        };
        count = count.checked_add(1).ok_or(JsonFault::Memory)?;
        rising = rises_to(rising, last, key);
        last = Some(key);
        push_string(key, flat)?;
        if key == name {
            pass_list(alloc, reader, depth, &mut item, taker, &mut flat.nodes)?;
        } else {
            rising = read_value(reader, depth, flat)? & rising;
        }
    }
    let extent = extent_from(&flat.nodes, at, count)?;
    flat.nodes[at] = PackedNode::of(Node::Object(extent))?;
    Ok(rising)
}

/// Reads the object that the bytes spell into this memory, but passes the items of the list `name` to the visitor.
fn read_flat_apart<T: ItemVisitor>(
    alloc: Global,
    scratch: &mut Scratch,
    bytes: &[u8],
    name: &str,
    taker: &mut T,
    mut flat: Flat,
) -> Result<Json, JsonFault>
    requires { flat.nodes.items ≡ [] }
    ensures { IfOk result (λ j. IsApart T.took taker.new bytes.now name.now j) }
{
    let Ok(text) = str::from_utf8(bytes) else {
        return Err(JsonFault::NotJson);
    };
    let mut reader = Reader::new(text, scratch)?;
    let Some(Token::BeginObject) = reader.next() else {
        return Err(JsonFault::NotJson);
    };
    let rising = pass_members(alloc, &mut reader, MAX_DEPTH - 1, name, taker, &mut flat)?;
    if reader.next().is_some() {
        return Err(JsonFault::NotJson);
    }
    settle(alloc, rising, &mut flat)?;
    Ok(Json::of(flat))
}

impl Json {
    /// Reads the object that the bytes spell in place of this value, but passes the items of the list `name`, if there is
    /// one, to the visitor. Of two lists the later one counts. `false`: the bytes aren't read in this way.
    pub fn read_apart<T: ItemVisitor>(
        &mut self,
        alloc: Global,
        scratch: &mut Scratch,
        bytes: &[u8],
        name: &str,
        taker: &mut T,
    ) -> Result<bool, Memory>
        ensures apart { IfOk result (λ b. b ≡ true → IsApart T.took taker.new bytes.now name.now self.new) }
        ensures value { IsValue self.new }
    {
        let flat = self.emptied(alloc);
        match read_flat_apart(alloc, scratch, bytes, name, taker, flat) {
            Ok(json) => {
                *self = json;
                Ok(true)
            }
            Err(JsonFault::Memory) => Err(Memory),
            Err(_) => Ok(false),
        }
    }
}
