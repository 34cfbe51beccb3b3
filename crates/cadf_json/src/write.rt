//! The canonical text, from the nodes.
ghost use Rattle.std.specs.Prelude.{◌≡◌, ◌≤◌, ◌++◌, IsUtf8, OnOk, length};
ghost use Rattle.json.specs.Print.{quoted as quoted_text};
ghost use Rattle.serde_json.specs.Data.{array, object};
ghost use Rattle.serde_json.specs.Written.{comma_if};
ghost use Rattle.cadf_json.specs.Parts.{items_in, members_in};
ghost use Rattle.cadf_json.specs.Value.{text as text_of};
ghost use Rattle.cadf_json.specs.Flat.{text_at as bytes_at};

use crate::Memory;
use crate::node::{Node, Place};
use crate::plain_run::plain_length;
use crate::view::View;
use json::Writer;
use std::alloc::Global;

/// Appends the canonical text of the part.
#[cycle(write_value)]
pub(crate) fn write_value(alloc: Global, view: &View<'_>, out: &mut Vec<u8>) -> Result<(), Memory>
    ensures { OnOk result (out.new.items ≡ out.old.items ++ text_of view.now) }
{
    match view.nodes[0].node() {
        Node::Null => out.extend_from_slice(b"null"),
        Node::Bool(true) => out.extend_from_slice(b"true"),
        Node::Bool(false) => out.extend_from_slice(b"false"),
        Node::Whole(place) => out.extend_from_slice(bytes_of(view.texts, place)),
        Node::Text(place) => push_quoted(alloc, as_text(bytes_of(view.texts, place)), out),
        Node::Array(_) => write_items(alloc, view, out),
        Node::Object(_) => write_members(alloc, view, out),
        Node::Fraction => Ok(()),
    }
}

/// Borrows the bytes at the place.
pub(crate) fn bytes_of(texts: &[u8], place: Place) -> &[u8]
    requires { (place.start ≤ place.end) × (place.end ≤ length texts.now) }
    ensures { result.now ≡ bytes_at texts.now place }
{
    &texts[place.start as usize..place.end as usize]
}

/// Borrows the bytes as text.
pub(crate) fn as_text(bytes: &[u8]) -> &str
    requires { IsUtf8 bytes.now }
    ensures { result.now ≡ bytes.now }
{
    unsafe { std::str::from_utf8_unchecked(bytes) }
}

/// Appends the items with their brackets.
#[cycle(write_value)]
#[inline(never)]
fn write_items(alloc: Global, view: &View<'_>, out: &mut Vec<u8>) -> Result<(), Memory>
    ensures { OnOk result (out.new.items ≡ out.old.items ++ text_of (array (items_in view.now))) }
{
    out.push(b'[')?;
    let mut later = false;
    for item in view.items() {
        push_comma_if(later, out)?;
        write_value(alloc, &item, out)?;
        later = true;
    }
    out.push(b']')?;
    Ok(())
}

/// Appends the members with their braces.
#[cycle(write_value)]
#[inline(never)]
fn write_members(alloc: Global, view: &View<'_>, out: &mut Vec<u8>) -> Result<(), Memory>
    ensures { OnOk result (out.new.items ≡ out.old.items ++ text_of (object (members_in view.now))) }
{
    out.push(b'{')?;
    let mut later = false;
    for member in view.members() {
        push_comma_if(later, out)?;
        push_quoted(alloc, member.name, out)?;
        out.push(b':')?;
        write_value(alloc, &member.value, out)?;
        later = true;
    }
    out.push(b'}')?;
    Ok(())
}

/// Appends a comma, if something stands before.
pub(crate) fn push_comma_if(later: bool, out: &mut Vec<u8>) -> Result<(), Memory>
    ensures { OnOk result (out.new.items ≡ out.old.items ++ comma_if later) }
{
    if later {
        out.push(b',')?;
    }
    Ok(())
}

/// Appends a text as a canonical JSON string. Copies it if JSON spells each of its bytes as itself: a writer for each
/// text would fill memory ahead with zeros.
pub fn push_quoted(alloc: Global, text: &str, out: &mut Vec<u8>) -> Result<(), Memory>
    ensures { OnOk result (out.new.items ≡ out.old.items ++ quoted_text text.now) }
{
    if plain_length(text.as_bytes()) < text.len() {
        let mut writer = Writer::new(Vec::with_capacity(alloc, text.len())?);
        writer.string(text)?;
        out.extend_from_slice(writer.into_inner().as_slice())?;
        return Ok(());
    }
    out.push(b'"')?;
    out.extend_from_slice(text.as_bytes())?;
    out.push(b'"')?;
    Ok(())
}
