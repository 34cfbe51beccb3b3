//! The items of a site seal: their lines, and which may follow each other.
ghost use Rattle.std.specs.Prelude.{◌≡◌, ◌++◌, IfOk, OnOk};
ghost use Rattle.cadf_siteseal.specs.SealItems.{sealed_in, sealed_text, item_line, floor_in, gone_with, held_with, marked_item, item_in, next, cause, order_unless, is_below};

use crate::part_name::{PartName, is_part, is_window};
use crate::roots::{cut, push_roots, roots_in};
use cadf_json::Memory;
use cadf_linefile::Cause;
use cadf_split::Unit;
use cadf_tree::Root;
use std::alloc::Global;

/// A part, with the roots of its facts and of their keys.
#[derive(Drop)]
pub struct SealedPart {
    pub name: PartName,
    pub facts: Root,
    pub keys: Root,
}

/// A line of a site seal after that of the unit.
#[derive(Drop)]
pub enum SealItem {
    /// The first window that the site keeps.
    Floor(PartName),
    /// A window that went, with the roots of what it had then.
    Gone(SealedPart),
    /// A part that has an atom.
    Held(SealedPart),
}

/// The names of the floor, of the last window that went, and of the last part, so far.
#[derive(Drop)]
pub struct SealState {
    pub(crate) floor: Option<PartName>,
    pub(crate) gone: Option<PartName>,
    pub(crate) held: Option<PartName>,
}

// ---- lines

/// Decodes the name and the roots of a part. `None` if the text is anything else.
fn sealed_in(alloc: Global, text: &[u8]) -> Result<Option<SealedPart>, Memory>
    ensures { IfOk result (λ p. p ≡ sealed_in text.now) }
{
    let (name, rest) = cut(text);
    match roots_in(rest) {
        None => Ok(None),
        Some((facts, keys)) => {
            let name = PartName::of(alloc, name)?;
            Ok(Some(SealedPart { name, facts, keys }))
        }
    }
}

/// Makes the item of a floor, if the text is the name of a window.
fn floor_in(alloc: Global, unit: Unit, text: &[u8]) -> Result<Option<SealItem>, Memory>
    ensures { IfOk result (λ i. i ≡ floor_in unit text.now) }
{
    if !is_window(unit, text) {
        return Ok(None);
    }
    Ok(Some(SealItem::Floor(PartName::of(alloc, text)?)))
}

/// Makes the item of a window that went, if the part has the name of a window.
fn gone_with(unit: Unit, part: Option<SealedPart>) -> Option<SealItem>
    ensures { result ≡ gone_with unit part }
{
    let part = part?;
    if is_window(unit, part.name.as_bytes()) {
        Some(SealItem::Gone(part))
    } else {
        None
    }
}

/// Makes the item of a part that has an atom, if it has the name of one.
fn held_with(unit: Unit, part: Option<SealedPart>) -> Option<SealItem>
    ensures { result ≡ held_with unit part }
{
    let part = part?;
    if is_part(unit, part.name.as_bytes()) {
        Some(SealItem::Held(part))
    } else {
        None
    }
}

/// Decodes the item of a line with this mark, by the text after it.
#[tactic(auto, unfolding(crate::specs::SealItems::marked_item))]
fn marked_item(alloc: Global, unit: Unit, mark: u8, text: &[u8]) -> Result<Option<SealItem>, Memory>
    ensures { IfOk result (λ i. i ≡ marked_item unit mark text.now) }
{
    if mark == b'T' {
        return floor_in(alloc, unit, text);
    }
    if mark == b'G' {
        let part = sealed_in(alloc, text)?;
        return Ok(gone_with(unit, part));
    }
    if mark == b'W' {
        let part = sealed_in(alloc, text)?;
        return Ok(held_with(unit, part));
    }
    Ok(None)
}

/// Decodes the item of a line. `None` if the line is anything else.
pub(crate) fn item_in(alloc: Global, unit: Unit, line: &[u8]) -> Result<Option<SealItem>, Memory>
    ensures { IfOk result (λ i. i ≡ item_in unit line.now) }
{
    match line {
        [mark, b' ', text @ ..] => marked_item(alloc, unit, *mark, text),
        _ => Ok(None),
    }
}

/// Appends the name and the roots of a part.
fn push_sealed(alloc: Global, line: &mut Vec<u8>, part: &SealedPart) -> Result<(), Memory>
    ensures { OnOk result (line.new.items ≡ line.old.items ++ sealed_text part.now) }
{
    line.extend_from_slice(part.name.as_bytes())?;
    line.push(b' ')?;
    push_roots(alloc, line, &part.facts, &part.keys)
}

/// Makes the line of an item.
pub(crate) fn item_line(alloc: Global, item: &SealItem) -> Result<Vec<u8>, Memory>
    ensures { IfOk result (λ line. line.items ≡ item_line item.now) }
{
    match item {
        SealItem::Floor(name) => {
            let mut line = Vec::from_slice(alloc, b"T ")?;
            line.extend_from_slice(name.as_bytes())?;
            Ok(line)
        }
        SealItem::Gone(part) => {
            let mut line = Vec::from_slice(alloc, b"G ")?;
            push_sealed(alloc, &mut line, part)?;
            Ok(line)
        }
        SealItem::Held(part) => {
            let mut line = Vec::from_slice(alloc, b"W ")?;
            push_sealed(alloc, &mut line, part)?;
            Ok(line)
        }
    }
}

// ---- what may follow

/// Returns no cause, if the order is right.
pub(crate) fn order_unless(ok: bool) -> Option<Cause>
    ensures { result ≡ order_unless ok }
{
    if ok { None } else { Some(Cause::Order) }
}

/// Returns whether the name comes before that of a floor that is there.
fn is_below(floor: &Option<PartName>, name: &PartName) -> bool
    ensures { result ≡ is_below floor.now name.now }
{
    match floor {
        None => false,
        Some(floor) => name.comes_before(floor),
    }
}

/// Returns what is wrong with the item after those before it.
pub(crate) fn cause_of(state: &SealState, item: &SealItem) -> Option<Cause>
    ensures { result ≡ cause state.now item.now }
{
    match item {
        SealItem::Floor(_) => order_unless(state.floor.is_none() && state.held.is_none()),
        SealItem::Gone(part) => {
            if !is_below(&state.floor, &part.name) {
                return Some(Cause::Shape);
            }
            order_unless(state.held.is_none() && part.name.is_after(&state.gone))
        }
        SealItem::Held(part) => order_unless(part.name.is_after(&state.held)),
    }
}

/// Notes a further item.
pub(crate) fn note(alloc: Global, state: &mut SealState, item: &SealItem) -> Result<(), Memory>
    ensures { OnOk result (state.new ≡ next state.old item.now) }
{
    match item {
        SealItem::Floor(name) => state.floor = Some(name.copy(alloc)?),
        SealItem::Gone(part) => state.gone = Some(part.name.copy(alloc)?),
        SealItem::Held(part) => state.held = Some(part.name.copy(alloc)?),
    }
    Ok(())
}
