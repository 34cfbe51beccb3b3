//! The items of a proof of growth of a site: their lines, and which may follow each other.
ghost use Rattle.std.specs.Prelude.{◌≡◌, IfOk, OnOk};
ghost use Rattle.cadf_evidence.specs.Marked.{digest_after};
ghost use Rattle.cadf_evidence.specs.ProofFile.{leaf_mark, part_line};
ghost use Rattle.cadf_evidence.specs.ProofVerdict.{leaf_in, part_in};
ghost use Rattle.cadf_evidence.specs.SealFile.{digest_line};
ghost use Rattle.cadf_linefile.specs.LineGrammar.{shape_unless};
ghost use Rattle.cadf_siteseal.specs.GrowthItems.{item_line, item_in, window_in, tree_item_in, next, cause};

use crate::part_name::{PartName, is_part};
use crate::seal_items::order_unless;
use cadf_inventory::digest_of;
use cadf_json::Memory;
use cadf_linefile::Cause;
use cadf_split::Unit;
use cadf_tree::{Kind, Part};
use std::alloc::Global;

/// A line of a proof of growth after that of the unit.
#[derive(Drop)]
pub enum GrowthItem {
    /// The part of the lines that follow.
    Window(PartName),
    /// A part of the pruned tree over the facts, or of that over the keys.
    Tree(Part),
    /// The line before the parts over the keys.
    Keys,
}

/// The name of the last part, and whether the line before the parts over its keys came, so far.
#[derive(Drop)]
pub struct GrowthState {
    pub(crate) window: Option<PartName>,
    pub(crate) keys: bool,
}

// ---- parts of a tree

/// Decodes the digest after the mark. `None` if the line is anything else.
#[tactic(auto, unfolding(cadf_evidence::specs::Marked::digest_after, cadf_evidence::specs::Marked::rest_after))]
fn digest_after(mark: &[u8], line: &[u8]) -> Option<[u8; 32]>
    ensures { result ≡ digest_after mark.now line.now }
{
    digest_of(line.strip_prefix(mark)?)
}

/// Decodes the line of a leaf. `None` if it is no such line.
#[tactic(auto, unfolding(cadf_evidence::specs::ProofVerdict::leaf_in))]
fn leaf_in(line: &[u8]) -> Option<Part>
    ensures { result ≡ leaf_in line.now }
{
    if let Some(digest) = digest_after(b"P ", line) {
        return Some(Part::Leaf(Kind::Both, digest));
    }
    if let Some(digest) = digest_after(b"A ", line) {
        return Some(Part::Leaf(Kind::Added, digest));
    }
    let digest = digest_after(b"G ", line)?;
    Some(Part::Leaf(Kind::Gone, digest))
}

/// Decodes the line of a part. `None` if it is no such line.
#[tactic(auto, unfolding(cadf_evidence::specs::ProofVerdict::part_in))]
fn part_in(line: &[u8]) -> Option<Part>
    ensures { result ≡ part_in line.now }
{
    if line == b"N".as_slice() {
        return Some(Part::Node);
    }
    if let Some(hash) = digest_after(b"H ", line) {
        return Some(Part::Hash(hash));
    }
    leaf_in(line)
}

/// Makes the line of a digest.
pub(crate) fn digest_line(alloc: Global, mark: &[u8], digest: &[u8; 32]) -> Result<Vec<u8>, Memory>
    ensures { IfOk result (λ line. line.items ≡ digest_line mark.now digest.now) }
{
    let mut line = Vec::from_slice(alloc, mark)?;
    line.extend_from_slice(hex::encode(alloc, digest)?.as_bytes())?;
    Ok(line)
}

/// Returns what the line of a leaf begins with.
fn leaf_mark<'a>(kind: &Kind) -> &'a [u8]
    ensures { result.now ≡ leaf_mark kind.now }
{
    match kind {
        Kind::Both => b"P ",
        Kind::Added => b"A ",
        Kind::Gone => b"G ",
    }
}

/// Makes the line of a part.
fn part_line(alloc: Global, part: &Part) -> Result<Vec<u8>, Memory>
    ensures { IfOk result (λ line. line.items ≡ part_line part.now) }
{
    match part {
        Part::Node => Ok(Vec::from_slice(alloc, b"N")?),
        Part::Hash(hash) => digest_line(alloc, b"H ", hash),
        Part::Leaf(kind, digest) => digest_line(alloc, leaf_mark(kind), digest),
    }
}

// ---- lines

/// Decodes the name of the line of a part of the site. `None` if the line is anything else.
fn window_in(alloc: Global, unit: Unit, line: &[u8]) -> Result<Option<GrowthItem>, Memory>
    ensures { IfOk result (λ i. i ≡ window_in unit line.now) }
{
    match line {
        [b'W', b' ', text @ ..] if is_part(unit, text) => {
            Ok(Some(GrowthItem::Window(PartName::of(alloc, text)?)))
        }
        _ => Ok(None),
    }
}

/// Decodes the line of a part of a tree, or the one before those of the keys. `None` if it is neither.
fn tree_item_in(line: &[u8]) -> Option<GrowthItem>
    ensures { result ≡ tree_item_in line.now }
{
    if line == b"K".as_slice() {
        return Some(GrowthItem::Keys);
    }
    let part = part_in(line)?;
    Some(GrowthItem::Tree(part))
}

/// Decodes the item of a line. `None` if the line is anything else.
pub(crate) fn item_in(alloc: Global, unit: Unit, line: &[u8]) -> Result<Option<GrowthItem>, Memory>
    ensures { IfOk result (λ i. i ≡ item_in unit line.now) }
{
    match window_in(alloc, unit, line)? {
        Some(item) => Ok(Some(item)),
        None => Ok(tree_item_in(line)),
    }
}

/// Makes the line of an item.
pub(crate) fn item_line(alloc: Global, item: &GrowthItem) -> Result<Vec<u8>, Memory>
    ensures { IfOk result (λ line. line.items ≡ item_line item.now) }
{
    match item {
        GrowthItem::Window(name) => {
            let mut line = Vec::from_slice(alloc, b"W ")?;
            line.extend_from_slice(name.as_bytes())?;
            Ok(line)
        }
        GrowthItem::Tree(part) => part_line(alloc, part),
        GrowthItem::Keys => Ok(Vec::from_slice(alloc, b"K")?),
    }
}

// ---- what may follow

/// Returns no cause, if the line may be there.
fn shape_unless(ok: bool) -> Option<Cause>
    ensures { result ≡ shape_unless ok }
{
    if ok { None } else { Some(Cause::Shape) }
}

/// Returns what is wrong with the item after those before it.
pub(crate) fn cause_of(state: &GrowthState, item: &GrowthItem) -> Option<Cause>
    ensures { result ≡ cause state.now item.now }
{
    match item {
        GrowthItem::Window(name) => order_unless(name.is_after(&state.window)),
        GrowthItem::Tree(_) => shape_unless(state.window.is_some()),
        GrowthItem::Keys => shape_unless(state.window.is_some() && !state.keys),
    }
}

/// Notes a further item.
pub(crate) fn note(alloc: Global, state: &mut GrowthState, item: &GrowthItem) -> Result<(), Memory>
    ensures { OnOk result (state.new ≡ next state.old item.now) }
{
    match item {
        GrowthItem::Window(name) => {
            *state = GrowthState {
                window: Some(name.copy(alloc)?),
                keys: false,
            };
        }
        GrowthItem::Tree(_) => {}
        GrowthItem::Keys => state.keys = true,
    }
    Ok(())
}
