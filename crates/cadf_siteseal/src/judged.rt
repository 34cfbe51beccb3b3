//! How a sealed site came of an earlier one, to a reader with both seals and a proof.
ghost use Rattle.std.specs.Prelude.{◌≡◌, ◌++◌, ◌∷◌, Ok, IfOk, IfErr, OnOk, drop, option_map};
ghost use Rattle.std.specs.List.{flat_map};
ghost use Rattle.cadf_evidence.specs.Growth.{growth_text};
ghost use Rattle.cadf_event.specs.Known.{IsNameText};
ghost use Rattle.cadf_siteseal.specs.SiteGrown.{is_unit, input_fault, head_fault, kept_fault, earlier_name, least, is_allowed, name_if, went_name, lacking_name, spare_name, lacking_fault, shown_fault, gone_fault, needed_fault, first_fault, window_text, item_text, grown_text, new_line, went_text, went_line, site_grown, SiteFaultIs};
ghost use Rattle.cadf_siteseal.specs.SiteParts.{IsPartProof};

use crate::growth_items::GrowthItem;
use crate::part_name::{PartName, is_window};
use crate::seal_items::SealItem;
use crate::site_fault::{SiteFault, named_fault};
use crate::site_growth::SiteGrowth;
use crate::site_parts::{
    gone_roots, has_proof, held_roots, held_seal, is_unchanged, last_roots, last_seal, part_proof,
};
use crate::site_seal::SiteSeal;
use cadf_event::Name;
use cadf_evidence::grown;
use cadf_json::Memory;
use cadf_listed::{Erased, Listed};
use cadf_split::Unit;
use cadf_tree::Root;
use std::alloc::Global;

// ---- one log, and one unit

/// Returns whether two units are one.
fn is_unit(one: Unit, other: Unit) -> bool
    ensures { result ≡ is_unit one other }
{
    match (one, other) {
        (Unit::Month, Unit::Month) => true,
        (Unit::Day, Unit::Day) => true,
        (Unit::Hour, Unit::Hour) => true,
        _ => false,
    }
}

/// Returns why the input of that number is not of this log and this unit.
fn input_fault(
    input: u64,
    log: &Name,
    unit: Unit,
    other_log: &Name,
    other_unit: Unit,
) -> Option<SiteFault>
    ensures { result ≡ input_fault input log.now unit other_log.now other_unit }
{
    if other_log.as_str() != log.as_str() {
        return Some(SiteFault::OtherLog(input));
    }
    if is_unit(other_unit, unit) {
        None
    } else {
        Some(SiteFault::OtherUnit(input))
    }
}

/// Returns what is of another log or of another unit than the earlier seal.
fn head_fault(earlier: &SiteSeal, later: &SiteSeal, growth: &SiteGrowth) -> Option<SiteFault>
    ensures { result ≡ head_fault earlier.now later.now growth.now }
{
    let log = earlier.log();
    let unit = earlier.unit();
    match input_fault(2, log, unit, later.log(), later.unit()) {
        Some(fault) => Some(fault),
        None => input_fault(3, log, unit, growth.log(), growth.unit()),
    }
}

/// Returns the fault that the first window that is kept is none of the unit.
fn kept_fault(unit: Unit, kept: Option<&PartName>) -> Option<SiteFault>
    ensures { result ≡ kept_fault unit (option_map (λ n. n.now) kept.entry) }
{
    match kept {
        Some(kept) if !is_window(unit, kept.as_bytes()) => Some(SiteFault::OtherWindow),
        _ => None,
    }
}

// ---- the first name in order

/// Returns the name that comes before the other one.
fn earlier_name(one: Option<PartName>, other: Option<PartName>) -> Option<PartName>
    ensures { result ≡ earlier_name one other }
{
    match (one, other) {
        (None, other) => other,
        (Some(one), None) => Some(one),
        (Some(one), Some(other)) => {
            if other.comes_before(&one) {
                Some(other)
            } else {
                Some(one)
            }
        }
    }
}

/// Copies the name, if that is asked for.
fn name_if(alloc: Global, asked: bool, name: &PartName) -> Result<Option<PartName>, Memory>
    ensures { IfOk result (λ o. o ≡ name_if asked name.now) }
{
    if asked {
        Ok(Some(name.copy(alloc)?))
    } else {
        Ok(None)
    }
}

// ---- windows that went

/// Returns whether the part comes before the first window that is kept.
fn is_allowed(kept: Option<&PartName>, name: &PartName) -> bool
    ensures { result ≡ is_allowed (option_map (λ n. n.now) kept.entry) name.now }
{
    match kept {
        None => false,
        Some(kept) => name.comes_before(kept),
    }
}

/// Returns the name of the earlier seal's item, if it went and may not be gone.
fn went_name(
    alloc: Global,
    kept: Option<&PartName>,
    old: &[SealItem],
    new: &[SealItem],
    item: &SealItem,
) -> Result<Option<PartName>, Memory>
    ensures { IfOk result (λ o. o ≡ went_name (option_map (λ n. n.now) kept.entry) old.now new.now item.now) }
{
    match item {
        SealItem::Floor(_) => Ok(None),
        SealItem::Gone(part) => {
            let here = held_roots(&part.name, old).is_none();
            let later = held_roots(&part.name, new).is_none();
            let roots = Some((part.facts, part.keys));
            let other = !is_unchanged(roots, gone_roots(&part.name, new));
            name_if(alloc, here && (later && other), &part.name)
        }
        SealItem::Held(part) => {
            let later = held_roots(&part.name, new).is_none();
            let went = gone_roots(&part.name, new).is_some();
            let kept = !is_allowed(kept, &part.name);
            name_if(alloc, later && (went && kept), &part.name)
        }
    }
}

/// Returns the first window, in order, that went and may not be gone.
fn gone_name(
    alloc: Global,
    kept: Option<&PartName>,
    old: &[SealItem],
    new: &[SealItem],
) -> Result<Option<PartName>, Memory>
    ensures { IfOk result (λ o. o ≡ least (went_name (option_map (λ n. n.now) kept.entry) old.now new.now) old.now) }
{
    let mut found = None;
    for item in old {
        let name = went_name(alloc, kept, old, new, item)?;
        found = earlier_name(found, name);
    }
    Ok(found)
}

// ---- parts with a proof

/// Returns the name of the earlier seal's item, if it changed and has no proof.
fn lacking_name(
    alloc: Global,
    new: &[SealItem],
    growth: &[GrowthItem],
    item: &SealItem,
) -> Result<Option<PartName>, Memory>
    ensures { IfOk result (λ o. o ≡ lacking_name new.now growth.now item.now) }
{
    match item {
        SealItem::Held(part) => {
            let roots = Some((part.facts, part.keys));
            let other = !is_unchanged(roots, last_roots(&part.name, new));
            let none = !has_proof(&part.name, growth);
            name_if(alloc, other && none, &part.name)
        }
        _ => Ok(None),
    }
}

/// Returns the first part, in order, that changed and has no proof.
fn first_lacking(
    alloc: Global,
    old: &[SealItem],
    new: &[SealItem],
    growth: &[GrowthItem],
) -> Result<Option<PartName>, Memory>
    ensures { IfOk result (λ o. o ≡ least (lacking_name new.now growth.now) old.now) }
{
    let mut found = None;
    for item in old {
        let name = lacking_name(alloc, new, growth, item)?;
        found = earlier_name(found, name);
    }
    Ok(found)
}

/// Returns the name of the item's part, if it needs no proof.
fn spare_name(
    alloc: Global,
    old: &[SealItem],
    new: &[SealItem],
    item: &GrowthItem,
) -> Result<Option<PartName>, Memory>
    ensures { IfOk result (λ o. o ≡ spare_name old.now new.now item.now) }
{
    match item {
        GrowthItem::Window(name) => {
            let same = is_unchanged(held_roots(name, old), last_roots(name, new));
            name_if(alloc, same, name)
        }
        _ => Ok(None),
    }
}

/// Returns the first part, in order, that has a proof and needs none.
fn first_spare(
    alloc: Global,
    old: &[SealItem],
    new: &[SealItem],
    growth: &[GrowthItem],
) -> Result<Option<PartName>, Memory>
    ensures { IfOk result (λ o. o ≡ least (spare_name old.now new.now) growth.now) }
{
    let mut found = None;
    for item in growth {
        let name = spare_name(alloc, old, new, item)?;
        found = earlier_name(found, name);
    }
    Ok(found)
}

/// Returns the fault of a part without a proof: gone, if the later seal has nothing of it.
fn lacking_fault(new: &[SealItem], name: PartName) -> SiteFault
    ensures { result ≡ lacking_fault new.now name }
{
    if last_roots(&name, new).is_some() {
        SiteFault::NotShown(name)
    } else {
        SiteFault::Gone(name)
    }
}

/// Returns the fault of the first of a part that lacks its proof and one that needs none.
fn shown_fault(
    new: &[SealItem],
    lacking: Option<PartName>,
    spare: Option<PartName>,
) -> Option<SiteFault>
    ensures { result ≡ shown_fault new.now lacking spare }
{
    match (lacking, spare) {
        (None, None) => None,
        (None, Some(spare)) => Some(SiteFault::NotNeeded(spare)),
        (Some(lacking), None) => Some(lacking_fault(new, lacking)),
        (Some(lacking), Some(spare)) => {
            if spare.comes_before(&lacking) {
                Some(SiteFault::NotNeeded(spare))
            } else {
                Some(lacking_fault(new, lacking))
            }
        }
    }
}

/// Returns why the parts with a proof aren't those that need one.
fn needed_fault(
    alloc: Global,
    earlier: &SiteSeal,
    later: &SiteSeal,
    growth: &SiteGrowth,
) -> Result<Option<SiteFault>, Memory>
    ensures { IfOk result (λ o. o ≡ needed_fault earlier.now later.now growth.now) }
{
    let lacking = first_lacking(alloc, earlier.items(), later.items(), growth.items())?;
    let spare = first_spare(alloc, earlier.items(), later.items(), growth.items())?;
    Ok(shown_fault(later.items(), lacking, spare))
}

/// Returns the first fault but those of the proofs.
fn first_fault(
    alloc: Global,
    earlier: &SiteSeal,
    later: &SiteSeal,
    growth: &SiteGrowth,
    kept: Option<&PartName>,
) -> Result<Option<SiteFault>, Memory>
    ensures { IfOk result (λ o. o ≡ first_fault earlier.now later.now growth.now (option_map (λ n. n.now) kept.entry)) }
{
    if let Some(fault) = head_fault(earlier, later, growth) {
        return Ok(Some(fault));
    }
    if let Some(fault) = kept_fault(earlier.unit(), kept) {
        return Ok(Some(fault));
    }
    if let Some(name) = gone_name(alloc, kept, earlier.items(), later.items())? {
        return Ok(Some(SiteFault::Gone(name)));
    }
    needed_fault(alloc, earlier, later, growth)
}

// ---- what the proofs say

/// Makes the line of a part: its name, and what its proof says.
fn named_line(alloc: Global, name: &PartName, text: &[u8]) -> Result<Vec<u8>, Memory>
    ensures { IfOk result (λ line. line.items ≡ name.now ++ 58 ∷ 32 ∷ text.now) }
{
    let mut line = Vec::from_slice(alloc, name.as_bytes())?;
    line.extend_from_slice(b": ")?;
    line.extend_from_slice(text)?;
    Ok(line)
}

/// Judges the proof of the items from that place on and before the next part. Returns what it says, under both seals of the
/// part.
fn window_text(
    alloc: Global,
    earlier: &SiteSeal,
    later: &SiteSeal,
    list: Option<&Listed<Erased>>,
    name: &PartName,
    items: &[GrowthItem],
    from: usize,
) -> Result<Vec<u8>, SiteFault>
    requires { IsPartProof (drop from items.now) }
    ensures ok { IfOk result (λ text. window_text earlier.now later.now (option_map (λ l. l.now) list.entry) name.now (drop from items.now) ≡ Ok text.items) }
    ensures err { IfErr result (λ e. SiteFaultIs e (window_text earlier.now later.now (option_map (λ l. l.now) list.entry) name.now (drop from items.now))) }
{
    let log = earlier.log();
    let old = held_seal(alloc, log, earlier, name)?;
    let new = last_seal(alloc, log, later, name)?;
    let proof = part_proof(alloc, log, items, from)?;
    match grown(alloc, &old, &new, &proof, list) {
        Ok(text) => Ok(named_line(alloc, name, text.as_slice())?),
        Err(fault) => Err(named_fault(name.copy(alloc)?, fault)),
    }
}

/// Judges the proof of the item at that place, if it is the line of a part. Returns what it says.
fn item_text(
    alloc: Global,
    earlier: &SiteSeal,
    later: &SiteSeal,
    list: Option<&Listed<Erased>>,
    items: &[GrowthItem],
    item: &GrowthItem,
    from: usize,
) -> Result<Vec<u8>, SiteFault>
    requires { IsPartProof (drop from items.now) }
    ensures ok { IfOk result (λ text. item_text earlier.now later.now (option_map (λ l. l.now) list.entry) item.now (drop from items.now) ≡ Ok text.items) }
    ensures err { IfErr result (λ e. SiteFaultIs e (item_text earlier.now later.now (option_map (λ l. l.now) list.entry) item.now (drop from items.now))) }
{
    match item {
        GrowthItem::Window(name) => { window_text(alloc, earlier, later, list, name, items, from) }
        _ => Ok(Vec::new(alloc)),
    }
}

/// Judges the proofs of all parts. Returns what they say.
fn grown_text(
    alloc: Global,
    earlier: &SiteSeal,
    later: &SiteSeal,
    growth: &SiteGrowth,
    list: Option<&Listed<Erased>>,
) -> Result<Vec<u8>, SiteFault>
    ensures ok { IfOk result (λ text. grown_text earlier.now later.now (option_map (λ l. l.now) list.entry) growth.now.items ≡ Ok text.items) }
    ensures err { IfErr result (λ e. SiteFaultIs e (grown_text earlier.now later.now (option_map (λ l. l.now) list.entry) growth.now.items)) }
{
    growth.type_invariant();
    let items = growth.items();
    let mut text = Vec::new(alloc);
    for index in 0..items.len() {
        let part = item_text(alloc, earlier, later, list, items, &items[index], index + 1)?;
        text.extend_from_slice(part.as_slice())?;
    }
    Ok(text)
}

// ---- parts without a proof

/// Makes the line of a part of which the earlier seal has nothing. Empty for any other item of the later seal.
fn new_line(
    alloc: Global,
    old: &[SealItem],
    list: Option<&Listed<Erased>>,
    item: &SealItem,
) -> Result<Vec<u8>, Memory>
    ensures { IfOk result (λ line. line.items ≡ new_line old.now (option_map (λ l. l.now) list.entry) item.now) }
{
    match item {
        SealItem::Held(part) if last_roots(&part.name, old).is_none() => {
            let text = added_text(alloc, list, part.facts.count)?;
            named_line(alloc, &part.name, text.as_slice())
        }
        _ => Ok(Vec::new(alloc)),
    }
}

/// Makes the text that so many facts were added, and, with a list, that none was erased.
fn added_text(alloc: Global, list: Option<&Listed<Erased>>, added: u64) -> Result<Vec<u8>, Memory>
    ensures { IfOk result (λ text. text.items ≡ growth_text (option_map (λ l. l.now) list.entry) (record { added = added; gone = 0 })) }
{
    let gone = 0u64;
    let text = match list {
        None => format!(in alloc; "added {added}\n")?,
        Some(_) => format!(in alloc; "added {added}, erased {gone}\n")?,
    };
    Ok(text.into_bytes())
}

/// Makes the line of a window that went, of so many facts. Empty if there are no roots.
fn went_text(alloc: Global, name: &PartName, roots: Option<(Root, Root)>) -> Result<Vec<u8>, Memory>
    ensures { IfOk result (λ text. text.items ≡ went_text name.now roots) }
{
    let mut text = Vec::new(alloc);
    if let Some((facts, _)) = roots {
        text.extend_from_slice(name.as_bytes())?;
        text.extend_from_slice(b": gone, of ")?;
        text.extend_from_slice(itoa::Buffer::new().format(facts.count).as_bytes())?;
        text.extend_from_slice(b" facts\n")?;
    }
    Ok(text)
}

/// Makes the line of a window that went. Empty for any other item of the earlier seal.
fn went_line(alloc: Global, new: &[SealItem], item: &SealItem) -> Result<Vec<u8>, Memory>
    ensures { IfOk result (λ line. line.items ≡ went_line new.now item.now) }
{
    match item {
        SealItem::Held(part) if held_roots(&part.name, new).is_none() => {
            went_text(alloc, &part.name, gone_roots(&part.name, new))
        }
        _ => Ok(Vec::new(alloc)),
    }
}

/// Appends the lines of the parts of which the earlier seal has nothing.
fn push_new(
    alloc: Global,
    text: &mut Vec<u8>,
    old: &[SealItem],
    new: &[SealItem],
    list: Option<&Listed<Erased>>,
) -> Result<(), Memory>
    ensures { OnOk result (text.new.items ≡ text.old.items ++ flat_map (new_line old.now (option_map (λ l. l.now) list.entry)) new.now) }
{
    for item in new {
        let line = new_line(alloc, old, list, item)?;
        text.extend_from_slice(line.as_slice())?;
    }
    Ok(())
}

/// Appends the lines of the windows that went.
fn push_went(
    alloc: Global,
    text: &mut Vec<u8>,
    old: &[SealItem],
    new: &[SealItem],
) -> Result<(), Memory>
    ensures { OnOk result (text.new.items ≡ text.old.items ++ flat_map (went_line new.now) old.now) }
{
    for item in old {
        let line = went_line(alloc, new, item)?;
        text.extend_from_slice(line.as_slice())?;
    }
    Ok(())
}

/// Judges, by a proof under two site seals, how the later site came of the earlier one: that no part is gone, but windows
/// before the first one that is kept, which went as they were sealed; that each part that changed has a proof, and no other;
/// and each proof, under both seals of its part; with a list, of what was erased. Returns a line of text for each proof, for each
/// part that is new, and for each window that went: its name, and how many facts. `Err`: the first fault. The time grows with
/// the square of the numbers of parts.
pub fn site_grown(
    alloc: Global,
    earlier: &SiteSeal,
    later: &SiteSeal,
    growth: &SiteGrowth,
    kept: Option<&PartName>,
    list: Option<&Listed<Erased>>,
) -> Result<Vec<u8>, SiteFault>
    ensures ok { IfOk result (λ text. site_grown earlier.now later.now growth.now (option_map (λ n. n.now) kept.entry) (option_map (λ l. l.now) list.entry) ≡ Ok text.items) }
    ensures err { IfErr result (λ e. SiteFaultIs e (site_grown earlier.now later.now growth.now (option_map (λ n. n.now) kept.entry) (option_map (λ l. l.now) list.entry))) }
{
    if let Some(fault) = first_fault(alloc, earlier, later, growth, kept)? {
        return Err(fault);
    }
    let mut text = grown_text(alloc, earlier, later, growth, list)?;
    push_new(alloc, &mut text, earlier.items(), later.items(), list)?;
    push_went(alloc, &mut text, earlier.items(), later.items())?;
    Ok(text)
}
