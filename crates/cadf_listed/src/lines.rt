//! The file of a list.
ghost use Rattle.std.specs.Prelude.{◌≡◌, IfOk, IfErr, OnOk, refl, map, option_map, unwrap_or, []};
ghost use Rattle.std.specs.Option.{option_copied};
ghost use Rattle.cadf_join.specs.Sets.{rising};
ghost use Rattle.cadf_inventory.specs.InventoryVerdict.{is_above_digest};
ghost use Rattle.cadf_linefile.specs.Answers.{CauseIs};
ghost use Rattle.cadf_listed.specs.ListFile.{AreRisingNames, IsListed, is_mark, mark_letter, name_line};
ghost use Rattle.cadf_listed.specs.ListVerdict.{IsPut, list_cause, list_kind, name_in};

use crate::kind::ListKind;
use crate::listed::{FACT, KEY, Listed, name_of};
use cadf_event::Name;
use cadf_inventory::digest_of;
use cadf_json::Memory;
use cadf_linefile::{Cause, LineFault, ModelFile};
use std::alloc::Global;
use std::marker::PhantomData;

/// Returns whether the byte is a mark.
fn is_mark(byte: u8) -> bool
    ensures { result ≡ is_mark byte }
{
    byte == FACT || byte == KEY
}

/// Returns the mark, as a letter.
fn mark_letter(mark: u8) -> u8
    ensures { result ≡ mark_letter mark }
{
    if mark == KEY { KEY } else { FACT }
}

/// Decodes the name of a line: its mark, a space, and its digest. `None` if the line is anything else.
fn name_in(line: &[u8]) -> Option<[u8; 33]>
    ensures { result ≡ name_in line.now }
{
    match line {
        [mark, b' ', text @ ..] if is_mark(*mark) => Some(name_of(*mark, &digest_of(text)?)),
        _ => None,
    }
}

/// Makes the line of a name.
fn name_line(alloc: Global, name: &[u8; 33]) -> Result<Vec<u8>, Memory>
    ensures { IfOk result (λ line. line.items ≡ name_line name.now) }
{
    let mut line = Vec::from_slice(alloc, &[mark_letter(name[0]), b' '])?;
    line.extend_from_slice(hex::encode(alloc, &name[1..])?.as_bytes())?;
    Ok(line)
}

/// Returns whether the name is greater than the last one, if there is one.
fn is_above(last: Option<&[u8; 33]>, name: &[u8; 33]) -> bool
    ensures { result ≡ is_above_digest name.now (option_copied last.entry) }
{
    match last {
        None => true,
        Some(last) => last.cmp(name).is_lt(),
    }
}

/// Appends the name of a line. `Err` if it is no such line, or its name isn't greater than the last one.
fn put_name(names: &mut Vec<[u8; 33]>, line: &[u8]) -> Result<(), LineFault>
    ensures ok { OnOk result (IsPut names.old.items line.now names.new.items) }
    ensures err { IfErr result (λ e. CauseIs e (list_cause names.old.items line.now)) }
{
    let Some(name) = name_in(line) else {
        return Err(LineFault::Here(Cause::Shape));
    };
    if !is_above(names.last(), &name) {
        return Err(LineFault::Here(Cause::Order));
    }
    names.push(name)?;
    Ok(())
}

impl<K: ListKind> ModelFile for Listed<K> {
    ghost kind = { list_kind K.header };

    ghost holds = { IsListed };

    ghost log = { λ l. l.log };

    ghost lines = { λ l. map name_line (rising l.names) };

    ghost body = { λ _. refl };

    type Told = Option<Vec<[u8; 33]>>;

    ghost told_lines = { λ names. map name_line (unwrap_or (option_map (λ v. v.items) names) []) };

    ghost sound = { λ names. AreRisingNames (unwrap_or (option_map (λ v. v.items) names) []) };

    fn accepted() {}

    fn first_line() -> &'static str {
        K::first_line()
    }

    fn nothing() -> Option<Vec<[u8; 33]>> {
        None
    }

    fn put_line(
        alloc: Global,
        told: &mut Option<Vec<[u8; 33]>>,
        line: &[u8],
    ) -> Result<(), LineFault> {
        match told {
            None => {
                let mut names = Vec::new(alloc);
                put_name(&mut names, line)?;
                *told = Some(names);
                Ok(())
            }
            Some(names) => put_name(names, line),
        }
    }

    fn is_whole(_told: &Option<Vec<[u8; 33]>>) -> bool {
        true
    }

    fn of_lines(name: Name, told: Option<Vec<[u8; 33]>>) -> Listed<K> {
        Listed {
            log: name,
            names: told,
            kind: PhantomData,
        }
    }

    fn log_name(&self) -> &Name {
        self.log()
    }

    fn line_count(&self) -> usize {
        self.names().len()
    }

    fn line_at(&self, alloc: Global, place: usize) -> Result<Vec<u8>, Memory> {
        name_line(alloc, &self.names()[place])
    }
}
