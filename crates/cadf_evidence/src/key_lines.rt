//! The file of a list of keys.
ghost use Rattle.std.specs.Prelude.{◌≡◌, IfOk, IfErr, OnOk, refl, map, option_map, unwrap_or, []};
ghost use Rattle.std.specs.Option.{option_copied};
ghost use Rattle.cadf_inventory.specs.InventoryVerdict.{is_above_digest};
ghost use Rattle.cadf_line.specs.AtomLine.{line as line_of};
ghost use Rattle.cadf_linefile.specs.Answers.{CauseIs};
ghost use Rattle.cadf_evidence.specs.KeyList.{AreRisingKeys, IsKeyList};
ghost use Rattle.cadf_evidence.specs.KeyVerdict.{IsPutKey, key_cause, keys_kind};

use crate::key_list::{Key, KeyList};
use cadf_event::Name;
use cadf_json::Memory;
use cadf_linefile::{Cause, LineFault, ModelFile};
use std::alloc::Global;

/// Returns whether the line is greater than that of the last key, if there is one. `Memory` if an allocation fails.
fn is_above(alloc: Global, last: Option<&Key>, line: &[u8]) -> Result<bool, Memory>
    ensures { IfOk result (λ above. above ≡ is_above_digest line.now (option_map line_of (option_copied last.entry))) }
{
    match last {
        None => Ok(true),
        Some(last) => {
            let before = last.line(alloc)?;
            Ok(before.as_slice().cmp(line).is_lt())
        }
    }
}

/// Appends the key of a line. `Err` if it is no such line, or isn't greater than the last one.
fn put_key(alloc: Global, keys: &mut Vec<Key>, line: &[u8]) -> Result<(), LineFault>
    ensures ok { OnOk result (IsPutKey keys.old.items line.now keys.new.items) }
    ensures err { IfErr result (λ e. CauseIs e (key_cause (map line_of keys.old.items) line.now)) }
{
    let Some(key) = Key::of_line(alloc, line)? else {
        return Err(LineFault::Here(Cause::Shape));
    };
    if !is_above(alloc, keys.last(), line)? {
        return Err(LineFault::Here(Cause::Order));
    }
    keys.push(key)?;
    Ok(())
}

impl ModelFile for KeyList {
    ghost kind = { keys_kind };

    ghost holds = { IsKeyList };

    ghost log = { λ l. l.log };

    ghost lines = { λ l. map line_of l.keys };

    ghost body = { λ _. refl };

    type Told = Option<Vec<Key>>;

    ghost told_lines = { λ keys. map line_of (unwrap_or (option_map (λ v. v.items) keys) []) };

    ghost sound = { λ keys. AreRisingKeys (unwrap_or (option_map (λ v. v.items) keys) []) };

    fn accepted() {}

    fn first_line() -> &'static str {
        "CADF-KEYS 1"
    }

    fn nothing() -> Option<Vec<Key>> {
        None
    }

    fn put_line(alloc: Global, told: &mut Option<Vec<Key>>, line: &[u8]) -> Result<(), LineFault> {
        match told {
            None => {
                let mut keys = Vec::new(alloc);
                put_key(alloc, &mut keys, line)?;
                *told = Some(keys);
                Ok(())
            }
            Some(keys) => put_key(alloc, keys, line),
        }
    }

    fn is_whole(_told: &Option<Vec<Key>>) -> bool {
        true
    }

    fn of_lines(name: Name, told: Option<Vec<Key>>) -> KeyList {
        KeyList {
            log: name,
            keys: told,
        }
    }

    fn log_name(&self) -> &Name {
        self.log()
    }

    fn line_count(&self) -> usize {
        self.len()
    }

    fn line_at(&self, alloc: Global, place: usize) -> Result<Vec<u8>, Memory> {
        self.keys()[place].line(alloc)
    }
}
