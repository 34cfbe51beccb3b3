//! A reader of scripts: to the end, or to the first line that is no turn.
ghost use Rattle.std.specs.Prelude.{IfOk, IfErr};
ghost use Rattle.cadf_script.specs.Script.{IsScript, IsScriptFault};

use crate::line::{place_of, read_turn};
use cadf_event::Memory;
use cadf_rehearsal::Turn;
use std::alloc::Global;
use thiserror::Error;

/// Why a script is refused.
#[derive(Clone, Copy, Debug, Drop, PartialEq, Eq, Error)]
pub enum ScriptFault {
    /// The line of that number, from 1, is the first that is no turn.
    #[error("line {0}: script")]
    Line(usize),
    /// An allocation failed.
    #[error("out of memory")]
    Memory,
}

impl From<Memory> for ScriptFault {
    ghost use Rattle.std.specs.Prelude.{◌≡◌};
    ghost use Rattle.cadf_script.specs.declared.script.ScriptFault.TheVariants.{Memory as OutOfMemory};

    ghost from_gives = { λ e f. f ≡ OutOfMemory };

    fn from(_refused: Memory) -> Self {
        ScriptFault::Memory
    }
}

/// Reads the turns of the bytes, a line each. The last line needs no line feed. `Line`: the first line that is no turn.
pub fn read_script(alloc: Global, bytes: &[u8]) -> Result<Vec<Turn>, ScriptFault>
    ensures ok { IfOk result (λ turns. IsScript bytes.now turns.items) }
    ensures err { IfErr result (IsScriptFault bytes.now) }
{
    let mut turns = Vec::new(alloc);
    let mut start = 0;
    'lines: while start < bytes.len() {
        let rest = &bytes[start..];
        let count = place_of(b'\n', rest);
        let Some(turn) = read_turn(alloc, &rest[..count])? else {
            return Err(ScriptFault::Line(turns.len() + 1));
        };
        if turns.push(turn).is_err() {
            return Err(ScriptFault::Memory);
        }
        start += count + 1;
    }
    Ok(turns)
}
