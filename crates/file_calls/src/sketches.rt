//! Sketches, their files, and what is read from them.

use crate::inventories::{inventory_of, shown as inventory_shown};
use crate::reads::Reading;
use crate::replicas::{replica_of, shown as replica_shown};
use crate::streams::{sink_of, written};
use cadf_file::FileFault;
use cadf_json::Memory;
use cadf_linefile::{read_model, write_model};
use cadf_sketch::{Cell, Cells, Salt, Sketch, missing_by_sketch};
use calls::{Call, answer, push, push_number, refused};
use std::alloc::Global;

/// Adds the digits of the cell's digest and of its check, as a field.
fn push_cell(alloc: Global, line: &mut String, cell: &Cell) -> Result<(), Memory> {
    let mut digits = hex::encode(alloc, &cell.digest)?;
    digits.push_str(hex::encode(alloc, &cell.check.to_be_bytes())?.as_str())?;
    push(line, digits.as_str())
}

/// Adds each cell.
fn push_cells(alloc: Global, line: &mut String, cells: &[Cell]) -> Result<(), Memory> {
    for cell in cells {
        push_cell(alloc, line, cell)?;
    }
    Ok(())
}

/// Adds each number.
fn push_numbers(alloc: Global, line: &mut String, numbers: &[u64]) -> Result<(), Memory> {
    for number in numbers {
        push_number(alloc, line, i128::from(*number))?;
    }
    Ok(())
}

/// Answers `ok` with the sketch's log, its number of cells, its salt, its digest, its counts and its cells.
fn shown(alloc: Global, sketch: &Sketch) -> Result<String, Memory> {
    let (layout, tally) = (sketch.layout(), sketch.tally());
    let mut line = answer(alloc, "ok", &[sketch.log().as_str()])?;
    push_numbers(alloc, &mut line, &[layout.cells() as u64, layout.salt()])?;
    push(&mut line, hex::encode(alloc, sketch.digest())?.as_str())?;
    push_numbers(alloc, &mut line, &[tally.digests])?;
    push_numbers(alloc, &mut line, tally.ones.as_slice())?;
    push_cells(alloc, &mut line, sketch.cells())?;
    Ok(line)
}

/// Reads the call's fourth word as a sketch file.
fn sketch_in(alloc: Global, call: &Call) -> Result<Sketch, FileFault> {
    let reading = Reading::of(call);
    read_model(alloc, &mut reading.source(call.bytes(4)), reading.limit)
}

/// Answers `read_sketch`: a reading and a file.
pub(crate) fn read(alloc: Global, call: &Call) -> Result<String, Memory> {
    match sketch_in(alloc, call) {
        Ok(sketch) => shown(alloc, &sketch),
        Err(fault) => refused(alloc, &fault),
    }
}

/// Answers `write_sketch`: a writer, a number of cells, a salt, a log and digests. A number that can't be a salt means
/// that none is given.
pub(crate) fn write(alloc: Global, call: &Call) -> Result<String, Memory> {
    let Some(cells) = Cells::of(call.number(4) as u64) else {
        return answer(alloc, "no cells", &[]);
    };
    let Some(inventory) = inventory_of(alloc, call, 6) else {
        return answer(alloc, "no inventory", &[]);
    };
    let salt = Salt::of(call.number(5) as u64);
    let sketch = Sketch::of(alloc, &inventory, cells, salt)?;
    let mut sink = sink_of(alloc, call, 1);
    let done = write_model(alloc, &sketch, &mut sink);
    written(alloc, done, &sink)
}

/// Answers `read_by`: a reading and a sketch's file, a log and digests.
pub(crate) fn read_by(alloc: Global, call: &Call) -> Result<String, Memory> {
    let (Ok(sketch), Some(own)) = (sketch_in(alloc, call), inventory_of(alloc, call, 5)) else {
        return answer(alloc, "no sketch", &[]);
    };
    match cadf_sketch::read(alloc, own, &sketch) {
        Ok(theirs) => inventory_shown(alloc, &theirs),
        Err(fault) => refused(alloc, &fault),
    }
}

/// Answers `missing_by_sketch`: a reading and a sketch's file, a log and the lines of atoms.
pub(crate) fn missing(alloc: Global, call: &Call) -> Result<String, Memory> {
    let (Ok(sketch), Some(own)) = (sketch_in(alloc, call), replica_of(alloc, call, 5)) else {
        return answer(alloc, "no sketch", &[]);
    };
    match missing_by_sketch(alloc, &own, &sketch) {
        Ok(part) => replica_shown(alloc, &part),
        Err(fault) => refused(alloc, &fault),
    }
}
