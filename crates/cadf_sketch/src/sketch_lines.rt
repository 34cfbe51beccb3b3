//! The file of a sketch: its lines decoded and made.
ghost use Rattle.std.specs.Prelude.{◌≡◌, ◌≤◌, ◌*◌, IfErr, OnOk, length, refl, ◌∷◌, IfOk, ◌++◌, decimal, flat_map};
ghost use Rattle.cadf_linefile.specs.Answers.{CauseIs};
ghost use Rattle.cadf_linefile.specs.Numbers.{number_in};
ghost use Rattle.cadf_sketch.specs.SketchFile.{cell_lines, IsSketch, head_of, head_line, counts_line, cell_line};
ghost use Rattle.cadf_sketch.specs.SketchVerdict.{sketch_kind, cause_of_cell, head_in, laid_out, tally_in, cell_in, cell_of_bytes, counts_in_words};
ghost use Rattle.cadf_sketch.specs.SketchLines.{told_lines, AreTold, IsCellPut};

use crate::cell::Cell;
use crate::layout::{Cells, Head, Layout, Salt};
use crate::sketch::Sketch;
use crate::tally::Tally;
use cadf_event::Name;
use cadf_inventory::digest_of;
use cadf_json::Memory;
use cadf_linefile::{Cause, LineFault, ModelFile, cut_at_blank, number_in};
use std::alloc::Global;

/// The values decoded from the lines after the log line, so far.
#[derive(Drop)]
pub enum Told {
    Nothing,
    Beginning(Head),
    Cells(Head, Tally, Vec<Cell>),
}

/// Appends the cell of a line, if a further cell is due.
fn put_cell(cells: &mut Vec<Cell>, head: &Head, line: &[u8]) -> Result<(), LineFault>
    requires { length cells.old.items ≤ 3 * head.now.layout.size }
    ensures ok { OnOk result (IsCellPut head.now cells.old.items cells.new.items line.now) }
    ensures err { IfErr result (λ e. CauseIs e (cause_of_cell (length cells.old.items) (3 * head.now.layout.size) line.now)) }
{
    if cells.len() >= head.layout.cells() {
        return Err(LineFault::Here(Cause::Shape));
    }
    let cell = cell_in(line).ok_or(LineFault::Here(Cause::Shape))?;
    cells.push(cell)?;
    Ok(())
}

impl ModelFile for Sketch {
    ghost kind = { sketch_kind };

    ghost holds = { IsSketch };

    ghost log = { λ s. s.log };

    ghost lines = { cell_lines };

    ghost body = { λ _. refl };

    type Told = Told;

    ghost told_lines = { told_lines };

    ghost sound = { AreTold };

    fn accepted() {}

    fn first_line() -> &'static str {
        "CADF-SKETCH 1"
    }

    fn nothing() -> Told {
        Told::Nothing
    }

    fn put_line(alloc: Global, told: &mut Told, line: &[u8]) -> Result<(), LineFault> {
        match told {
            Told::Nothing => {
                let head = head_in(line).ok_or(LineFault::Here(Cause::Shape))?;
                *told = Told::Beginning(head);
                Ok(())
            }
            Told::Beginning(head) => {
                let head = *head;
                let tally = tally_in(line).ok_or(LineFault::Here(Cause::Shape))?;
                *told = Told::Cells(head, tally, Vec::new(alloc));
                Ok(())
            }
            Told::Cells(head, _, cells) => put_cell(cells, head, line),
        }
    }

    fn is_whole(told: &Told) -> bool {
        match told {
            Told::Cells(head, _, cells) => cells.len() == head.layout.cells(),
            _ => false,
        }
    }

    fn of_lines(name: Name, told: Told) -> Sketch {
        match told {
            Told::Cells(head, tally, cells) => {
                let Head { layout, digest } = head;
                Sketch {
                    log: name,
                    layout,
                    digest,
                    tally,
                    cells,
                }
            }
            _ => unreachable!(),
        }
    }

    fn log_name(&self) -> &Name {
        self.log()
    }

    fn line_count(&self) -> usize {
        2 + self.cells().len()
    }

    fn line_at(&self, alloc: Global, place: usize) -> Result<Vec<u8>, Memory> {
        match place {
            0 => head_line(alloc, self),
            1 => counts_line(alloc, self.tally()),
            _ => cell_line(alloc, &self.cells()[place - 2]),
        }
    }
}

/// Returns the layout whose number of cells and salt these words are. `None` if there is none.
fn layout_in(cells: &[u8], salt: &[u8]) -> Option<Layout>
    ensures { result ≡ laid_out (number_in cells.now) (number_in salt.now) }
{
    let cells = Cells::of(number_in(cells)?)?;
    let salt = Salt::of(number_in(salt)?)?;
    Some(Layout::of(cells, salt))
}

/// Decodes the line with the number of cells, the salt and the digest. `None` if it is no such line.
fn head_in(line: &[u8]) -> Option<Head>
    ensures { result ≡ head_in line.now }
{
    let words = line.strip_prefix(b"S ")?;
    let (cells, words) = cut_at_blank(words)?;
    let (salt, digest) = cut_at_blank(words)?;
    let layout = layout_in(cells, salt)?;
    let digest = digest_of(digest)?;
    Some(Head { layout, digest })
}

/// Reads 65 numbers, separated by single spaces: the number of digests, then one for each bit. `None` for any other text.
fn counts_in(text: &[u8]) -> Option<Tally>
    ensures { result ≡ counts_in_words text.now }
{
    let (first, mut rest) = cut_at_blank(text)?;
    let digests = number_in(first)?;
    let mut ones = [0; 64];
    for bit in 0..63 {
        let (word, others) = cut_at_blank(rest)?;
        ones[bit] = number_in(word)?;
        rest = others;
    }
    ones[63] = number_in(rest)?;
    Some(Tally { digests, ones })
}

/// Decodes the line of the counts. `None` if it is no such line.
fn tally_in(line: &[u8]) -> Option<Tally>
    ensures { result ≡ tally_in line.now }
{
    counts_in(line.strip_prefix(b"C ")?)
}

/// Returns the cell of these bytes: its digest, and its check.
fn cell_of_bytes(bytes: &[u8; 40]) -> Cell
    ensures { result ≡ cell_of_bytes bytes.now }
{
    let mut digest = [0u8; 32];
    digest.copy_from_slice(&bytes[..32]);
    let mut check = [0u8; 8];
    check.copy_from_slice(&bytes[32..]);
    Cell {
        digest,
        check: u64::from_be_bytes(check),
    }
}

/// Decodes the line of a cell. `None` if it is no such line.
#[tactic(auto, unfolding(crate::specs::SketchVerdict::cell_in))]
fn cell_in(line: &[u8]) -> Option<Cell>
    ensures { result ≡ cell_in line.now }
{
    let mut bytes = [0u8; 40];
    hex::decode_to_slice(line, &mut bytes).ok()?;
    let mut text = [0u8; 80];
    hex::encode_to_slice(&bytes, &mut text).ok()?;
    (line == text.as_slice()).then_some(cell_of_bytes(&bytes))
}

/// Makes the line with the number of cells, the salt and the digest.
fn head_line(alloc: Global, sketch: &Sketch) -> Result<Vec<u8>, Memory>
    ensures { IfOk result (λ line. line.items ≡ head_line (head_of sketch.now)) }
{
    let (cells, salt) = (sketch.layout().cells(), sketch.layout().salt());
    let digest = hex::encode(alloc, sketch.digest())?;
    Ok(format!(in alloc; "S {cells} {salt} {digest}")?.into_bytes())
}

/// Makes the line of the counts.
fn counts_line(alloc: Global, tally: &Tally) -> Result<Vec<u8>, Memory>
    ensures { IfOk result (λ line. line.items ≡ counts_line tally.now) }
{
    let digests = tally.digests;
    let mut line = format!(in alloc; "C {digests}")?.into_bytes();
    push_counts(&mut line, tally.ones.as_slice())?;
    Ok(line)
}

/// Appends a space and the decimal number for each number.
fn push_counts(line: &mut Vec<u8>, counts: &[u64]) -> Result<(), Memory>
    ensures { OnOk result (line.new.items ≡ line.old.items ++ flat_map (λ m. 32 ∷ decimal m) counts.now) }
{
    let mut buffer = itoa::Buffer::new();
    for count in counts {
        line.push(b' ')?;
        line.extend_from_slice(buffer.format(*count).as_bytes())?;
    }
    Ok(())
}

/// Makes the line of a cell.
fn cell_line(alloc: Global, cell: &Cell) -> Result<Vec<u8>, Memory>
    ensures { IfOk result (λ line. line.items ≡ cell_line cell.now) }
{
    let check = cell.check.to_be_bytes();
    let mut bytes = Vec::from_slice(alloc, &cell.digest)?;
    bytes.extend_from_slice(&check)?;
    Ok(hex::encode(alloc, bytes.as_slice())?.into_bytes())
}
