// Edits of a file in working form: put, remove, undo. File and journal are two parameters, and what is asked of both (`Sound`, room for an entry, the cell's place) are clauses: as a ghost field of a
// struct it would have to hold between the write of a record and that of its entry, when it does not.
#![tactic(auto)]

ghost use Rattle.std.specs.Prelude.{◌≡◌, false, IfOk, ◌+◌, ◌*◌, ◌≤◌, ◌<◌};
ghost use Rattle.std.specs.Float.{binary32};
ghost use Rattle.std.specs.Float.Ieee.{to_bits};
ghost use Rattle.rym1.specs.Causes.{judged, told, when, outcome};
ghost use Rattle.rym1.specs.File.{grid, cube};
ghost use Rattle.rym1.specs.Cells.{masses_of, cell_point};
ghost use Rattle.rym1.specs.Open.{both};
ghost use Rattle.rym1.specs.Journal.{push_cause};
ghost use Rattle.rym1.specs.Edits.{buffers_cause};
ghost use Rattle.rym1.specs.Edits as edits;
ghost use Rattle.journal.specs.Entry.{number, said};
ghost use Rattle.working.specs.Spotted.{Spotted};
ghost use Rattle.edits.specs.Calls.{Sound, Last, entry_wrong, put_rest, remove_rest, undo_rest};

use journal::{Entry, Journal, Kind, journal_cause, pop, push};
use points::file::WorkingFile;
use points::judge::{is_finite, parse_mascon_bytes, place_cause, point_cause, work_cause};
use points::records::{cell_number, cell_point, cells, count, grid, out_point, point_at};
use rym1::{Cause, Point};
use working::find::find_cell;
use working::moves::{insert_point, remove_point};

// 1 to 7, 10, 11.
#[tactic(auto, using(crate::proofs::Judging::judging), unfolding(rym1::specs::Causes::judged))]
fn buffers_cause<'a>(
    file: &'a [u8],
    journal: &'a [u32],
) -> Result<(WorkingFile<'a>, Journal<'a>), Cause>
    ensures cause { judged result ≡ buffers_cause file.now journal.now }
    ensures same { IfOk result (λ b. (b.0.file.bytes.now ≡ file.now) × (b.1.words.now ≡ journal.now)) }
{
    let accepted = parse_mascon_bytes(file)?;
    let working = work_cause(accepted)?;
    let past = journal_cause(journal)?;
    Ok((working, past))
}

// ---- put

// Over the record at index i.
#[tactic(auto, using(crate::proofs::Rooms::sizes), unfolding(journal::specs::Entry::number, rym1::specs::File::size))]
fn put_over(file: &mut [u8], journal: &mut [u32], c: u32, i: u32, p: Point) -> Result<u64, Cause>
    requires sound { Sound file.old journal.old }
    requires free { push_cause journal.old ≡ 0 }
    requires inside { c < cube (grid file.old) }
    requires spotted { Spotted file.old c (Ok i) }
    requires own { p ≡ cell_point (grid file.old) c (masses_of p) }
    ensures { outcome (told result) (both file.new journal.new) ≡ put_rest file.old journal.old c (masses_of p) }
{
    let n = count(file);
    let at = 64 + 16 * i as usize;
    let before = point_at(file, at);
    out_point(file, at, p);
    push(
        journal,
        Entry::new(Kind::Replaced, c, before.cauchy, before.elliptic),
    );
    Ok(64 + 16 * n as u64)
}

// Into an empty cell, i records before it.
#[tactic(auto, using(crate::proofs::Rooms::sizes, crate::proofs::Putting::put_new_full, crate::proofs::Putting::put_new_done), unfolding(journal::specs::Entry::number, rym1::specs::File::size, rym1::specs::Causes::told))]
fn put_new(file: &mut [u8], journal: &mut [u32], c: u32, i: u32, p: Point) -> Result<u64, Cause>
    requires sound { Sound file.old journal.old }
    requires free { push_cause journal.old ≡ 0 }
    requires inside { c < cube (grid file.old) }
    requires spotted { Spotted file.old c (Err i) }
    requires own { p ≡ cell_point (grid file.old) c (masses_of p) }
    ensures { outcome (told result) (both file.new journal.new) ≡ put_rest file.old journal.old c (masses_of p) }
{
    let n = count(file);
    if file.len() < 80 + 16 * n as usize {
        return Err(Cause::BufferFull);
    }
    insert_point(file, i, p);
    push(journal, Entry::new(Kind::Added, c, 0, 0));
    Ok(64 + 16 * (n + 1) as u64)
}

// Put: the cell's masses become these, whether it held a record or not.
#[tactic(auto, using(crate::proofs::Judging::sound, crate::proofs::Putting::ways), unfolding(rym1::specs::Causes::judged, rym1::specs::Causes::told))]
pub fn put(
    file: &mut [u8],
    journal: &mut [u32],
    x: u32,
    y: u32,
    z: u32,
    cauchy: f32,
    elliptic: f32,
) -> Result<u64, Cause>
    ensures { outcome (told result) (both file.new journal.new)
        ≡ edits.put file.old journal.old x y z (to_bits binary32 cauchy) (to_bits binary32 elliptic) }
{
    let p = Point {
        x,
        y,
        z,
        pad: 0,
        cauchy: std::num::f32_to_bits_with_nan(cauchy),
        elliptic: std::num::f32_to_bits_with_nan(elliptic),
    };
    let (working, past) = buffers_cause(file, journal)?;
    let g = working.file.grid();
    point_cause(g, p)?;
    past.push_cause()?;
    let c = cell_number(g, x, y, z);
    match find_cell(working, c) {
        Ok(i) => put_over(file, journal, c, i, p),
        Err(i) => put_new(file, journal, c, i, p),
    }
}

// ---- remove

// The record at index i.
#[tactic(auto, using(crate::proofs::Rooms::sizes, crate::proofs::Removing::way_removed), unfolding(journal::specs::Entry::number, rym1::specs::File::point_at, rym1::specs::File::size, rym1::specs::Causes::told))]
fn remove_held(file: &mut [u8], journal: &mut [u32], c: u32, i: u32) -> Result<u64, Cause>
    requires sound { Sound file.old journal.old }
    requires free { push_cause journal.old ≡ 0 }
    requires inside { c < cube (grid file.old) }
    requires spotted { Spotted file.old c (Ok i) }
    ensures { outcome (told result) (both file.new journal.new) ≡ remove_rest file.old journal.old c }
{
    let n = count(file);
    let at = 64 + 16 * i as usize;
    let before = point_at(file, at);
    remove_point(file, i);
    push(
        journal,
        Entry::new(Kind::Removed, c, before.cauchy, before.elliptic),
    );
    Ok(64 + 16 * (n - 1) as u64)
}

// Remove: the cell becomes empty.
#[tactic(auto, using(crate::proofs::Judging::sound, crate::proofs::Removing::ways), unfolding(rym1::specs::Causes::judged, rym1::specs::Causes::told))]
pub fn remove(file: &mut [u8], journal: &mut [u32], x: u32, y: u32, z: u32) -> Result<u64, Cause>
    ensures { outcome (told result) (both file.new journal.new) ≡ edits.remove file.old journal.old x y z }
{
    let (working, past) = buffers_cause(file, journal)?;
    let g = working.file.grid();
    place_cause(g, x, y, z)?;
    let c = cell_number(g, x, y, z);
    match find_cell(working, c) {
        Ok(i) => {
            past.push_cause()?;
            remove_held(file, journal, c, i)
        }
        Err(_) => Err(Cause::CellEmpty),
    }
}

// ---- undo

// 16, but for the cell's state; or the entry's kind. Why g is a plain number: points/records.rt.
#[tactic(auto, unfolding(crate::specs::Calls::entry_wrong, journal::specs::Entry::kind_number, journal::specs::Entry::number, rym1::specs::Causes::judged, rym1::specs::Causes::number, rym1::specs::Causes::when))]
fn entry_cause(g: u32, entry: Entry) -> Result<Kind, Cause>
    requires { g ≤ 256 }
    ensures cause { judged result ≡ when (entry_wrong g (said entry)) 16 }
    ensures kind { IfOk result (λ k. number k ≡ (said entry).kind) }
{
    let kind = entry.kind().ok_or(Cause::EntryWrong)?;
    if entry.gap() != 0 || cells(g) <= entry.cell() as usize {
        return Err(Cause::EntryWrong);
    }
    if kind == Kind::Added || is_finite(entry.cauchy) && is_finite(entry.elliptic) {
        return Ok(kind);
    }
    Err(Cause::EntryWrong)
}

// The cell holds the record at index i: a put is undone. By the entry's kind, which is data of the journal.
#[tactic(auto, using(crate::proofs::Rooms::sizes, crate::proofs::Undoing::way_held, crate::proofs::Undoing::way_emptied), unfolding(journal::specs::Entry::number, rym1::specs::File::size, rym1::specs::Causes::told))]
fn undo_held(
    file: &mut [u8],
    journal: &mut [u32],
    kind: Kind,
    entry: Entry,
    i: u32,
) -> Result<u64, Cause>
    requires sound { Sound file.old journal.old }
    requires last { Last journal.old (said entry) }
    requires spotted { Spotted file.old (said entry).cell (Ok i) }
    requires right { entry_wrong (grid file.old) (said entry) ≡ false }
    requires kind { number kind ≡ (said entry).kind }
    ensures { outcome (told result) (both file.new journal.new) ≡ undo_rest file.old journal.old }
{
    let n = count(file);
    match kind {
        Kind::Added => {
            remove_point(file, i);
            pop(journal);
            Ok(64 + 16 * (n - 1) as u64)
        }
        Kind::Replaced => {
            let p = cell_point(grid(file), entry.cell(), entry.cauchy, entry.elliptic);
            out_point(file, 64 + 16 * i as usize, p);
            pop(journal);
            Ok(64 + 16 * n as u64)
        }
        Kind::Removed => Err(Cause::EntryWrong),
    }
}

// The cell is empty, i records before it: a removal is undone.
#[tactic(auto, using(crate::proofs::Rooms::sizes, crate::proofs::Undoing::way_vacant, crate::proofs::Undoing::way_full), unfolding(journal::specs::Entry::number, rym1::specs::File::size, rym1::specs::Causes::told))]
fn undo_vacant(
    file: &mut [u8],
    journal: &mut [u32],
    kind: Kind,
    entry: Entry,
    i: u32,
) -> Result<u64, Cause>
    requires sound { Sound file.old journal.old }
    requires last { Last journal.old (said entry) }
    requires spotted { Spotted file.old (said entry).cell (Err i) }
    requires right { entry_wrong (grid file.old) (said entry) ≡ false }
    requires kind { number kind ≡ (said entry).kind }
    ensures { outcome (told result) (both file.new journal.new) ≡ undo_rest file.old journal.old }
{
    let n = count(file);
    match kind {
        Kind::Added | Kind::Replaced => Err(Cause::EntryWrong),
        Kind::Removed => {
            if file.len() < 80 + 16 * n as usize {
                return Err(Cause::BufferFull);
            }
            let p = cell_point(grid(file), entry.cell(), entry.cauchy, entry.elliptic);
            insert_point(file, i, p);
            pop(journal);
            Ok(64 + 16 * (n + 1) as u64)
        }
    }
}

// Undo: the last put or remove that is not undone.
#[tactic(auto, using(crate::proofs::Judging::sound, crate::proofs::Undoing::ways), unfolding(rym1::specs::Causes::judged, rym1::specs::Causes::told))]
pub fn undo(file: &mut [u8], journal: &mut [u32]) -> Result<u64, Cause>
    ensures { outcome (told result) (both file.new journal.new) ≡ edits.undo file.old journal.old }
{
    let (working, past) = buffers_cause(file, journal)?;
    if past.entries() == 0 {
        return Err(Cause::NoEntry);
    }
    let entry = past.last();
    let kind = entry_cause(working.file.grid(), entry)?;
    match find_cell(working, entry.cell()) {
        Ok(i) => undo_held(file, journal, kind, entry, i),
        Err(i) => undo_vacant(file, journal, kind, entry, i),
    }
}
