// The lookup of a point file in lent words, and the causes up to 8 that it asks for: a cell's word is one more than the index of the last record that names the cell, or 0, as the words that are lent hold numbers.
#![tactic(auto)]

ghost use Rattle.std.specs.Prelude.{◌≡◌, ℕ, ◌==◌, ◌*◌, ◌≤◌, ◌<◌, not, count_by, length, get_or, ltb, IfOk};
ghost use Rattle.rym1.specs.Causes.{judged, when, first};
ghost use Rattle.rym1.specs.File.{grid, cube, file_cause};
ghost use Rattle.rym1.specs.Open.{occupied};
ghost use Rattle.lookup.specs.Lookup.{Looked};

use points::file::PointFile;
use points::judge::parse_mascon_bytes;
use points::records::cells;
use rym1::Cause;

// Each record in file order: the later one counts.
fn enter_points(words: &mut [u32], file: PointFile<'_>)
    requires cleared { (cube (grid file.bytes.now) ≤ length words.old)
        × ((c : ℕ) → c < cube (grid file.bytes.now) → get_or words.old c 0 ≡ 0) }
    ensures { Looked words.new file.entry.bytes.now × (length words.new ≡ length words.old) }
{
    for i in 0..file.count() {
        words[file.cell(i) as usize] = i + 1;
    }
}

// The whole lookup of a file.
fn fill_lookup(words: &mut [u32], file: PointFile<'_>)
    requires { cube (grid file.bytes.now) ≤ length words.old }
    ensures { Looked words.new file.entry.bytes.now × (length words.new ≡ length words.old) }
{
    words[..cells(file.grid())].fill(0);
    enter_points(words, file);
}

// How many words are not 0. Not by `filter`, which branches at each word: of a model half of whose cells are occupied, every other one is guessed wrong.
fn count_marked(words: &[u32]) -> usize
    ensures { (result ≡ count_by (λ w. not (w == 0)) words.now) × (result ≤ length words.now) }
{
    let mut found: usize = 0;
    for word in words.iter() {
        if *word != 0 {
            found += 1;
        }
    }
    found
}

// The whole lookup; how many cells are occupied.
pub fn fill_counted(words: &mut [u32], file: PointFile<'_>) -> u32
    requires { cube (grid file.bytes.now) ≤ length words.old }
    ensures { (result ≡ occupied file.entry.bytes.now) × Looked words.new file.entry.bytes.now × (length words.new ≡ length words.old) }
{
    fill_lookup(words, file);
    count_marked(&words[..cells(file.grid())]) as u32
}

// 1 to 7 of a file; 8, fewer words than it has cells.
pub fn read_cause(file: &[u8], words: usize) -> Result<PointFile<'_>, Cause>
    ensures cause { judged result ≡ first (file_cause file.now) (when (ltb words (cube (grid file.now))) 8) }
    ensures file { IfOk result (λ p. p.bytes.now ≡ file.now) }
{
    let accepted = parse_mascon_bytes(file)?;
    if words < cells(accepted.grid()) {
        return Err(Cause::ScratchShort);
    }
    Ok(accepted)
}
