// The marks of a point file in lent words: for 32 cells one word of occupied marks and one running total.
#![tactic(auto)]

ghost use Rattle.std.specs.Prelude.{◌≡◌, ℕ, ◌+◌, ◌*◌, ◌%◌, ◌≤◌, ◌<◌, length, get_or};
ghost use Rattle.rym1.specs.File.{grid, cube, groups};
ghost use Rattle.marks.specs.Marks.{mark, tally, Entered, Marked};

use points::file::{PointFile, WorkingFile};
use points::records::cells;

// How many words marks and totals take. Why g is a plain number: points/records.rt.
pub fn room(g: u32) -> usize
    requires { g ≤ 256 }
    ensures { (result ≡ 2 * groups (cube g)) × (result ≤ 1048576) }
{
    2 * ((cells(g) + 31) / 32)
}

// Each record's mark. No two records name one cell, so a mark is added, and nothing is carried. With the walk in `lookup` this shares the `for` alone.
fn enter_marks(words: &mut [u32], file: WorkingFile<'_>)
    requires cleared { (2 * groups (cube (grid file.file.bytes.now)) ≤ length words.old)
        × ((k : ℕ) → k < 2 * groups (cube (grid file.file.bytes.now)) → get_or words.old k 0 ≡ 0) }
    ensures { Entered words.new file.entry.file.bytes.now × (length words.new ≡ length words.old) }
{
    for i in 0..file.file.count() {
        let c = file.file.cell(i);
        words[2 * (c / 32) as usize] += 1u32 << (c % 32);
    }
}

// The running totals. By index: of a loop over pairs of words it would have to be shown which words each pair is.
fn enter_totals(words: &mut [u32], file: PointFile<'_>)
    requires { Entered words.old file.bytes.now }
    ensures { Marked words.new file.entry.bytes.now × (length words.new ≡ length words.old) }
{
    let mut total: u32 = 0;
    for i in 0..room(file.grid()) / 2 {
        words[2 * i + 1] = total;
        total += u32::count_ones(words[2 * i]);
    }
}

// Marks and totals of a file in working form.
pub fn fill_marks(words: &mut [u32], file: WorkingFile<'_>)
    requires { 2 * groups (cube (grid file.file.bytes.now)) ≤ length words.old }
    ensures { Marked words.new file.entry.file.bytes.now × (length words.new ≡ length words.old) }
{
    words[..room(file.file.grid())].fill(0);
    enter_marks(words, file);
    enter_totals(words, file.file);
}

// Words that hold the marks and totals of a file.
#[derive(Clone, Copy)]
pub struct Marks<'a> {
    pub words: &'a [u32],
    pub file: PointFile<'a>,
    pub ghost filled: { Marked words.now file.bytes.now },
}

impl Marks<'_> {
    // How many occupied cells are below a cell, the total before its word plus the marks below it: in working form its index, if it is occupied.
    pub fn index_of(self, c: u32) -> u32
        requires { c < cube (grid self.file.bytes.now) }
        ensures { (result ≡ tally (mark self.entry.file.bytes.now) 0 c) × (result ≤ c) }
    {
        let at = 2 * (c / 32) as usize;
        let below = (1u32 << (c % 32)) - 1;
        self.words[at + 1] + u32::count_ones(self.words[at] & below)
    }

    // How many of w cells from c on, all of one word, are occupied.
    fn count_within(self, c: u32, w: u32) -> u32
        requires { (c < cube (grid self.file.bytes.now)) × (0 < w) × (c % 32 + w ≤ 32) }
        ensures { (result ≡ tally (mark self.entry.file.bytes.now) c w) × (result ≤ w) }
    {
        let mask = 2 * ((1u32 << (w - 1)) - 1) + 1;
        let marks = self.words[2 * (c / 32) as usize] >> (c % 32) & mask;
        if marks == mask {
            return w;
        }
        u32::count_ones(marks)
    }

    // How many of w cells from c on are occupied, `index` being how many are below c.
    pub fn count_of(self, c: u32, w: u32, index: u32) -> u32
        requires { (0 < w) × (c + w ≤ cube (grid self.file.bytes.now)) × (index ≡ tally (mark self.file.bytes.now) 0 c) }
        ensures { result ≡ tally (mark self.entry.file.bytes.now) c w }
    {
        if c % 32 + w <= 32 {
            return self.count_within(c, w);
        }
        let last = c + (w - 1);
        let k = last % 32;
        let total = self.words[2 * (last / 32) as usize + 1];
        total + self.count_within(last - k, k + 1) - index
    }
}
