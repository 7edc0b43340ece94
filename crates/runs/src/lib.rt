// A row of cells as runs of records: the one place that knows in which form the scratch stands.
#![tactic(auto)]

pub mod walk;

ghost use Rattle.std.specs.Prelude.{◌≡◌, ◌≤◌, ◌<◌, length};
ghost use Rattle.rym1.specs.File.{grid};
ghost use Rattle.rym1.specs.Open.{occupied};
ghost use Rattle.runs.specs.declared.Form.TheVariants.{Marks, Words};
ghost use Rattle.runs.specs.Runs.{form_of, room_of, Held, Ready, Ran};
ghost use Rattle.runs.specs.Props.{Ready-prop};

use lookup::fill_counted;
use marks::fill_marks;
use points::file::{PointFile, WorkingFile};
use points::judge::work_cause;
use points::records::{cell_number, cells};

// How the words of scratch are laid out: marks and totals, or a word per cell. An enum that is matched in three places, `room`, `fill` and `next_run`: build chooses while it runs, and a
// trait of three functions would be one of two types behind a match all the same.
#[derive(Clone, Copy)]
pub enum Form {
    Marks,
    Words,
}

// The form for a file: marks where it is in working form.
pub fn form_of(file: PointFile<'_>) -> Form
    ensures { result ≡ form_of file.entry.bytes.now }
{
    match work_cause(file) {
        Ok(_) => Form::Marks,
        Err(_) => Form::Words,
    }
}

// How many words it takes. Why g is a plain number: points/records.rt.
pub fn room(form: Form, g: u32) -> usize
    requires { g ≤ 256 }
    ensures { result ≡ room_of form g }
{
    match form {
        Form::Marks => marks::room(g),
        Form::Words => cells(g),
    }
}

// The lookup of a file, in its form; how many cells are occupied.
pub fn fill(words: &mut [u32], file: PointFile<'_>, form: Form) -> u32
    requires form { form ≡ form_of file.bytes.now }
    requires room { room_of form (grid file.bytes.now) ≤ length words.old }
    ensures { (result ≡ occupied file.entry.bytes.now) × Held form words.new file.entry.bytes.now × (length words.new ≡ length words.old) }
{
    match form {
        Form::Marks => {
            fill_marks(words, WorkingFile { file });
            file.count()
        }
        Form::Words => fill_counted(words, file),
    }
}

// Records on end, from an index on, that are a row's points from a place up to the next one to look at. None is a count of 0: a loop over them takes no turn, where an
// Option would have to be opened at each row.
#[derive(Clone, Copy)]
pub struct Run {
    pub index: u32,
    pub count: u32,
    pub next: u32,
}

// A file, its grid g, and the words in which its lookup stands.
#[derive(Clone, Copy)]
pub struct Lookup<'a> {
    pub words: &'a [u32],
    pub file: PointFile<'a>,
    pub form: Form,
    pub g: u32,
    pub ghost ready: { Ready form words.now file.bytes.now g } by { Ready-prop form words.now file.bytes.now g },
}

impl<'a> Lookup<'a> {
    // The lookup of a file in words that hold it in this form.
    pub fn new(words: &'a [u32], file: &'a [u8], form: Form) -> Lookup<'a>
        requires { Ready form words.now file.now (grid file.now) }
        ensures { result.file.bytes.now ≡ file.now }
    {
        let file = PointFile { bytes: file };
        Lookup {
            words,
            file,
            form,
            g: file.grid(),
        }
    }
}

// What is left of a row of cells, from x up to x1.
#[derive(Clone, Copy)]
pub struct Rest<'a> {
    pub lookup: Lookup<'a>,
    pub z: u32,
    pub y: u32,
    pub x: u32,
    pub x1: u32,
    pub ghost some: { x < x1 },
    pub ghost x_in: { x1 ≤ lookup.g },
    pub ghost y_in: { y < lookup.g },
    pub ghost z_in: { z < lookup.g },
}

// The hints on inlining here and in `walk` make one loop of a visit and what is done with its runs.
impl Rest<'_> {
    // By marks: all that is left of the row, where the search finds one.
    #[inline(always)]
    fn marked_run(&self) -> Run
        requires form { self.now.lookup.form ≡ Marks }
        ensures { Ran self.now.lookup.file.bytes.now self.now.lookup.g self.now.z self.now.y self.now.x self.now.x1 result }
    {
        let c = cell_number(self.lookup.g, self.x, self.y, self.z);
        let w = self.x1 - self.x;
        let next = self.x1;
        let Some(_) = search::next(self.lookup.words, c, c + w).cell else {
            return Run {
                index: 0,
                count: 0,
                next,
            };
        };
        let held = marks::Marks {
            words: self.lookup.words,
            file: self.lookup.file,
        };
        let index = held.index_of(c);
        let count = held.count_of(c, w, index);
        Run { index, count, next }
    }

    // By words: the row's first point. A run of one record, as long ones are no gain where records stand in another order: the word that ends one is read again for the next.
    #[inline(always)]
    fn worded_run(&self) -> Run
        requires form { self.now.lookup.form ≡ Words }
        ensures { Ran self.now.lookup.file.bytes.now self.now.lookup.g self.now.z self.now.y self.now.x self.now.x1 result }
    {
        let row = cell_number(self.lookup.g, 0, self.y, self.z);
        let first = self.lookup.words[(row + self.x) as usize];
        if first != 0 {
            return Run {
                index: first - 1,
                count: 1,
                next: self.x + 1,
            };
        }
        for x in self.x + 1..self.x1 {
            let word = self.lookup.words[(row + x) as usize];
            if word != 0 {
                return Run {
                    index: word - 1,
                    count: 1,
                    next: x + 1,
                };
            }
        }
        Run {
            index: 0,
            count: 0,
            next: self.x1,
        }
    }

    // Its first run of points, in either form.
    #[inline(always)]
    pub fn next_run(&self) -> Run
        ensures { Ran self.now.lookup.file.bytes.now self.now.lookup.g self.now.z self.now.y self.now.x self.now.x1 result }
    {
        match self.lookup.form {
            Form::Marks => self.marked_run(),
            Form::Words => self.worded_run(),
        }
    }
}
