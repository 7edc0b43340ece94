// The next occupied cell, by marks: a word without marks is passed over in one step, the first mark of any other is found by its trailing zeros.
#![tactic(auto)]

ghost use Rattle.std.specs.Prelude.{◌≡◌, ◌*◌, ◌≤◌, length};
ghost use Rattle.rym1.specs.File.{groups};
ghost use Rattle.search.specs.Next.{bit_at, next, words_read};

// The cell that is found, if there is one, and how many mark words were read.
#[derive(Clone, Copy)]
pub struct Search {
    pub cell: Option<u32>,
    pub read: u32,
}

// The least occupied cell from a first one up to an end, end excluded, in words laid out as those of `marks`: totals are not read.
pub fn next(words: &[u32], first: u32, end: u32) -> Search
    requires { (end ≤ 16777216) × (2 * groups end ≤ length words.now) }
    ensures { (result.cell ≡ next (bit_at words.now) first end) × (result.read ≡ words_read (bit_at words.now) first end) }
{
    let mut c = first;
    let mut at = 2 * (first / 32) as usize;
    let mut below = first % 32;
    let mut n: u32 = 0;
    // No `for`: the steps go by cells, the first one up to the end of its word; over words it would need a test of its own for an end that is not past the first cell.
    while c < end {
        let marks = words[at] >> below;
        n += 1;
        if marks != 0 {
            let cell = c + u32::trailing_zeros(marks);
            if cell < end {
                return Search {
                    cell: Some(cell),
                    read: n,
                };
            }
            return Search {
                cell: None,
                read: n,
            };
        }
        c += 32 - below;
        at += 2;
        below = 0;
    }
    Search {
        cell: None,
        read: n,
    }
}
