// A file of stored cases, all of one size: read one by one, held to what the library gives, counted and reported.
// A further kind is a module of stored, stored_marks or stored_meshes with a type that implements `Case`, and a line of `main`.
use reading::read_full;
use std::io::Read;
use std::rt::Files;
use std::{fs, io};
use stored::Case;

// Whether the file's next case is the same, if there is one. One that is cut short is lent as it is, and so is different.
fn next_case<C: Case, R: Read>(file: &mut R, case: &mut [u8]) -> io::Result<Option<bool>> {
    let n = read_full(file, case)?;
    if n == 0 {
        return Ok(None);
    }
    Ok(Some(C::is_same(&case[..n])))
}

#[derive(Clone, Copy)]
struct Tally {
    same: u64,
    cases: u64,
}

// All cases up to the file's end. A proved loop has to end: it stops at a count that no file reaches.
fn count_cases<C: Case, R: Read>(file: &mut R, case: &mut [u8]) -> io::Result<Tally> {
    let mut same: u64 = 0;
    for cases in 0..u64::MAX {
        let Some(is_same) = next_case::<C, R>(file, case)? else {
            return Ok(Tally { same, cases });
        };
        if is_same {
            same += 1;
        }
    }
    Ok(Tally {
        same,
        cases: u64::MAX,
    })
}

// One line: what was replayed, and how many cases of how many are the same. Not inlined: the buffers of all kinds would stand on the stack of `main` at once.
#[inline(never)]
pub fn replay_file<C: Case, R: Files + Print>(rt: &R, name: &str, path: &str) -> io::Result<()> {
    let mut file = fs::open(rt, path)?;
    let mut buffer: [u8; 65536] = [0; 65536];
    let Tally { same, cases } = count_cases::<C, _>(&mut file, &mut buffer[..C::SIZE])?;
    println!(rt; "{name} {same} of {cases}")
}
