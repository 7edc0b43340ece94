// What a program reads of its input: as much as there is, up to a buffer's length.
#![tactic(auto)]

ghost use Rattle.std.specs.Prelude.{◌≤◌, IfOk, length};

use std::io;
use std::io::Read;

// How many bytes were read to the buffer's front: all of it, or what there was before the end.
// A loop of its own: `read_exact` does not say how much there was, `read_to_end` needs a heap, and no range counts by what a call read.
pub fn read_full<R: Read>(from: &mut R, buffer: &mut [u8]) -> io::Result<usize>
    ensures { IfOk result (λ n. n ≤ length buffer.new) }
{
    let mut at: usize = 0;
    while at < buffer.len() {
        let n = from.read(&mut buffer[at..])?;
        if n == 0 {
            break;
        }
        at += n;
    }
    Ok(at)
}
