// Parts of a stored case, each from a byte of it on: words copied into a buffer that a call is lent, and compared with what the call left there.
ghost use Rattle.std.specs.Prelude.{◌+◌, ◌*◌, ◌≤◌, length};

// What a lent buffer holds where the case says nothing of it. No byte is 0, so that one that a call should have cleared shows.
pub const BYTE: u8 = 0xa5;

pub const WORD: u32 = 0xa5a5_a5a5;

pub const FLOAT: f64 = 0.5;

// No method of the library reads words out of bytes.
pub fn copy_words(to: &mut [u32], case: &[u8], at: usize)
    requires { at + 4 * length to.old ≤ length case.now }
{
    for (word, bytes) in to.iter_mut().zip(case[at..].as_chunks::<4>().0) {
        *word = u32::from_le_bytes(*bytes);
    }
}

pub fn are_same_words(left: &[u32], case: &[u8], at: usize) -> bool
    requires { at + 4 * length left.now ≤ length case.now }
{
    left.iter()
        .zip(case[at..].as_chunks::<4>().0)
        .all(|(word, bytes)| *word == u32::from_le_bytes(*bytes))
}
