// A case of costliest.bin. Words: g, the length of the output; the answer. From byte 64 and 3520 the output before and after.
ghost use Rattle.std.specs.Prelude.{◌≤◌, length};
ghost use Rattle.std.proofs.Common.{lit≤};

use crate::Case;
use crate::parts::BYTE;
use number::answer_number;

#[derive(Drop)]
pub struct Costliest;

// Writes the point file of the case's most costly model into a lent buffer of the case's length.
fn is_same_file(case: &[u8], out: &mut [u8]) -> bool
    requires { (8192 ≤ length case.now) × (length out.old ≤ 3456) }
{
    let n = out.len();
    out.copy_from_slice(&case[64..64 + n]);
    let answer = answer_number(costliest::write_costliest(binary::u32_at(case, 0), out));
    answer == binary::u32_at(case, 8) as u64 && out[..] == case[3520..3520 + n]
}

impl Case for Costliest {
    ghost SIZE = { 8192 };

    const SIZE: usize = 8192;

    ghost short = { lit≤ tt };

    fn is_same_whole(case: &[u8]) -> bool {
        let out = binary::u32_at(case, 4) as usize;
        let mut image = [BYTE; 3456];
        out <= 3456 && is_same_file(case, &mut image[..out])
    }
}
