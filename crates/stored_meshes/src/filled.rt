// A case of fill.bin. Words: the grid; lengths of the mesh and of both lists of kernels; floats of scratch; the output's length; the answer.
// From byte 32 on target and density, from 64 the mesh, from 1504 and 1904 the kernels, from 2304 and 5248 the output before and after.
ghost use Rattle.std.specs.Prelude.{◌≤◌, length};
ghost use Rattle.std.proofs.Common.{lit≤};

use number::answer_number;
use stored::Case;
use stored::parts::{BYTE, FLOAT};

#[derive(Drop)]
pub struct Fill;

// Fills the case's mesh into a lent buffer of the case's length.
fn is_same_fill(
    case: &[u8],
    mesh: usize,
    cauchy: usize,
    elliptic: usize,
    scratch: &mut [f64],
    out: &mut [u8],
) -> bool
    requires { (8192 ≤ length case.now) × (mesh ≤ 1440) × (cauchy ≤ 400) × (elliptic ≤ 400) × (length out.old ≤ 2944) }
{
    let n = out.len();
    out.copy_from_slice(&case[2304..2304 + n]);
    let answer = answer_number(mascon_grid::build_mascon(
        binary::u32_at(case, 0),
        &case[64..64 + mesh],
        &case[1504..1504 + cauchy],
        &case[1904..1904 + elliptic],
        binary::f64_at(case, 32),
        binary::f64_at(case, 40),
        scratch,
        out,
    ));
    answer == binary::u32_at(case, 24) as u64 && out[..] == case[5248..5248 + n]
}

impl Case for Fill {
    ghost SIZE = { 8192 };

    const SIZE: usize = 8192;

    ghost short = { lit≤ tt };

    fn is_same_whole(case: &[u8]) -> bool {
        let mesh = binary::u32_at(case, 4) as usize;
        let cauchy = binary::u32_at(case, 8) as usize;
        let elliptic = binary::u32_at(case, 12) as usize;
        let scratch = binary::u32_at(case, 16) as usize;
        let out = binary::u32_at(case, 20) as usize;
        let mut hits = [FLOAT; 32];
        let mut image = [BYTE; 2944];
        mesh <= 1440
            && cauchy <= 400
            && elliptic <= 400
            && scratch <= 32
            && out <= 2944
            && is_same_fill(
                case,
                mesh,
                cauchy,
                elliptic,
                &mut hits[..scratch],
                &mut image[..out],
            )
    }
}
