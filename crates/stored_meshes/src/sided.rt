// A case of inside.bin. Words: length of the mesh, floats of scratch, the answer. From byte 16 on the point, from 64 the mesh.
ghost use Rattle.std.proofs.Common.{lit≤};

use model::vec3_at;
use number::side_number;
use stored::Case;
use stored::parts::FLOAT;

#[derive(Drop)]
pub struct Inside;

impl Case for Inside {
    ghost SIZE = { 2048 };

    const SIZE: usize = 2048;

    ghost short = { lit≤ tt };

    fn is_same_whole(case: &[u8]) -> bool {
        let mesh = binary::u32_at(case, 0) as usize;
        let scratch = binary::u32_at(case, 4) as usize;
        if 1440 < mesh || 32 < scratch {
            return false;
        }
        let mut hits = [FLOAT; 32];
        let point = vec3_at(case, 16);
        let side = inside::inside(&case[64..64 + mesh], point, &mut hits[..scratch]);
        side_number(side) == binary::u32_at(case, 8) as u64
    }
}
