// A case of cost.bin. Words: g; the answer, nodes and tree bytes of its most costly model.
ghost use Rattle.std.proofs.Common.{lit≤};

use crate::Case;
use number::cost_numbers;

#[derive(Drop)]
pub struct Cost;

impl Case for Cost {
    ghost SIZE = { 16 };

    const SIZE: usize = 16;

    ghost short = { lit≤ tt };

    fn is_same_whole(case: &[u8]) -> bool {
        let told = cost_numbers(costliest::costliest(binary::u32_at(case, 0)));
        told.answer == binary::u32_at(case, 4) as u64
            && told.nodes == binary::u32_at(case, 8) as u64
            && told.bytes == binary::u32_at(case, 12) as u64
    }
}
