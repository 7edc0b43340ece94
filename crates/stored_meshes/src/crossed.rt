// A case of ray.bin: 3 binary64 of a point, 9 of a triangle, and where the ray along +X crosses it, −1 for a miss.
ghost use Rattle.std.proofs.Common.{lit≤};

use filling::Crossing;
use model::{triangle_at, vec3_at};
use ray::ray_triangle_t;
use stored::Case;

#[derive(Drop)]
pub struct Ray;

impl Case for Ray {
    ghost SIZE = { 104 };

    const SIZE: usize = 104;

    ghost short = { lit≤ tt };

    fn is_same_whole(case: &[u8]) -> bool {
        let distance = match ray_triangle_t(vec3_at(case, 0), triangle_at(case, 24)) {
            Crossing::At(distance) => distance,
            Crossing::Miss => -1.0,
        };
        distance == binary::f64_at(case, 96)
    }
}
