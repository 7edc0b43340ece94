// Where a ray along +X crosses a triangle.
#![tactic(auto)]

pub mod quick;

ghost use Rattle.std.specs.Prelude.{◌≡◌};
ghost use Rattle.filling.specs.Ray.{ray};

use filling::{Crossing, Triangle, Vec3};
use float::number::abs;
use model::{cross, dot, sub};

pub const EPS: f64 = 1e-12;

// The test of Möller and Trumbore.
#[tactic(auto, unfolding(filling::specs::Ray::ray, filling::specs::Ray::misses))]
pub fn ray_triangle_t(origin: Vec3, t: Triangle) -> Crossing
    ensures { result ≡ ray origin t }
{
    let direction = Vec3 {
        x: 1.0,
        y: 0.0,
        z: 0.0,
    };
    let e1 = sub(t.b, t.a);
    let e2 = sub(t.c, t.a);
    let p = cross(direction, e2);
    let determinant = dot(e1, p);
    if abs(determinant) < EPS {
        return Crossing::Miss;
    }
    let inverse = 1.0 / determinant;
    let s = sub(origin, t.a);
    let u = inverse * dot(s, p);
    if !(0.0 <= u && u <= 1.0) {
        return Crossing::Miss;
    }
    let q = cross(s, e1);
    let v = inverse * dot(direction, q);
    if v < 0.0 || u + v > 1.0 {
        return Crossing::Miss;
    }
    let distance = inverse * dot(e2, q);
    if !(distance > EPS) {
        return Crossing::Miss;
    }
    Crossing::At(distance)
}
