// A test of y and z alone that most triangles fail.
ghost use Rattle.std.specs.Prelude.{◌≡◌, true, Float};
ghost use Rattle.filling.specs.declared.Crossing.TheVariants.{Miss};
ghost use Rattle.filling.specs.Vector.{vec};
ghost use Rattle.filling.specs.Lists.{triangle, point_limit, up_to, vector_up_to};
ghost use Rattle.filling.specs.Ray.{ray};
ghost use Rattle.ray.specs.Quick.{quick_miss};

use crate::EPS;
use binary::number_at;
use filling::Vec3;
use float::number::abs;
use model::TriangleAt;

// Whether the determinant or u rules out the triangle.
#[tactic(auto, unfolding(crate::specs::Quick::quick_miss, filling::specs::Lists::triangle, filling::specs::Lists::vec3, filling::specs::Lists::float))]
fn quick_miss(t: TriangleAt, origin: Vec3) -> bool
    ensures { result ≡ quick_miss origin (triangle t.entry.s.now t.entry.at) }
{
    let a = t.at;
    let b = a + 24;
    let c = a + 48;
    let ay = number_at(t.s, a + 8);
    let az = number_at(t.s, a + 16);
    let e1y = number_at(t.s, b + 8) - ay;
    let e1z = number_at(t.s, b + 16) - az;
    let e2y = number_at(t.s, c + 8) - ay;
    let e2z = number_at(t.s, c + 16) - az;
    let determinant = e1z * e2y - e1y * e2z;
    if abs(determinant) < EPS {
        return true;
    }
    let sy = origin.y - ay;
    let sz = origin.z - az;
    let u = 1.0 / determinant * (sz * e2y - sy * e2z);
    !(0.0 <= u && u <= 1.0)
}

// Whether the triangle may be passed over at every point with these y and z; near: both are within bounds.
pub fn skips_row(t: TriangleAt, y: f64, z: f64, near: bool) -> bool
    requires { near ≡ true → (up_to point_limit y ≡ true) × (up_to point_limit z ≡ true) }
    ensures { result ≡ true → (near ≡ true)
        × ((x : Float) → up_to point_limit x ≡ true → ray (vec x y z) (triangle t.entry.s.now t.entry.at) ≡ Miss) }
{
    near && quick_miss(t, Vec3 { x: 0.0, y, z })
}

// Whether the triangle may be passed over; near: the point is within bounds.
pub fn skips(t: TriangleAt, origin: Vec3, near: bool) -> bool
    requires { near ≡ true → vector_up_to point_limit origin ≡ true }
    ensures { result ≡ true → ray origin (triangle t.entry.s.now t.entry.at) ≡ Miss }
{
    skips_row(t, origin.y, origin.z, near)
}
