// Whether a point lies inside a mesh (inside.rs): a scan with the accelerator's candidates, in place of its cell lists and stamps.
#![tactic(auto)]

pub mod crossings;

ghost use Rattle.std.specs.Prelude.{◌≡◌, ◌/◌, ◌≤◌, length};
ghost use Rattle.filling.specs.Lists.{mesh as mesh_of};
ghost use Rattle.filling.specs.Inside as def;

use accelerator::{bounds_of, indices, padded};
use crossings::{is_odd, scan};
use filling::{Bounds, Vec3};
use model::{Mesh, mesh_wrong, vector_up_to};
use rym1::Cause;

// Whether o lies inside the mesh, whose padded box is b.
#[tactic(auto, unfolding(filling::specs::Inside::is_inside, filling::specs::Inside::odd_rest))]
pub fn is_inside(mesh: Mesh, b: Bounds, o: Vec3, floats: &mut [f64]) -> bool
    requires { length mesh.bytes.now / 72 ≤ length floats.old }
    ensures { result ≡ def.is_inside b (mesh_of mesh.entry.bytes.now) o }
{
    let m = scan(mesh, b, indices(b, o), o, floats);
    is_odd(&mut floats[..m])
}

// Inside: yes, no or a refusal.
#[tactic(auto, using(filling::proofs::Lists::mesh_good), unfolding(filling::specs::Inside::side_number, rym1::specs::Causes::number, filling::specs::Inside::inside, filling::specs::Inside::inside_cause, rym1::specs::Causes::first, rym1::specs::Causes::when))]
pub fn inside(s: &[u8], o: Vec3, floats: &mut [f64]) -> Result<bool, Cause>
    ensures { (def.side_number result ≡ def.inside s.now o (length floats.old))
        × (8 ≤ def.side_number result → floats.new ≡ floats.old) }
{
    if mesh_wrong(s) || !vector_up_to(4e6, o) {
        return Err(Cause::ListWrong);
    }
    if floats.len() < s.len() / 72 {
        return Err(Cause::ScratchShort);
    }
    let mesh = Mesh { bytes: s };
    Ok(is_inside(mesh, padded(bounds_of(s)), o, floats))
}
