// The density of kernels at a point (density.rs, alpha exactly 1), and the lists of kernels that are lent as little-endian bytes.
#![tactic(auto)]

ghost use Rattle.std.specs.Prelude.{◌≡◌, ◌+◌, ◌≤◌, length};
ghost use Rattle.std.proofs.Common.{rules};
ghost use Rattle.filling.specs.Lists.{kernel, kernels, good_kernel, kernels_wrong};
ghost use Rattle.filling.specs.Density.{weight, density_at};

use filling::{Kernel, Vec3};
use model::{Entries, dot, list_wrong, sub, up_to, vec3_at, vector_up_to};

// The kernel that starts at byte `at`.
#[tactic(auto, unfolding(filling::specs::Lists::kernel, filling::specs::Lists::float))]
fn kernel_at(s: &[u8], at: usize) -> Kernel
    requires { at + 40 ≤ length s.now }
    ensures { result ≡ kernel s.now at }
{
    let c = vec3_at(s, at);
    let sigma = binary::f64_at(s, at + 24);
    let w = binary::f64_at(s, at + 32);
    Kernel { c, sigma, w }
}

// What one kernel adds at a point.
#[tactic(auto, unfolding(filling::specs::Density::weight))]
fn weight(k: Kernel, p: Vec3) -> f64
    ensures { result ≡ weight k p }
{
    let d = sub(p, k.c);
    k.w / (1.0 + k.sigma * k.sigma * dot(d, d))
}

// The density at a point.
#[tactic(auto, using(filling::proofs::Lists::kernels_more), unfolding(filling::specs::Density::density_at, filling::specs::Density::density_from, filling::specs::Lists::kernels, filling::specs::Lists::kernels_at))]
pub fn density_at(s: &[u8], p: Vec3) -> f64
    ensures { result ≡ density_at (kernels s.now) p }
{
    let mut density = 0.0;
    for i in 0..s.len() / 40 {
        density += weight(kernel_at(s, 40 * i), p);
    }
    density
}

#[tactic(auto, unfolding(filling::specs::Lists::good_kernel))]
fn good_kernel(k: Kernel) -> bool
    ensures { result ≡ good_kernel k }
{
    vector_up_to(1e6, k.c) && 0.0 <= k.sigma && k.sigma <= 1e6 && up_to(1e30, k.w)
}

// The kernels of a list.
struct Kernels;

impl Entries for Kernels {
    const SIZE: usize = 40;

    const MOST: usize = 163840;

    ghost SIZE = { 40 };

    ghost MOST = { 163840 };

    ghost good = { λ s at. good_kernel (kernel s at) };

    fn is_good(s: &[u8], at: usize) -> bool {
        good_kernel(kernel_at(s, at))
    }

    ghost some = { Prim.search rules };
}

// 17, of a list of kernels.
pub fn kernels_wrong(s: &[u8]) -> bool
    ensures { result ≡ kernels_wrong s.now }
{
    list_wrong::<Kernels>(s)
}
