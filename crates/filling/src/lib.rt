// The types that the definitions of specs/ and the code share (model.rs, inside.rs, density.rs). The crate has no function.
#![tactic(auto)]

#[derive(Clone, Copy)]
pub struct Vec3 {
    pub x: f64,
    pub y: f64,
    pub z: f64,
}

#[derive(Clone, Copy)]
pub struct Triangle {
    pub a: Vec3,
    pub b: Vec3,
    pub c: Vec3,
}

// A density's kernel, its alpha exactly 1: centre, sigma, weight.
#[derive(Clone, Copy)]
pub struct Kernel {
    pub c: Vec3,
    pub sigma: f64,
    pub w: f64,
}

// A box: the least and the greatest coordinates.
#[derive(Clone, Copy)]
pub struct Bounds {
    pub min: Vec3,
    pub max: Vec3,
}

// The indices of a point along x, y and z, 0 to 95 each.
#[derive(Clone, Copy)]
pub struct Indices {
    pub i: u32,
    pub j: u32,
    pub k: u32,
}

// Where a ray along +X meets a triangle: at a distance, or not at all. The project's rules name this form of the answer, in place of the original's mark (docs/DECISIONS.md 97).
#[derive(Clone, Copy)]
pub enum Crossing {
    At(f64),
    Miss,
}

// Where the cells of a filling lie: the padded box, a cell's widths, its volume.
#[derive(Clone, Copy)]
pub struct Frame {
    pub min: Vec3,
    pub max: Vec3,
    pub cell: Vec3,
    pub volume: f64,
}

// How much scratch a filling is lent, or asks for: floats, offsets, words.
#[derive(Clone, Copy)]
pub struct Lent {
    pub floats: u64,
    pub offsets: u64,
    pub words: u64,
}
