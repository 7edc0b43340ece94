// Where the cells of a filling lie.
ghost use Rattle.std.specs.Prelude.{◌≡◌, ◌<◌};
ghost use Rattle.filling.specs.Frame as def;
ghost use Rattle.filling.specs.Fill.{flat, box_flat};

use filling::{Bounds, Frame, Vec3};
use float::number::scalar_min;
use model::{all_axes, each_axis, sub};

// How far the box is moved outward: half a cell of its shortest side.
#[tactic(auto, unfolding(filling::specs::Frame::padding))]
fn padding(b: Bounds, g: u32) -> f64
    ensures { result ≡ def.padding b g }
{
    let extent = sub(b.max, b.min);
    let shortest = scalar_min(scalar_min(extent.x, extent.y), extent.z);
    0.5 * shortest / (g as f64)
}

// The box b with its sides moved outward by pad, as cells, n to an axis.
#[tactic(auto, unfolding(filling::specs::Frame::frame_padded, filling::specs::Vector::sub))]
fn frame_padded(b: Bounds, pad: f64, n: f64) -> Frame
    ensures { result ≡ def.frame_padded b pad n }
{
    let by = all_axes(pad);
    let min = sub(b.min, by);
    let max = each_axis(|v, m| v + m, b.max, by);
    let cell = each_axis(|v, m| v / m, sub(max, min), all_axes(n));
    let volume = cell.x * cell.y * cell.z;
    Frame {
        min,
        max,
        cell,
        volume,
    }
}

// The cells of a mesh's box, g to an axis.
#[tactic(auto, unfolding(filling::specs::Frame::frame))]
pub fn frame_of(b: Bounds, g: u32) -> Frame
    ensures { result ≡ def.frame b g }
{
    frame_padded(b, padding(b, g), g as f64)
}

// One coordinate of it. Node's `metric_on` is of one shape, and of another definition.
#[tactic(auto, unfolding(filling::specs::Frame::middle_on))]
fn middle_on(min: f64, cell: f64, n: u32) -> f64
    ensures { result ≡ def.middle_on min cell n }
{
    min + (n as f64 + 0.5) * cell
}

// The point of a cell, by the cell's number, taken apart as in `cell_point`: three divisions, of which a function would hand back three numbers. Why g is a plain number: points/records.rt.
#[tactic(auto, unfolding(filling::specs::Frame::middle))]
pub fn middle(f: Frame, g: u32, c: u32) -> Vec3
    requires { 0 < g }
    ensures { result ≡ def.middle f g c }
{
    let x = middle_on(f.min.x, f.cell.x, c % g);
    let y = middle_on(f.min.y, f.cell.y, c / g % g);
    let z = middle_on(f.min.z, f.cell.z, c / g / g);
    Vec3 { x, y, z }
}

// ---- 19

// Whether min is not below max once both are narrowed.
#[tactic(auto, using(binary::proofs::Words::word_large), unfolding(filling::specs::Fill::flat, filling::specs::Fill::below_narrowed))]
fn flat(min: f64, max: f64) -> bool
    ensures { result ≡ flat min max }
{
    let (Some(low), Some(high)) = (float::narrow(min), float::narrow(max)) else {
        return true;
    };
    !(low < high)
}

#[tactic(auto, unfolding(filling::specs::Fill::box_flat))]
pub fn box_flat(f: Frame) -> bool
    ensures { result ≡ box_flat f }
{
    flat(f.min.x, f.max.x) || flat(f.min.y, f.max.y) || flat(f.min.z, f.max.z)
}
