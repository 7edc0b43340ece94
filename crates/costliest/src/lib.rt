// The most costly model of a grid, every cell occupied: how many nodes its tree has, and its file.
#![tactic(auto)]

ghost use Rattle.std.specs.Prelude.{◌≡◌, true, ◌+◌, ◌*◌, ◌≤◌, ◌<◌, length};
ghost use Rattle.rym1.specs.Bytes.{splice, words_bytes};
ghost use Rattle.rym1.specs.Causes.{told, outcome};
ghost use Rattle.rym1.specs.File.{cube, size, points_bytes};
ghost use Rattle.rym1.specs.Cells.{records_from, records};
ghost use Rattle.rtm1.specs.declared.Axis.TheVariants.{X, Y, Z};
ghost use Rattle.rtm1.specs.Boxes.{Proper, Within, cells, width};
ghost use Rattle.rtm1.specs.Tree.{tree_of, node_count};
ghost use Rattle.rtm1.specs.Costliest.{every_cell, costliest_header, costliest, write_costliest, told_cost};
ghost use Rattle.rtm1.proofs.Full.{Alike};
ghost use Rattle.costliest.specs.Every.{every};

use boxes::{Pair, halves, kind_of, whole};
use points::judge::grid_cause;
use points::records::{cells, out_point};
use rtm1::{Cells, Cost, Kind};
use rym1::{Cause, Point};

// 1 as a float's pattern.
const UNIT: u32 = 0x3f80_0000;

// A box's widths. That a box has cells, or lies in the greatest grid, is a clause here: as a type each half would be wrapped at every step of the recursion.
#[derive(Clone, Copy, PartialEq)]
struct Widths {
    x: u32,
    y: u32,
    z: u32,
}

fn widths_of(b: Cells) -> Widths
    requires { Proper b }
    ensures { (result.x ≡ width X b) × (result.y ≡ width Y b) × (result.z ≡ width Z b) }
{
    Widths {
        x: b.x1 - b.x0,
        y: b.y1 - b.y0,
        z: b.z1 - b.z0,
    }
}

// Whether two boxes have the same widths.
fn alike(b: Cells, c: Cells) -> bool
    requires { Proper b × Proper c }
    ensures { (result ≡ true → Alike b c) × (Alike b c → result ≡ true) }
{
    widths_of(b) == widths_of(c)
}

// How many cells a box has.
fn cells_of(b: Cells) -> u32
    requires { Within 256 b }
    ensures { result ≡ cells b }
{
    let Widths { x, y, z } = widths_of(b);
    z * (y * x)
}

// How many nodes the tree of a box has whose every cell is occupied. Halves of the same widths are counted once.
#[tactic(auto, using(crate::proofs::Full::one_node, crate::proofs::Full::parts, crate::proofs::Full::same_nodes))]
fn count_full(b: Cells) -> u32
    requires { Within 256 b }
    ensures { result ≡ node_count (tree_of every 256 b) }
{
    let Kind::Split = kind_of(cells_of(b), b) else {
        return 1;
    };
    let Pair { low, high } = halves(b);
    let left = count_full(low);
    let right = if alike(low, high) {
        left
    } else {
        count_full(high)
    };
    1 + left + right
}

// The greatest node count of a grid, and the tree length that goes with it.
#[tactic(auto, using(rym1::proofs::Accepted::grid_right, crate::proofs::Written::cost_refused, crate::proofs::Written::cost_done), unfolding(rtm1::specs::Costliest::cost, rym1::specs::Causes::judged))]
pub fn costliest(g: u32) -> Result<Cost, Cause>
    ensures { told_cost result ≡ costliest g }
{
    grid_cause(g)?;
    let nodes = count_full(whole(g)) as u64;
    let order = cells(g) as u64;
    Ok(Cost {
        nodes,
        bytes: 64 + 80 * nodes + 4 * order,
    })
}

// The header's words. Why g is a plain number, here and below: points/records.rt.
#[tactic(auto, unfolding(rtm1::specs::Costliest::costliest_header))]
fn header_words(g: u32) -> [u32; 16]
    requires { g ≤ 256 }
    ensures { words_bytes result ≡ costliest_header g }
{
    let n = cells(g) as u32;
    [
        0x314d5952, 1, g, n, 0, 0, 0, 0, 0, 0, 0, UNIT, UNIT, UNIT, 0, 0,
    ]
}

// The records of a row's cells, from byte `at` on: all have y and z.
#[tactic(auto, using(crate::proofs::Written::run_start, crate::proofs::Written::row_turn, crate::proofs::Written::length_run))]
fn out_row(out: &mut [u8], at: usize, g: u32, row: u32)
    requires in_grid { (0 < g) × (g ≤ 256) × (row < g * g) }
    requires room { at + 16 * g ≤ length out.old }
    ensures { out.new ≡ splice out.old at (points_bytes (records_from g every_cell (row * g) g)) }
{
    let y = row % g;
    let z = row / g;
    for x in 0..g {
        let p = Point {
            x,
            y,
            z,
            pad: 0,
            cauchy: UNIT,
            elliptic: UNIT,
        };
        out_point(out, at + 16 * (x as usize), p);
    }
}

// The records of every cell, behind the header.
#[tactic(auto, using(crate::proofs::Written::squared, crate::proofs::Written::rows_start, crate::proofs::Written::rows_turn, crate::proofs::Written::rows_end, crate::proofs::Written::rows_below, crate::proofs::Written::rows_all, crate::proofs::Written::length_run))]
fn out_rows(out: &mut [u8], g: u32)
    requires in_grid { (0 < g) × (g ≤ 256) }
    requires room { size (cube g) ≤ length out.old }
    ensures { out.new ≡ splice out.old 64 (points_bytes (records g every_cell)) }
{
    for row in 0..g * g {
        out_row(out, 64 + 16 * ((row * g) as usize), g, row);
    }
}

// The file that reaches both numbers into `out`.
#[tactic(auto, using(rym1::proofs::Accepted::grid_right, crate::proofs::Written::write_refused, crate::proofs::Written::write_9, crate::proofs::Written::header_room, crate::proofs::Written::write_done), unfolding(rym1::specs::Causes::number, rym1::specs::Causes::judged, rym1::specs::Causes::told))]
pub fn write_costliest(g: u32, out: &mut [u8]) -> Result<u64, Cause>
    ensures { outcome (told result) out.new ≡ write_costliest g out.old }
{
    grid_cause(g)?;
    let length = 64 + 16 * cells(g);
    if out.len() < length {
        return Err(Cause::OutputShort);
    }
    binary::out_words(out, 0, header_words(g));
    out_rows(out, g);
    Ok(length as u64)
}
