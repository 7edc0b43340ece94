// The order words of a box's points, from a byte on. Each function answers the byte behind them.
ghost use Rattle.std.specs.Prelude.{◌≡◌, ◌+◌, ◌*◌, ◌≤◌, ◌<◌, length};
ghost use Rattle.rym1.specs.Bytes.{splice, words_bytes};
ghost use Rattle.rym1.specs.Cells.{look};
ghost use Rattle.rtm1.specs.Boxes.{Within};
ghost use Rattle.rtm1.specs.Visit.{visit};
ghost use Rattle.sums.specs.Ordered.{upward, Room, Ordered};

use rtm1::Cells;
use runs::Lookup;
use runs::walk::Stretch;

// Of a stretch of records.
fn out_records(out: &mut [u8], from: usize, r: Stretch) -> usize
    requires { from + 4 * r.count ≤ length out.old }
    ensures { (out.new ≡ splice out.old from (words_bytes (upward r.index r.count))) × (result ≡ from + 4 * r.count) }
{
    for k in 0..r.count {
        binary::out_u32(out, from + 4 * k as usize, r.index + k);
    }
    from + 4 * r.count as usize
}

// Of the box: the loop of `sums_of` with another step. The step as a parameter would be no plainer: one folds a value, the other writes a buffer from a byte on.
pub fn out_order(out: &mut [u8], from: usize, lookup: &Lookup<'_>, b: Cells) -> usize
    requires within { Within lookup.now.g b }
    requires room { Room out.old from (visit (look lookup.now.file.bytes.now) lookup.now.g b) }
    ensures { Ordered out.old from (visit (look lookup.now.file.bytes.now) lookup.now.g b) out.new result }
{
    let mut at = from;
    for r in lookup.runs(b) {
        at = out_records(out, at, r);
    }
    at
}
