// Replays stored answers of the Rust oracle and says how many are the same. oracle/README.md says how they were made.
#![tactic(auto)]

mod replay;

use replay::replay_file;
use std::io;
use stored::built::Build;
use stored::costed::Cost;
use stored::edited::Edit;
use stored::narrowed::Narrow;
use stored::opened::Open;
use stored::written::Costliest;
use stored_marks::searched::Next;
use stored_meshes::crossed::Ray;
use stored_meshes::filled::Fill;
use stored_meshes::sided::Inside;

fn main(rt: HostRuntime) -> io::Result<()> {
    replay_file::<Narrow, _>(&rt, "narrow", "narrow.bin")?;
    replay_file::<Open, _>(&rt, "open", "open.bin")?;
    replay_file::<Build, _>(&rt, "build", "build.bin")?;
    replay_file::<Cost, _>(&rt, "cost", "cost.bin")?;
    replay_file::<Costliest, _>(&rt, "costliest", "costliest.bin")?;
    replay_file::<Next, _>(&rt, "next", "next.bin")?;
    replay_file::<Edit, _>(&rt, "edit", "edit.bin")?;
    replay_file::<Ray, _>(&rt, "ray", "ray.bin")?;
    replay_file::<Inside, _>(&rt, "inside", "inside.bin")?;
    replay_file::<Fill, _>(&rt, "fill", "fill.bin")?;
    Ok(())
}
