// Stored answers about meshes: rays, inside, fill.
#![tactic(auto)]

pub mod crossed;
pub mod filled;
pub mod sided;
