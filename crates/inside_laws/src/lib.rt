// Theorems about the inside test: the walk of the Rust original over its cells. The crate has no function.
#![tactic(auto)]
