// The plain register, and the one theorem over whole lists of edits. The crate has no function.
#![tactic(auto)]
