// Theorems about the trees of rtm1. The crate has no function.
#![tactic(auto)]
