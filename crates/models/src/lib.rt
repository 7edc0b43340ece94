// 01's worked examples, held against the definitions. The crate has no function.
#![tactic(auto)]
