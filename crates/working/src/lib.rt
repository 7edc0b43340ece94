// A file in working form: where a cell stands among its records, and one record come or gone.
#![tactic(auto)]

pub mod find;
pub mod moves;
