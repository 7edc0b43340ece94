// Stored answers about marks: whether the library gives what a case says. oracle/README.md says how they were made.
#![tactic(auto)]

pub mod searched;
