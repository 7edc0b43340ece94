// Stored answers of the Rust oracle, a module for each kind: whether the library gives what a case says. oracle/README.md says how they were made.
#![tactic(auto)]

pub mod built;
pub mod costed;
pub mod edited;
pub mod narrowed;
pub mod opened;
pub mod parts;
pub mod written;

ghost use Rattle.std.specs.Prelude.{ℕ, ◌≤◌, length};

// A kind of stored cases, all of one size.
pub trait Case {
    ghost SIZE: { ℕ };

    // How many bytes a case takes.
    const SIZE: usize;

    // Whether the library gives what the case says.
    fn is_same_whole(case: &[u8]) -> bool
        requires { SIZE ≤ length case.now };

    ghost short: { SIZE ≤ 65536 };

    // The same, of a case that may be cut short: that is different.
    final fn is_same(case: &[u8]) -> bool {
        Self::SIZE <= case.len() && Self::is_same_whole(case)
    }
}
