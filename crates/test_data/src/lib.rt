//! Data for tests and for programs with cases: numbers that follow from a seed, streams in which a byte at a wrong place is seen, bytes in hexadecimal, a hash
//! of what came of them, what a script says, the scripts that an input has, and rules that what is seen must keep.
#![tactic(auto)]

pub use draws::Draws;
pub use hashing::hashed;
pub use hexadecimal::{bytes_of_hex, bytes_of_word, word_of_bytes};
pub use messages::seal;
pub use parts::{Program, Scripts, cut, lines_of};
pub use pattern::{Pattern, PatternTable};
pub use ports::bind_somewhere;
pub use rules::{require, require_all};
pub use said::Said;

mod draws;
mod excluded;
mod hashing;
mod hexadecimal;
mod messages;
mod parts;
mod pattern;
mod ports;
mod rules;
mod said;
