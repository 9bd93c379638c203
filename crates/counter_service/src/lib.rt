//! Counter: an example of a service of your own. A definition in `specs/` says what it does, and `take` does exactly that.
#![tactic(auto)]

pub use counter::Counter;

mod counter;
