//! How a wrapped connection's point and that of its inner TCP, the *point inside*, are related: laws for the crates above to cite, each the contract of a
//! function with an empty body. They hold in the first incarnation and in a restarted one alike, for every service.
#![tactic(auto)]

pub mod laws;
