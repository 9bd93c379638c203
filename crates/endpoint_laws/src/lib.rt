//! The laws that a `tcp_endpoint` satisfies, each the contract of a function with an empty body, for the crates above to cite. They don't use the functions
//! that the code's contracts name, but the terms of RFC 9293 and of the laws of `ft_model`.
#![tactic(auto)]

pub mod laws;
pub mod time_wait;
pub mod unconnected;
