//! A web server as a service: HTTP/1.0 and 1.1 over one connection. It makes each answer from the request alone, so that a server that is restarted after
//! a crash makes the same answer. A definition in `specs/` says what it does, and `take` does exactly that.
#![tactic(auto)]

pub use answer::{Reply, Status};
pub use request::{Method, Page, Request, Version};
pub use web::Web;

mod answer;
mod excluded;
pub mod laws;
mod reader;
mod request;
pub mod text;
mod web;
