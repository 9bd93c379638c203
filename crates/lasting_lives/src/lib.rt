//! What a server that lasts knows of its keys besides what its node has: the watch of each live connection, and the quarantine of each that is done. It says
//! when a silent client is asked for a sign of life, when the server lets go of it, and by which segments.
//!
//! In names, *stands* means that a value of the code corresponds to one of the law, which is in `lasting_laws`.
#![tactic(auto)]

pub use life::{Life, Resting};
pub use lives::Lives;
pub use outside::Outside;
pub use watch::{Due, Origin, Watch};

mod excluded;
pub mod laws;
mod life;
mod lives;
mod outside;
mod watch;
