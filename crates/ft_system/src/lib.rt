//! The forms of the traits of `ft_io`. Each trait has a form in memory, whose content contracts can specify, and a real one over std, of which contracts know
//! only how many calls failed.
#![tactic(auto)]

pub use mem_link::{Arrival, MemLink};
pub use mem_sink::MemSink;
pub use mem_source::MemSource;
pub use mem_spawner::MemSpawner;
pub use numbered::NumberedCalls;
pub use process_spawner::ProcessSpawner;
pub use streams::{ReadSource, WriteSink};
pub use udp_link::UdpLink;

mod excluded;
mod mem_link;
mod mem_sink;
mod mem_source;
mod mem_spawner;
mod numbered;
mod process_spawner;
mod streams;
mod udp_link;
