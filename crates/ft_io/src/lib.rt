//! Input and output of FT-TCP as traits: sources of bytes and sinks for bytes, a network of datagrams, and programs that run alongside this one. `ft_system`
//! has the forms of these traits, in memory and over std. The crate also has what every program does with the traits: it reads an input to its end under a
//! limit, and writes a complete text.
#![tactic(auto)]

pub use link::{Link, Receipt};
pub use link_call::LinkCall;
pub use memory::NoMemory;
pub use octets::Octets;
pub use reading::{ReadEnd, read_to_limit};
pub use sink::Sink;
pub use source::Source;
pub use spawn_call::SpawnCall;
pub use spawner::Spawner;
pub use words::Words;
pub use writing::write_all;

mod excluded;
mod link;
mod link_call;
mod memory;
mod octets;
mod reading;
mod sink;
mod source;
mod spawn_call;
mod spawner;
mod words;
mod writing;

/// An IPv4 address and a port, of a server or a logger.
#[derive(Clone, Copy, PartialEq, Eq, PartialOrd, Ord, Hash)]
pub struct Addr {
    /// The four octets as one number, the first octet the highest.
    pub ip: u32,
    /// The port: 16 bits.
    pub port: u16,
}

/// The address and port of a client, which names its connection.
#[derive(Clone, Copy, PartialEq, Eq, PartialOrd, Ord, Hash)]
pub struct Key {
    /// The four octets as one number, the first octet the highest.
    pub ip: u32,
    /// The port: 16 bits.
    pub port: u16,
}

/// An input or output call failed. It moved no bytes, where the content is specified.
#[derive(Clone, Copy, PartialEq, Eq)]
pub struct Failed;
