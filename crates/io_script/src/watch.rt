//! The system with a clock of its own: a list of times.

use std::cell::Cell;
use std::io;
use std::net::{Net, SocketAddr, UdpSocket};
use std::time::{Clock, Duration};

/// The system, but that its clock reads these times one after another, in milliseconds. `None` is a clock that can't be read, and
/// so is the end of the list.
#[derive(Drop)]
pub struct Watch<'a, R> {
    system: &'a R,
    times: &'a [Option<u64>],
    at: Cell<usize>,
}

impl<'a, R> Watch<'a, R> {
    pub fn new(system: &'a R, times: &'a [Option<u64>]) -> Watch<'a, R> {
        Watch {
            system,
            times,
            at: Cell::new(0),
        }
    }
}

impl<'a, R: Net> Net for Watch<'a, R> {
    type Stream = R::Stream;

    type Listener = R::Listener;

    fn bind(&self, addr: SocketAddr) -> io::Result<R::Listener> {
        self.system.bind(addr)
    }

    fn connect(&self, addr: SocketAddr) -> io::Result<R::Stream> {
        self.system.connect(addr)
    }

    fn bind_udp(&self, addr: SocketAddr) -> io::Result<UdpSocket> {
        self.system.bind_udp(addr)
    }
}

impl<'a, R> Clock for Watch<'a, R> {
    fn monotonic(&self) -> io::Result<Duration> {
        let at = self.at.get();
        self.at.set(at.wrapping_add(1));
        match self.times.get(at) {
            Some(Some(time)) => Ok(Duration::from_millis(*time)),
            _ => Err(io::Error::from(io::ErrorKind::Other)),
        }
    }

    fn since_1970(&self) -> io::Result<Duration> {
        Err(io::Error::from(io::ErrorKind::Unsupported))
    }
}
