//! Ports of this machine.

use ft_io::{Addr, Link};

/// How many ports are tried.
const PORTS: u16 = 16;

/// Binds a link to a port of this machine, this one or one of the next, of which some may be taken. Its address, or `None` where all that were tried are.
pub fn bind_somewhere<L: Link>(link: &mut L, first: u16) -> Option<Addr> {
    for port in first..first.saturating_add(PORTS) {
        let here = Addr {
            ip: 0x7F00_0001,
            port,
        };
        if link.bind(here).is_ok() {
            return Some(here);
        }
    }
    None
}
