//! The numbers of a connection, as they can be read from outside.

ghost use Rattle.std.specs.Prelude.{◌≡◌};
ghost use Rattle.wrapped_conn.specs.Numbers.{units_taken, una_units, sent_units, logged_units};
ghost use Rattle.wrapped_conn.specs.Sound.{IsSound};

use crate::conn::Conn;
use server_trait::Service;

/// Delta, and the numbers of a connection's point. Units count bytes, and one more for a FIN.
#[derive(Clone, Copy)]
pub struct Inside {
    /// The client's sequence number for output less TCP's, modulo 2^32.
    pub delta: u32,
    /// The client's units that are taken.
    pub taken: u32,
    /// The client's units that are known to be logged.
    pub answered: u32,
    /// The bytes of all reads.
    pub read: u32,
    /// How many reads there are.
    pub reads: u32,
    /// The units of output that the client has acknowledged.
    pub una: u32,
    /// Where the sent output ends, in units from the connection's start.
    pub sent: u32,
}

impl<S: Service> Conn<S> {
    /// Returns the connection's numbers, as its parts show them.
    pub fn inside(&self) -> Inside
        requires { IsSound self.now }
        ensures delta { result.delta ≡ self.now.south.delta }
        ensures taken { result.taken ≡ units_taken self.now }
        ensures answered { result.answered ≡ logged_units self.now }
        ensures read { result.read ≡ self.now.north.read }
        ensures reads { result.reads ≡ self.now.north.count }
        ensures una { result.una ≡ una_units self.now }
        ensures sent { result.sent ≡ sent_units self.now }
    {
        Inside {
            delta: self.south.delta(),
            taken: self.taken_units(),
            answered: self.logged(),
            read: self.north.read(),
            reads: self.north.count(),
            una: self.una(),
            sent: self.sent(),
        }
    }
}
