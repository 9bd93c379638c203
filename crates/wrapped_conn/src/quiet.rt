//! A quiet connection: its service's state can be logged in place of the reads that led to it.

ghost use Rattle.std.specs.Prelude.{◌≡◌};
ghost use Rattle.server_trait.specs.Service.{machine};
ghost use Rattle.ft_model.specs.Point.{Point};
ghost use Rattle.wrapped_conn.specs.Quiet.{is_quiet, quiet_in, ReportsQuiet};
ghost use Rattle.wrapped_conn.specs.Sound.{IsSound};
ghost use Rattle.wrapped_conn.specs.Refinement.{Stands};

use crate::conn::Conn;
use server_trait::Service;

/// The numbers of a quiet connection.
#[derive(Clone, Copy)]
pub struct Quiet {
    /// How many reads there are.
    pub reads: u32,
    /// The bytes of all reads.
    pub length: u32,
    /// The bytes of all output.
    pub made: u32,
}

impl<S: Service> Conn<S> {
    /// Returns the connection's numbers if it is quiet: every read is known to be logged, all output is acknowledged, and the service hasn't closed.
    pub fn quiet(&self) -> Option<Quiet>
        ensures state { result ≡ quiet_in self.now }
        ensures law { (fresh : S) (p : Point) → IsSound self.now → Stands (machine fresh S.after S.greeting) self.now p
            → ReportsQuiet (machine fresh S.after S.greeting) p result }
    {
        self.numbers_if_quiet()
    }

    fn numbers_if_quiet(&self) -> Option<Quiet>
        ensures { result ≡ quiet_in self.now }
    {
        if !self.is_quiet() {
            return None;
        }
        Some(Quiet {
            reads: self.north.count(),
            length: self.north.read(),
            made: self.north.made(),
        })
    }

    pub(crate) fn is_quiet(&self) -> bool
        ensures { result ≡ is_quiet self.now }
    {
        self.north.unanswered().len() == 0
            && self.una() == self.north.made()
            && !self.north.is_closed()
    }
}
