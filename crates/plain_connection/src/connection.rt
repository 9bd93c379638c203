//! The connection, and how much of its output may be sent.

ghost use Rattle.std.specs.Prelude.{◌≡◌, ◌≤◌, ◌+◌, ◌^◌, length};
ghost use Rattle.server_trait.specs.Service.{machine};
ghost use Rattle.ft_model.specs.Offset.{one_if};
ghost use Rattle.plain_connection.specs.Made.{end_of};
ghost use Rattle.plain_connection.specs.State.{IsServed};

use crate::made_output::{End, Made};
use plain_packets::part;
use plain_point::PlainPoint;
use server_trait::Service;
use std::marker::Model;

/// A live connection of a service of this kind.
#[derive(Drop)]
pub struct PlainConnection<S: Service> {
    pub(crate) kind: u8,
    pub(crate) point: PlainPoint,
    pub(crate) made: Made<S>,
}

impl<S: Service> Model for PlainConnection<S> {
    ghost use Rattle.plain_connection.specs.State.{ConnectionState};

    ghost Value = { ConnectionState S };

    ghost view = { λ c. record { kind = c.kind; point = c.point; made = c.made } };
}

impl<S: Service> PlainConnection<S> {
    ghost use Rattle.ft_model.specs.Point.{answered_run, whole_run, made as made_lem, released as released_lem, target as target_lem};

    /// Returns its point.
    pub fn point(&self) -> &PlainPoint
        ensures { result.now ≡ self.now.point }
    {
        &self.point
    }

    /// Returns how far the output of the answered reads extends, and whether the service has closed by then.
    #[tactic(auto, using(crate::proofs::Served::answered))]
    pub fn answered_end(&self) -> End
        requires { IsServed (machine (S.started self.now.kind) S.after S.greeting) self.now }
        ensures { result ≡ end_of (answered_run (machine (S.started self.now.kind) S.after S.greeting) self.now.point) }
    {
        let Some(end) = self.made.end(self.point.reads_answered()) else {
            unreachable!()
        };
        end
    }

    /// Returns how many bytes of output may be sent: those of the answered reads.
    pub fn released(&self) -> u64
        requires { IsServed (machine (S.started self.now.kind) S.after S.greeting) self.now }
        ensures { result ≡ released_lem (machine (S.started self.now.kind) S.after S.greeting) self.now.point }
    {
        self.answered_end().output
    }

    /// Returns the output that may be sent.
    #[tactic(auto, using(crate::proofs::Served::released_output))]
    pub fn output(&self) -> &[u8]
        requires { IsServed (machine (S.started self.now.kind) S.after S.greeting) self.now }
        ensures { result.now ≡ (answered_run (machine (S.started self.now.kind) S.after S.greeting) self.now.point).output }
    {
        part(self.made.output(), 0, self.released())
    }

    /// Returns how many bytes of output all reads make.
    #[tactic(auto, using(crate::proofs::Served::whole_output))]
    pub fn made(&self) -> u64
        requires { IsServed (machine (S.started self.now.kind) S.after S.greeting) self.now }
        ensures { result ≡ made_lem (machine (S.started self.now.kind) S.after S.greeting) self.now.point }
    {
        self.made.output().len() as u64
    }

    /// Returns how many units of output all reads make: the bytes, and the FIN after them if the reads close the service.
    #[tactic(auto, using(crate::proofs::Served::whole_units))]
    pub(crate) fn made_units(&self) -> u64
        requires { IsServed (machine (S.started self.now.kind) S.after S.greeting) self.now }
        ensures { result ≡ made_lem (machine (S.started self.now.kind) S.after S.greeting) self.now.point
            + one_if (whole_run (machine (S.started self.now.kind) S.after S.greeting) self.now.point).closed }
    {
        self.made.units()
    }
}
