//! How a connection becomes live: by a client's SYN, or at the end of a restart.

ghost use Rattle.std.specs.Prelude.{◌≡◌, ◌≤◌, [], true, false, IfOk, OnOk, nat_le, sum, length};
ghost use Rattle.std.specs.List.{list_all};
ghost use Rattle.server_trait.specs.Service.{machine};
ghost use Rattle.tcp_rules.specs.Profiles.{profile_of};
ghost use Rattle.ft_model.specs.Opening.{point_opened};
ghost use Rattle.ft_model.specs.Restart.{entry_in, point_of, is_whole};
ghost use Rattle.logger_wire.specs.Records.{numbers_said};
ghost use Rattle.plain_connection.specs.State.{IsServed};

use crate::connection::PlainConnection;
use crate::made_output::Made;
use ft_io::NoMemory;
use logger_wire::Numbers;
use plain_log::{EntryParts, PlainFetched};
use plain_point::PlainPoint;
use server_trait::Service;
use std::alloc::Global;
use tcp_rules::{Profile, Timestamping};

impl<S: Service> PlainConnection<S> {
    /// Creates a connection with these numbers, in a profile and for a service of this kind. Its SYN asked for these timestamps.
    pub fn opened(
        alloc: Global,
        profile: Profile,
        asked: Timestamping,
        kind: u8,
        numbers: &Numbers,
    ) -> Result<PlainConnection<S>, NoMemory>
        ensures point { IfOk result (λ c. c.point ≡ point_opened (profile_of profile) asked (numbers_said numbers.now)) }
        ensures kind { IfOk result (λ c. c.kind ≡ kind) }
        ensures served { IfOk result (λ c. IsServed (machine (S.started kind) S.after S.greeting) c) }
    {
        Ok(PlainConnection {
            kind,
            point: PlainPoint::opened(alloc, profile, asked, numbers),
            made: Made::new(alloc, kind)?,
        })
    }

    /// Makes the service repeat the fetched reads. After `NoMemory` the connection may only be dropped.
    fn read_again(&mut self, lengths: &[u16]) -> Result<(), NoMemory>
        requires served { IsServed (machine (S.started self.old.kind) S.after S.greeting) self.old }
        requires unread { self.old.point.lengths ≡ [] }
        requires enough { sum lengths.now ≤ length self.old.point.taken }
        requires short { list_all (λ n. nat_le n 2048) lengths.now ≡ true }
        ensures point { OnOk result (self.new.point ≡ record self.old.point { lengths = lengths.now }) }
        ensures kind { self.new.kind ≡ self.old.kind }
        ensures served { OnOk result (IsServed (machine (S.started self.old.kind) S.after S.greeting) self.new) }
    {
        for len in lengths {
            self.read(*len)?;
        }
        Ok(())
    }

    /// Restores a connection in a profile, from a whole entry of the log that isn't done. The service makes its reads again. The output continues after what
    /// the client acknowledged, and an earlier incarnation may have sent all of it.
    pub fn resumed(
        alloc: Global,
        profile: Profile,
        kind: u8,
        entry: PlainFetched,
    ) -> Result<PlainConnection<S>, NoMemory>
        requires whole { is_whole entry ≡ true }
        requires live { entry.head.done ≡ false }
        ensures point { IfOk result (λ c. c.point ≡ point_of (machine (S.started kind) S.after S.greeting) (profile_of profile) (entry_in entry)) }
        ensures kind { IfOk result (λ c. c.kind ≡ kind) }
        ensures served { IfOk result (λ c. IsServed (machine (S.started kind) S.after S.greeting) c) }
    {
        let EntryParts {
            head,
            bytes,
            lengths,
        } = entry.into_parts();
        let numbers = Numbers {
            key: head.key,
            cisn: head.cisn,
            sisn: head.sisn,
            mss: head.mss,
        };
        let mut connection = PlainConnection {
            kind,
            point: PlainPoint::fetched(alloc, profile, &numbers, bytes, head.fin),
            made: Made::new(alloc, kind)?,
        };
        connection.read_again(&lengths)?;
        let at = u64::from(head.acked).min(connection.made());
        let units = connection.made_units();
        connection.point.resume_at(at, units);
        Ok(connection)
    }
}
