//! The law Reads: which reads a turn makes.

ghost use Rattle.std.specs.Prelude.{◌≡◌, ◌≤◌, IfSome, OnOk};
ghost use Rattle.server_trait.specs.Service.{machine};
ghost use Rattle.plain_connection.specs.State.{IsServed, IsThere, ReadsOn};

use crate::connection::PlainConnection;
use ft_io::NoMemory;
use server_trait::Service;

impl<S: Service> PlainConnection<S> {
    ghost use Rattle.ft_model.specs.Reads.{next_read as next_lem, with_read};

    /// Returns the length of the next read, if one is made.
    #[tactic(auto, unfolding(ft_model::specs::Reads::may_read))]
    pub fn next_read(&self) -> Option<u16>
        requires { IsServed (machine (S.started self.now.kind) S.after S.greeting) self.now }
        ensures value { result ≡ next_lem (machine (S.started self.now.kind) S.after S.greeting) self.now.point }
        ensures within { IfSome result (λ n. n ≤ 2048) }
    {
        if self.point.may_read(self.made(), self.released()) {
            self.point.next_length()
        } else {
            None
        }
    }

    /// Makes the service read `len` bytes, which are there to be read. After `NoMemory` the connection may only be dropped.
    pub(crate) fn read(&mut self, len: u16) -> Result<(), NoMemory>
        requires served { IsServed (machine (S.started self.old.kind) S.after S.greeting) self.old }
        requires there { IsThere self.old.point len }
        ensures point { OnOk result (self.new.point ≡ with_read len self.old.point) }
        ensures kind { self.new.kind ≡ self.old.kind }
        ensures served { OnOk result (IsServed (machine (S.started self.old.kind) S.after S.greeting) self.new) }
    {
        self.made.read(self.point.unread(len))?;
        self.point.add_read(len)
    }

    /// Makes the service read on while it may: at most 32 times. After `NoMemory` the connection may only be dropped.
    pub fn read_on(&mut self) -> Result<(), NoMemory>
        requires { IsServed (machine (S.started self.old.kind) S.after S.greeting) self.old }
        ensures kind { self.new.kind ≡ self.old.kind }
        ensures reads { OnOk result (ReadsOn (machine (S.started self.old.kind) S.after S.greeting) self.old self.new) }
    {
        while let Some(len) = self.next_read() {
            self.read(len)?;
        }
        Ok(())
    }
}
