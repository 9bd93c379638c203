//! The content of a message about forgetting.

ghost use Rattle.std.specs.Prelude.{◌≡◌};
ghost use Rattle.long_laws.specs.Forgetting.{named_of};
ghost use Rattle.long_laws.specs.ForgetGrammar.{kind_of, body_in};
ghost use Rattle.forget_wire.specs.Value.{named_said, body_of, kind_said};

use ft_io::Key;

/// A message about forgetting, with the boot number of the server that sends it or that it answers.
#[derive(Clone, Copy)]
pub struct ForgetMsg {
    /// At least 1.
    pub boot: u64,
    /// Its kind, with the connection that it is about.
    pub body: ForgetBody,
}

/// A connection by its key and both initial sequence numbers, so that a late message isn't taken for one about a later connection of its key.
#[derive(Clone, Copy)]
pub struct Named {
    /// The client's address and port.
    pub key: Key,
    /// The client's initial sequence number.
    pub cisn: u32,
    /// The server's initial sequence number, as the client knows it.
    pub sisn: u32,
}

/// The content of a message about forgetting.
#[derive(Clone, Copy)]
pub enum ForgetBody {
    /// From the server: the connection is done, and its entry may be recycled.
    Forget(Named),
    /// From the logger: the log has no entry of this connection any more.
    Forgotten(Named),
}

/// The kinds of messages about forgetting, each with its number on the wire.
#[derive(Clone, Copy)]
pub(crate) enum Kind {
    Forget = 1,
    Forgotten = 2,
}

impl ForgetBody {
    /// The body of a kind that names this connection.
    pub(crate) fn of(kind: Kind, named: Named) -> ForgetBody
        ensures { body_of result ≡ body_in (kind_said kind) (named_said named) }
    {
        match kind {
            Kind::Forget => ForgetBody::Forget(named),
            Kind::Forgotten => ForgetBody::Forgotten(named),
        }
    }

    /// The connection that it is about.
    pub fn named(&self) -> Named
        ensures { named_said result ≡ named_of (body_of self.now) }
    {
        match *self {
            ForgetBody::Forget(named) => named,
            ForgetBody::Forgotten(named) => named,
        }
    }

    pub(crate) fn kind(&self) -> Kind
        ensures { kind_said result ≡ kind_of (body_of self.now) }
    {
        match self {
            ForgetBody::Forget(_) => Kind::Forget,
            ForgetBody::Forgotten(_) => Kind::Forgotten,
        }
    }
}
