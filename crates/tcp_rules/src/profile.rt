//! What an operator chooses for a server or a client.

ghost use Rattle.std.specs.Prelude.{◌≡◌};
ghost use Rattle.tcp_rules.specs.Profile.{grammar_of};
ghost use Rattle.tcp_rules.specs.Profiles.{profile_of};

use seq_arith::Grammar;

/// What an operator chooses for a server. It stays as long as the server's log.
#[derive(Clone, Copy, Debug, PartialEq, Eq)]
pub enum Profile {
    /// Every retransmission timer starts with one tick, and every ACK is sent at once: for clients that are a few milliseconds away.
    Plain,
    /// The retransmission timer follows measured round trips, the losses of one flight are recovered one after another, the ACK of what isn't logged yet waits
    /// for the log, and of the Data that one turn sends of a connection only the last is answered. Clients whose segments carry timestamps get them: for
    /// clients beyond a wide-area network.
    Wan,
}

impl Profile {
    /// Whether TCP measures round trips, and recovers the losses of one flight one after another.
    pub fn measures(self) -> bool
        ensures { result ≡ (profile_of self).measures }
    {
        matches!(self, Profile::Wan)
    }

    /// Whether the ACK of what isn't logged yet waits for the log.
    pub fn delays(self) -> bool
        ensures { result ≡ (profile_of self).delays }
    {
        matches!(self, Profile::Wan)
    }

    /// Whether the log answers only the last of the Data that one turn sends of a connection.
    pub fn batches(self) -> bool
        ensures { result ≡ (profile_of self).batches }
    {
        matches!(self, Profile::Wan)
    }

    /// How the server and its logger write their messages.
    pub fn grammar(self) -> Grammar
        ensures { result ≡ grammar_of (profile_of self) }
    {
        match self {
            Profile::Plain => Grammar::Plain,
            Profile::Wan => Grammar::Wide,
        }
    }

    /// Whether segments to a client whose own segments carry timestamps carry them too.
    pub fn timestamps(self) -> bool
        ensures { result ≡ (profile_of self).timestamps }
    {
        matches!(self, Profile::Wan)
    }
}
