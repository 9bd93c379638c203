//! A connection at the end of its entry of the log.

ghost use Rattle.std.specs.Prelude.{◌≡◌, ℕ};
ghost use Rattle.server_trait.specs.Service.{machine};
ghost use Rattle.tcp_rules.specs.Profile.{Profile as ProfileRules, plain};
ghost use Rattle.ft_model.specs.Log.{Entry};
ghost use Rattle.ft_model.specs.Restart.{point_of};
ghost use Rattle.wrapped_conn.specs.Sound.{IsSound};
ghost use Rattle.wrapped_conn.specs.Refinement.{StandsBefore};
ghost use Rattle.reincarnate.specs.Splice.{conn_of, IsSpliced, IsSplicedIn};

use ft_io::{Addr, Key};
use north_wrap::North;
use server_trait::Service;
use south_wrap::South;
use std::marker::Model;
use tcp_endpoint::Endpoint;
use tcp_rules::Profile;
use wrapped_conn::Conn;

/// The parts of a connection at the end of a restart: both wrappers, with a TCP between them that has never seen the client.
#[derive(Drop)]
pub struct Spliced<S: Service> {
    /// The server's profile.
    pub(crate) profile: Profile,
    /// The server's boot number.
    pub(crate) boot: u64,
    /// The client's address and port.
    pub(crate) key: Key,
    /// The server's address.
    pub(crate) local: Addr,
    /// The wrapper between the client and TCP.
    pub(crate) south: South,
    /// TCP, which has never seen the client.
    pub(crate) endpoint: Endpoint,
    /// The wrapper between TCP and the service.
    pub(crate) north: North<S>,
}

impl<S: Service> Model for Spliced<S> {
    ghost use Rattle.tcp_rules.specs.Profiles.{profile_of};
    ghost use Rattle.wrapped_conn.specs.Sound.{IsSound};
    ghost use Rattle.reincarnate.specs.Splice.{SplicedState, conn_of};

    ghost Value = { SplicedState S };

    ghost view = { λ s. record {
      profile = profile_of s.profile;
      boot = s.boot;
      key = s.key;
      local = s.local;
      south = s.south;
      endpoint = s.endpoint;
      north = s.north;
    } };

    ghost invariant = { λ s. IsSound (conn_of {S = S} (record {
      profile = profile_of s.profile;
      boot = s.boot;
      key = s.key;
      local = s.local;
      south = s.south;
      endpoint = s.endpoint;
      north = s.north;
    })) };
}

impl<S: Service> Spliced<S> {
    /// The boot number of the server.
    pub fn boot(&self) -> u64
        ensures { result ≡ self.now.boot }
    {
        self.boot
    }

    /// The client's address and port.
    pub fn key(&self) -> Key
        ensures { result ≡ self.now.key }
    {
        self.key
    }

    /// The server's address.
    pub fn local(&self) -> Addr
        ensures { result ≡ self.now.local }
    {
        self.local
    }

    /// The wrapper between the client and TCP.
    pub fn south(&self) -> &South
        ensures { result.now ≡ self.now.south }
    {
        &self.south
    }

    /// TCP.
    pub fn endpoint(&self) -> &Endpoint
        ensures { result.now ≡ self.now.endpoint }
    {
        &self.endpoint
    }

    /// The wrapper between TCP and the service.
    pub fn north(&self) -> &North<S>
        ensures { result.now ≡ self.now.north }
    {
        &self.north
    }

    /// Returns the connection. It isn't live yet: `Conn::start` makes it live.
    pub fn hand_on(self) -> Conn<S>
        ensures value { result ≡ conn_of self }
        ensures sound { IsSound result }
        ensures law { (fresh : S) (e : Entry) (i : ℕ) → IsSpliced (machine fresh S.after S.greeting) e i self
            → StandsBefore (machine fresh S.after S.greeting) result (point_of (machine fresh S.after S.greeting) plain e) }
        // The same in any profile.
        ensures profile { (profile : ProfileRules) (fresh : S) (e : Entry) (i : ℕ) → IsSplicedIn profile (machine fresh S.after S.greeting) e i self
            → StandsBefore (machine fresh S.after S.greeting) result (point_of (machine fresh S.after S.greeting) profile e) }
    {
        let Spliced {
            profile,
            boot,
            key,
            local,
            south,
            endpoint,
            north,
        } = self;
        Conn::joined_in(profile, boot, key, local, south, endpoint, north)
    }
}
