//! One connection: what it is, and how it begins.

ghost use Rattle.limits.specs.Limits.{largest_segment};
ghost use Rattle.std.specs.Prelude.{◌≡◌, ◌<◌, ◌≤◌, ◌-◌, false, Some, [], IfOk};
ghost use Rattle.segment_codec.specs.Value.{said};
ghost use Rattle.server_trait.specs.Service.{machine};
ghost use Rattle.ft_model.specs.Point.{Point, whole_run};
ghost use Rattle.wrapped_conn.specs.NewConnection.{first_conn, first_conn_in, joined_conn, joined_conn_in, syn};
ghost use Rattle.wrapped_conn.specs.Numbers.{has_fin as has_fin_lem, is_over as is_over_lem};
ghost use Rattle.tcp_rules.specs.Profile.{plain};
ghost use Rattle.tcp_rules.specs.Profiles.{profile_of};
ghost use Rattle.wrapped_conn.specs.Sound.{IsSound};
ghost use Rattle.wrapped_conn.specs.Refinement.{Stands};

use crate::stage::ConnStage;
use ft_io::{Addr, Key, NoMemory};
use limits::STREAM;
use north_wrap::North;
use segment_codec::{Head, PacketRef};
use seq_arith::{SYN, Seq};
use server_trait::Service;
use south_wrap::South;
use std::alloc::Global;
use std::marker::Model;
use tcp_endpoint::{Endpoint, StateName};
use tcp_rules::{Profile, Timestamping};

/// What the log keeps of a connection's opening, as its Opened says.
#[derive(Clone, Copy)]
pub struct Opened {
    /// The client's address and port.
    pub key: Key,
    /// The client's initial sequence number.
    pub cisn: Seq,
    /// The server's initial sequence number.
    pub sisn: Seq,
    /// The segment size, 64 to 1,460 bytes.
    pub mss: u16,
    /// The timestamps that the client's SYN asked for. The log doesn't keep them.
    pub timestamping: Timestamping,
}

/// One wrapped connection with the client `key` at the server's address `local`.
#[derive(Drop)]
pub struct Conn<S: Service> {
    /// The server's boot number.
    pub(crate) boot: u64,
    /// The client's address and port.
    pub(crate) key: Key,
    /// The server's address.
    pub(crate) local: Addr,
    /// The wrapper between the client and TCP.
    pub(crate) south: South,
    /// TCP.
    pub(crate) endpoint: Endpoint,
    /// The wrapper between TCP and the service.
    pub(crate) north: North<S>,
    /// The client's bytes that a restart fetched; else 0.
    pub(crate) fetched: u32,
    /// The end ticks counted so far, up to four.
    pub(crate) end_ticks: u8,
    /// Whether the client has reset the connection.
    pub(crate) reset: bool,
    /// How far it has come.
    pub(crate) stage: ConnStage,
    /// Whether the ACK of what isn't logged yet waits for the log.
    pub(crate) delays: bool,
    /// Whether the Data of a turn are a batch, in the wide grammar.
    pub(crate) batches: bool,
}

impl<S: Service> Model for Conn<S> {
    ghost use Rattle.wrapped_conn.specs.ConnState.{ConnState};

    ghost Value = { ConnState S };

    ghost view = { λ c. record {
      boot = c.boot;
      key = c.key;
      local = c.local;
      south = c.south;
      endpoint = c.endpoint;
      north = c.north;
      fetched = c.fetched;
      end_ticks = c.end_ticks;
      reset = c.reset;
      stage = c.stage;
      delays = c.delays;
      batches = c.batches;
    } };
}

impl<S: Service> Conn<S> {
    /// A connection that this incarnation opens: a fresh TCP has received its client's SYN, and `start` sends TCP's SYN-ACK. `mss` is the segment size, 64 to
    /// 1,460 bytes, and `kind` the service's kind. `open` takes what the log keeps as one record.
    pub fn first(
        alloc: Global,
        boot: u64,
        key: Key,
        local: Addr,
        cisn: Seq,
        sisn: Seq,
        mss: u16,
        kind: u8,
    ) -> Result<Conn<S>, NoMemory>
        requires boot { 1 ≤ boot }
        requires least { 64 ≤ mss }
        requires most { mss ≤ largest_segment }
        ensures state { IfOk result (λ c. c ≡ first_conn boot key local cisn.0 sisn.0 mss (S.started kind) (S.greeting (S.started kind))) }
        ensures sound { IfOk result (λ c. IsSound c) }
    {
        let opened = Opened {
            key,
            cisn,
            sisn,
            mss,
            timestamping: Timestamping::Off,
        };
        Conn::open(alloc, boot, local, opened, kind)
    }

    /// A connection that this incarnation opens, with the numbers that the log keeps: a fresh TCP has received its client's SYN, and `start` sends TCP's
    /// SYN-ACK. `kind` is the service's kind.
    pub fn open(
        alloc: Global,
        boot: u64,
        local: Addr,
        opened: Opened,
        kind: u8,
    ) -> Result<Conn<S>, NoMemory>
        requires boot { 1 ≤ boot }
        requires least { 64 ≤ opened.mss }
        requires most { opened.mss ≤ largest_segment }
        ensures state { IfOk result (λ c. c ≡ first_conn_in plain opened.timestamping boot opened.key local opened.cisn.0 opened.sisn.0 opened.mss
            (S.started kind) (S.greeting (S.started kind))) }
        ensures sound { IfOk result (λ c. IsSound c) }
    {
        Conn::open_in(Profile::Plain, alloc, boot, local, opened, kind)
    }

    /// The same of a server with this profile.
    pub fn open_in(
        profile: Profile,
        alloc: Global,
        boot: u64,
        local: Addr,
        opened: Opened,
        kind: u8,
    ) -> Result<Conn<S>, NoMemory>
        requires boot { 1 ≤ boot }
        requires least { 64 ≤ opened.mss }
        requires most { opened.mss ≤ largest_segment }
        ensures state { IfOk result (λ c. c ≡ first_conn_in (profile_of profile) opened.timestamping boot opened.key local opened.cisn.0 opened.sisn.0
            opened.mss (S.started kind) (S.greeting (S.started kind))) }
        ensures sound { IfOk result (λ c. IsSound c) }
    {
        let Opened {
            key,
            cisn,
            sisn,
            mss,
            timestamping,
        } = opened;
        let mut endpoint = Endpoint::listen_measuring(
            alloc,
            local,
            sisn,
            STREAM,
            profile.measures(),
        )?;
        endpoint.on_packet(PacketRef {
            head: syn_of(key, local, cisn, mss),
            payload: &[],
        });
        let south = South::new(cisn, sisn).with_timestamps(timestamping.fitting(mss));
        let north = North::new(alloc, kind)?;
        Ok(Conn::joined_in(profile, boot, key, local, south, endpoint, north))
    }

    /// A connection whose three parts are at one point, as at the end of a restart.
    pub fn joined(
        boot: u64,
        key: Key,
        local: Addr,
        south: South,
        endpoint: Endpoint,
        north: North<S>,
    ) -> Conn<S>
        ensures { result ≡ joined_conn boot key local south endpoint north }
    {
        Conn::joined_in(Profile::Plain, boot, key, local, south, endpoint, north)
    }

    /// The same of a server with this profile. TCP measures round trips exactly if the profile does.
    pub fn joined_in(
        profile: Profile,
        boot: u64,
        key: Key,
        local: Addr,
        south: South,
        endpoint: Endpoint,
        north: North<S>,
    ) -> Conn<S>
        ensures { result ≡ joined_conn_in (profile_of profile) boot key local south endpoint north }
    {
        let answered = south.stable().minus(south.cisn().add(1));
        let fetched = answered.saturating_sub(u32::from(has_fin(endpoint.state().name)));
        Conn {
            boot,
            key,
            local,
            south,
            endpoint,
            north,
            fetched,
            end_ticks: 0,
            reset: false,
            stage: ConnStage::Live,
            delays: profile.delays(),
            batches: profile.batches(),
        }
    }

    /// Its TCP.
    pub fn endpoint(&self) -> &Endpoint
        ensures { result.now ≡ self.now.endpoint }
    {
        &self.endpoint
    }

    /// Its south wrapper.
    pub fn south(&self) -> &South
        ensures { result.now ≡ self.now.south }
    {
        &self.south
    }

    /// Its north wrapper.
    pub fn north(&self) -> &North<S>
        ensures { result.now ≡ self.now.north }
    {
        &self.north
    }

    /// Returns its service. The service's state is that of an uncrashed server after the same reads.
    pub fn service(&self) -> &S
        ensures value { result.now ≡ self.now.north.run.service }
        ensures law { (fresh : S) (p : Point) → Stands (machine fresh S.after S.greeting) self.now p
            → result.now ≡ (whole_run (machine fresh S.after S.greeting) p).state }
    {
        self.north.service()
    }

    /// Whether its client has reset it.
    pub fn is_reset(&self) -> bool
        ensures { result ≡ self.now.reset }
    {
        self.reset
    }

    /// How far it has come: live, ending or done.
    pub fn stage(&self) -> ConnStage
        ensures { result ≡ self.now.stage }
    {
        self.stage
    }
}

/// The client's SYN.
fn syn_of(key: Key, local: Addr, cisn: Seq, mss: u16) -> Head
    ensures { record { head = said result; payload = [] } ≡ syn key local cisn.0 mss }
{
    Head {
        src: key.ip,
        dst: local.ip,
        sport: key.port,
        dport: local.port,
        seq: cisn,
        ack: Seq(0),
        flags: SYN,
        window: 0,
        mss: Some(mss),
        timestamps: None,
    }
}

/// Whether the client's FIN is taken, in a TCP that its client hasn't reset.
pub(crate) fn has_fin(name: StateName) -> bool
    ensures { result ≡ has_fin_lem name }
{
    matches!(
        name,
        StateName::CloseWait
            | StateName::Closing
            | StateName::LastAck
            | StateName::TimeWait
            | StateName::Closed
    )
}

/// Whether the connection is over (the client's FIN is taken, the server's acknowledged), in a TCP that its client hasn't reset.
pub(crate) fn is_over(name: StateName) -> bool
    ensures { result ≡ is_over_lem name }
{
    matches!(name, StateName::TimeWait | StateName::Closed)
}
