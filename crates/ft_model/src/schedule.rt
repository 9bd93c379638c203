//! A schedule as a value, and why a text spells none.

ghost use Rattle.std.specs.Prelude.{◌≡◌, List, [], ◌∷◌, ◌++◌, length, IfOk, OnOk, OnErr};
ghost use Rattle.ft_model.specs.Schedule.{kind_of, letters as letters_lem, bytes_of};

use crate::event::Event;
use ft_io::{Addr, Key, NoMemory, Octets};
use std::alloc::Global;
use std::marker::Model;
use tcp_rules::Profile;

/// The services that a schedule can name.
#[derive(Clone, Copy, PartialEq, Eq)]
pub enum ServiceKind {
    Echo,
    Line,
    Transfer,
    Meter,
}

impl ServiceKind {
    /// Returns the number by which a service of several kinds knows this kind.
    pub fn number(self) -> u8
        ensures { result ≡ kind_of self }
    {
        match self {
            ServiceKind::Echo => 1,
            ServiceKind::Line => 2,
            ServiceKind::Transfer => 3,
            ServiceKind::Meter => 4,
        }
    }
}

/// The bytes that a client sends.
#[derive(Drop)]
pub enum Script {
    /// These bytes.
    Bytes(Octets),
    /// `len` bytes: the letters from `a` to `z`, repeated.
    Fill { len: u32 },
}

impl Script {
    /// Returns the bytes that the script describes. Fails where an allocation fails.
    pub fn bytes(&self, alloc: Global) -> Result<Vec<u8>, NoMemory>
        ensures { IfOk result (λ bytes. bytes.items ≡ bytes_of self.now) }
    {
        match self {
            Script::Bytes(bytes) => Ok(Vec::from_slice(alloc, bytes.as_slice())?),
            Script::Fill { len } => letters(alloc, *len),
        }
    }
}

/// Returns `len` bytes: the letters from `a` to `z`, repeated.
#[tactic(auto, using(crate::proofs::Letters::letters_none, crate::proofs::Letters::letters_more))]
fn letters(alloc: Global, len: u32) -> Result<Vec<u8>, NoMemory>
    ensures { IfOk result (λ text. text.items ≡ letters_lem len) }
{
    let mut text = Vec::with_capacity(alloc, len as usize)?;
    for i in 0..len {
        text.push(b'a' + (i % 26) as u8)?;
    }
    Ok(text)
}

/// A client: its address and port, its initial sequence number and its script.
#[derive(Drop)]
pub struct ClientLine {
    /// Its address and port.
    pub key: Key,
    /// Its initial sequence number, modulo 2^32.
    pub isn: u32,
    /// The bytes that it sends, at most 2^24.
    pub script: Script,
}

/// The clients of a schedule, numbered from 1 in this order.
#[derive(Drop)]
pub struct ClientLines {
    lines: Vec<ClientLine>,
}

impl Model for ClientLines {
    ghost use Rattle.std.specs.Prelude.{List};
    ghost use Rattle.ft_model.specs.declared.schedule.ClientLine.{ClientLine};

    ghost Value = { List ClientLine };

    ghost view = { λ c. c.lines.items };
}

impl ClientLines {
    /// Makes the list of these clients, without allocating.
    pub fn new(lines: Vec<ClientLine>) -> ClientLines
        ensures { result ≡ lines.items }
    {
        ClientLines { lines }
    }

    /// Returns the clients, in order.
    pub fn as_slice(&self) -> &[ClientLine]
        ensures { result.now ≡ self.now }
    {
        self.lines.as_slice()
    }

    /// Appends a client. Where an allocation fails, the list is as before.
    pub fn push(&mut self, line: ClientLine) -> Result<(), NoMemory>
        ensures ok { OnOk result (self.new ≡ self.old ++ line ∷ []) }
        ensures err { OnErr result (self.new ≡ self.old) }
    {
        self.lines.push(line)?;
        Ok(())
    }
}

/// The events of a schedule, in order.
#[derive(Drop)]
pub struct Events {
    events: Vec<Event>,
}

impl Model for Events {
    ghost use Rattle.std.specs.Prelude.{List};
    ghost use Rattle.ft_model.specs.declared.event.Event.{Event};

    ghost Value = { List Event };

    ghost view = { λ e. e.events.items };
}

impl Events {
    /// Makes the list of these events, without allocating.
    pub fn new(events: Vec<Event>) -> Events
        ensures { result ≡ events.items }
    {
        Events { events }
    }

    /// Returns the events, in order.
    pub fn as_slice(&self) -> &[Event]
        ensures { result.now ≡ self.now }
    {
        self.events.as_slice()
    }

    /// Appends an event. Where an allocation fails, the list is as before.
    pub fn push(&mut self, event: Event) -> Result<(), NoMemory>
        ensures ok { OnOk result (self.new ≡ self.old ++ event ∷ []) }
        ensures err { OnErr result (self.new ≡ self.old) }
    {
        self.events.push(event)?;
        Ok(())
    }
}

/// How long a server that lasts waits, in ticks.
#[derive(Clone, Copy)]
pub struct Lasting {
    /// How long a connection that is done is in quarantine.
    pub wait: u32,
    /// After how long a silence a client is sent a keep-alive. 0: never.
    pub silence: u32,
}

/// A run as it is written down: the service, the server's address, the clients, and the events in order.
#[derive(Drop)]
pub struct Schedule {
    /// The service that the server runs.
    pub service: ServiceKind,
    /// The server's address and port.
    pub server: Addr,
    /// The profile of the server.
    pub profile: Profile,
    /// Whether two loggers keep the log, a head and a tail.
    pub twin: bool,
    /// The number of reads after which the server marks the log, if it does.
    pub marks: Option<u32>,
    /// How long the server waits, if it is one that lasts.
    pub lasting: Option<Lasting>,
    /// At most 16 in a schedule that a text spells.
    pub clients: ClientLines,
    /// At most 100,000 in a schedule that a text spells.
    pub events: Events,
}

/// Why a line of a schedule is refused, in the order of the tests.
#[derive(Clone, Copy, Debug, PartialEq, Eq)]
pub enum LineWhy {
    /// A byte that is no printable ASCII.
    Character,
    /// A first word that begins no line, or a service or a profile that doesn't exist.
    Word,
    /// A line that isn't allowed at this place.
    Place,
    /// Too few words, or too many.
    Count,
    /// A number outside its spelling or range.
    Number,
    /// An address outside its spelling, or one that is taken.
    Address,
    /// A script outside its spelling.
    Script,
    /// A well-formed line that asks for a part that is not built yet.
    Built,
}

/// The limits of a schedule's text.
#[derive(Clone, Copy, Debug, PartialEq, Eq)]
pub enum Limit {
    /// The bytes of the text.
    Text,
    /// The event lines.
    Events,
}
