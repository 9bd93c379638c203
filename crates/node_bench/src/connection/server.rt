//! The server's side of a connection: what arrives there, and what becomes of what it sends.

ghost use Rattle.std.specs.Prelude.{◌<◌, length, IfOk, OnOk};
ghost use Rattle.wrapped_conn.specs.Sound.{IsSound};

use crate::SERVER;
use crate::connection::client::Client;
use crate::logger::{BOOT, CLIENT_ISN, Logger, SERVER_ISN};
use ft_io::{Key, NoMemory};
use limits::SEGMENT;
use logger_wire::read_msg;
use sample_servers::Echo;
use segment_codec::read_packet;
use std::alloc::Global;
use tcp_endpoint::Outbox;
use wrapped_conn::{Conn, ConnStage, TurnOut};

/// The kind of the echo service.
const ECHO: u8 = 1;

/// No more answers than this wait in a turn.
const ANSWERS: usize = 1_100;

/// What lies behind the connections: the log. With it what a connection sends in a turn, and the log's answers that wait for it.
#[derive(Drop)]
pub(crate) struct Backend {
    pub(crate) logger: Logger,
    pub(crate) turn: TurnOut,
    pub(crate) answers: Outbox,
}

/// A wrapped connection.
#[derive(Drop)]
pub(crate) struct Server {
    conn: Conn<Echo>,
    /// How many segments it sent.
    pub(crate) segments: u64,
}

impl Server {
    /// The client's SYN has come, and the log has an entry for it.
    pub(crate) fn new(alloc: Global, key: Key) -> Result<Server, NoMemory>
        ensures { IfOk result (λ server. IsSound server.conn) }
    {
        let conn = Conn::first(
            alloc, BOOT, key, SERVER, CLIENT_ISN, SERVER_ISN, SEGMENT, ECHO,
        )?;
        Ok(Server { conn, segments: 0 })
    }

    pub(crate) fn start(
        &mut self,
        alloc: Global,
        client: &mut Client,
        backend: &mut Backend,
    ) -> Result<(), NoMemory>
        requires { IsSound self.old.conn }
        ensures { OnOk result (IsSound self.new.conn) }
    {
        backend.turn.clear();
        self.conn.start(alloc, &mut backend.turn)?;
        self.end_turn(alloc, client, backend)
    }

    /// A segment of the client.
    pub(crate) fn on_packet(
        &mut self,
        alloc: Global,
        packet: &mut [u8],
        client: &mut Client,
        backend: &mut Backend,
    ) -> Result<(), NoMemory>
        requires { IsSound self.old.conn }
        ensures { OnOk result (IsSound self.new.conn) }
    {
        if read_packet(packet).is_err() {
            return Ok(());
        }
        backend.turn.clear();
        self.conn.on_packet(alloc, packet, &mut backend.turn)?;
        self.end_turn(alloc, client, backend)
    }

    pub(crate) fn on_tick(
        &mut self,
        alloc: Global,
        client: &mut Client,
        backend: &mut Backend,
    ) -> Result<(), NoMemory>
        requires { IsSound self.old.conn }
        ensures { OnOk result (IsSound self.new.conn) }
    {
        backend.turn.clear();
        self.conn.on_tick(&mut backend.turn);
        self.end_turn(alloc, client, backend)
    }

    /// What the turn sends arrives, and so do the log's answers, one after another.
    fn end_turn(
        &mut self,
        alloc: Global,
        client: &mut Client,
        backend: &mut Backend,
    ) -> Result<(), NoMemory>
        requires { IsSound self.old.conn }
        ensures { OnOk result (IsSound self.new.conn) }
    {
        backend.answers.clear();
        self.send(alloc, client, backend)?;
        for i in 0..ANSWERS {
            if i >= backend.answers.len() {
                break;
            }
            self.on_answer(alloc, i, backend)?;
            self.send(alloc, client, backend)?;
        }
        Ok(())
    }

    /// One of the answers that wait.
    fn on_answer(&mut self, alloc: Global, i: usize, backend: &mut Backend) -> Result<(), NoMemory>
        requires sound { IsSound self.old.conn }
        requires there { i < length backend.old.answers }
        ensures { OnOk result (IsSound self.new.conn) }
    {
        backend.turn.clear();
        if let Ok(m) = read_msg(backend.answers.packet(i)) {
            self.conn.on_msg(alloc, &m, &mut backend.turn)?;
        }
        Ok(())
    }

    /// The segments go to the client, and the messages to the log.
    fn send(
        &mut self,
        alloc: Global,
        client: &mut Client,
        backend: &mut Backend,
    ) -> Result<(), NoMemory>
        requires { IsSound self.old.conn }
        ensures { OnOk result (IsSound self.new.conn) }
    {
        let segments = backend.turn.segments();
        self.segments = self.segments.saturating_add(segments.len() as u64);
        client.receive(segments);
        backend
            .logger
            .take_turn(alloc, &backend.turn, &mut backend.answers)
    }

    /// Whether the log knows that the connection has ended.
    pub(crate) fn is_done(&self) -> bool {
        matches!(self.conn.stage(), ConnStage::Done)
    }
}
